//! The verbs, and which options each takes.
ghost use Rattle.std.specs.Prelude.{◌≡◌};
ghost use Rattle.std.specs.List.{list_any};
ghost use Rattle.std.specs.Str.{bytes_eq};
ghost use Rattle.hunt_words.specs.Verbs.{is_flag, is_own, takes_value, verb_named};

/// The first word: what is asked for.
#[derive(Clone, Copy)]
pub enum Verb {
    /// `first`
    First,
    /// `table`
    Table,
    /// `small`
    Small,
    /// `words`
    Words,
    /// `record`
    Record,
}

impl Verb {
    /// The verb that this word names, exactly.
    pub(crate) fn named(word: &str) -> Option<Verb>
        ensures { result ≡ verb_named word.now }
    {
        match word {
            "first" => Some(Verb::First),
            "table" => Some(Verb::Table),
            "small" => Some(Verb::Small),
            "words" => Some(Verb::Words),
            "record" => Some(Verb::Record),
            _ => None,
        }
    }

    /// Whether the word names an option that the verb takes with a value.
    pub(crate) fn takes_value(self, word: &str) -> bool
        ensures { result ≡ takes_value self word.now }
    {
        is_among(word, &["--cores", "--limit", "--words", "--by"]) || self.is_own(word)
    }

    /// Whether the word names an option with a value that not every verb takes, and this one does.
    fn is_own(self, word: &str) -> bool
        ensures { result ≡ is_own self word.now }
    {
        match self {
            Verb::First => is_among(
                word,
                &["--runs", "--threads", "--expect", "--never", "--same"],
            ),
            Verb::Table => is_among(
                word,
                &["--runs", "--threads", "--expect", "--never", "--see"],
            ),
            Verb::Small => is_among(word, &["--run", "--turns", "--expect", "--never"]),
            Verb::Words | Verb::Record => is_among(word, &["--run", "--turns"]),
        }
    }

    /// Whether the word names a flag that the verb takes.
    pub(crate) fn is_flag(self, word: &str) -> bool
        ensures { result ≡ is_flag self word.now }
    {
        match self {
            Verb::First => is_among(word, &["--elf", "--tso", "--plain"]),
            _ => is_among(word, &["--elf", "--tso"]),
        }
    }
}

/// Whether the word is one of the names.
fn is_among(word: &str, names: &[&str]) -> bool
    ensures { result ≡ list_any (λ name. bytes_eq word.now name.now) names.now }
{
    names.iter().any(|name| word == *name)
}
