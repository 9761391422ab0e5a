//! The options by name.
ghost use Rattle.std.specs.Prelude.{◌≡◌};
ghost use Rattle.hunt_words.specs.Names.{name_in, word_of};

/// An option by its name.
#[derive(Clone, Copy)]
pub enum Name {
    /// `--cores`
    Cores,
    /// `--limit`
    Limit,
    /// `--words`
    Words,
    /// `--by`
    By,
    /// `--runs`
    Runs,
    /// `--threads`
    Threads,
    /// `--run`
    Run,
    /// `--turns`
    Turns,
    /// `--expect`
    Expect,
    /// `--never`
    Never,
    /// `--same`
    Same,
    /// `--see`
    See,
    /// `--elf`, a flag
    Elf,
    /// `--tso`, a flag
    Tso,
    /// `--plain`, a flag
    Plain,
}

impl Name {
    /// The option that this word names, exactly.
    pub(crate) fn named(word: &str) -> Option<Name>
        ensures { result ≡ name_in word.now }
    {
        match word {
            "--cores" => Some(Name::Cores),
            "--limit" => Some(Name::Limit),
            "--words" => Some(Name::Words),
            "--by" => Some(Name::By),
            "--runs" => Some(Name::Runs),
            "--threads" => Some(Name::Threads),
            "--run" => Some(Name::Run),
            "--turns" => Some(Name::Turns),
            "--expect" => Some(Name::Expect),
            "--never" => Some(Name::Never),
            "--same" => Some(Name::Same),
            "--see" => Some(Name::See),
            "--elf" => Some(Name::Elf),
            "--tso" => Some(Name::Tso),
            "--plain" => Some(Name::Plain),
            _ => None,
        }
    }

    /// The word that names the option.
    pub fn word(self) -> &'static str
        ensures { result.now ≡ word_of self }
    {
        match self {
            Name::Cores => "--cores",
            Name::Limit => "--limit",
            Name::Words => "--words",
            Name::By => "--by",
            Name::Runs => "--runs",
            Name::Threads => "--threads",
            Name::Run => "--run",
            Name::Turns => "--turns",
            Name::Expect => "--expect",
            Name::Never => "--never",
            Name::Same => "--same",
            Name::See => "--see",
            Name::Elf => "--elf",
            Name::Tso => "--tso",
            Name::Plain => "--plain",
        }
    }
}
