//! What words may ask of any program beside its work.
ghost use Rattle.std.specs.Prelude.{◌≡◌, map, string_bytes};
ghost use Rattle.command_line.specs.Questions.{asked, question_in};

/// What words may ask of any program beside its work.
#[derive(Clone, Copy)]
pub enum Question {
    /// How it is used: `--help`.
    Help,
    /// Which it is: `--version`.
    Version,
}

/// What the words ask for, where they are one word that asks so.
pub fn asked(words: &[String]) -> Option<Question>
    ensures { result ≡ asked (map string_bytes words.now) }
{
    if words.len() == 1 {
        question_in(words[0].as_str())
    } else {
        None
    }
}

/// What the word asks for.
fn question_in(word: &str) -> Option<Question>
    ensures { result ≡ question_in word.now }
{
    match word {
        "--help" => Some(Question::Help),
        "--version" => Some(Question::Version),
        _ => None,
    }
}
