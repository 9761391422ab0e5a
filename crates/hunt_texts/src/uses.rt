//! How each verb is used, in a line.
ghost use Rattle.std.specs.Prelude.{◌≡◌};
ghost use Rattle.hunt_texts.specs.Uses.{table, use_line};

use hunt_words::Verb;

/// The verb's line of use: its own options, those that it may lack in brackets, and one line feed; and the line of the
/// options that each verb takes.
pub(crate) fn use_line(verb: Verb) -> &'static str
    ensures { result.now ≡ use_line verb }
{
    match verb {
        Verb::First =>
            "rtr_hunt first [--runs A..B] [--by P] [--threads N] [--plain] --expect C|--never C|--same PLACES <IMAGE
Each takes [--cores N] [--limit N] [--words N] [--elf|--tso] too. The manual is docs/FORMATS.md.
",
        Verb::Table =>
            "rtr_hunt table [--runs A..B] [--by P] [--threads N] [--see PLACES] [--expect C|--never C] <IMAGE
Each takes [--cores N] [--limit N] [--words N] [--elf|--tso] too. The manual is docs/FORMATS.md.
",
        Verb::Small => "rtr_hunt small --run N [--by P]|--turns T --expect C|--never C <IMAGE
Each takes [--cores N] [--limit N] [--words N] [--elf|--tso] too. The manual is docs/FORMATS.md.
",
        Verb::Words => "rtr_hunt words --run N [--by P]|--turns T <IMAGE
Each takes [--cores N] [--limit N] [--words N] [--elf|--tso] too. The manual is docs/FORMATS.md.
",
        Verb::Record => "rtr_hunt record --run N [--by P]|--turns T <IMAGE >RECORDING
Each takes [--cores N] [--limit N] [--words N] [--elf|--tso] too. The manual is docs/FORMATS.md.
",
    }
}

/// The lines of use of all verbs, and where the manual is.
pub fn table() -> &'static str
    ensures { result.now ≡ table }
{
    "rtr_hunt first [--runs A..B] [--by P] [--threads N] [--plain] --expect C|--never C|--same PLACES <IMAGE
rtr_hunt table [--runs A..B] [--by P] [--threads N] [--see PLACES] [--expect C|--never C] <IMAGE
rtr_hunt small --run N [--by P]|--turns T --expect C|--never C <IMAGE
rtr_hunt words --run N [--by P]|--turns T <IMAGE
rtr_hunt record --run N [--by P]|--turns T <IMAGE >RECORDING
rtr_hunt --help
rtr_hunt --version
Each takes [--cores N] [--limit N] [--words N] [--elf|--tso] too. The manual is docs/FORMATS.md.
"
}
