//! How each command is used, in a line.
ghost use Rattle.std.specs.Prelude.{◌≡◌};
ghost use Rattle.command_line.specs.Uses.{table, use_line};

use tool_words::Verb;

/// The command's line of use: its name and the options that it takes, those that it may lack in brackets, and one line
/// feed.
pub fn use_line(verb: Verb) -> &'static str
    ensures { result.now ≡ use_line verb }
{
    match verb {
        Verb::Record =>
            "rtr record [--cores N] [--limit N] [--words N] [--choices HEX] [--seed N] [--elf]\n",
        Verb::Run =>
            "rtr run [--cores N] [--limit N] [--words N] [--choices HEX] [--seed N] [--elf] [--loads]\n",
        Verb::Print => "rtr print\n",
        Verb::Replay => "rtr replay [--log reduced|regulated] [--threads N] [--loads]\n",
        Verb::Migrate => "rtr migrate\n",
        Verb::Certify => "rtr certify\n",
        Verb::Check => "rtr check\n",
        Verb::Gen => "rtr gen --shape mix|lock --number N\n",
        Verb::Soak =>
            "rtr soak --shape mix|lock --number N [--cores N] [--limit N] [--words N] [--seed N]\n",
        Verb::At => "rtr at --core N --count N [--log reduced|regulated] [--latest] [--loads]\n",
        Verb::Thin => "rtr thin [--certify]\n",
        Verb::CheckThin => "rtr checkthin\n",
        Verb::TsoRecord =>
            "rtr tsorecord [--cores N] [--limit N] [--words N] [--choices HEX] [--seed N]\n",
        Verb::TsoRun =>
            "rtr tsorun [--cores N] [--limit N] [--words N] [--choices HEX] [--seed N] [--loads]\n",
        Verb::TsoReplay => "rtr tsoreplay [--loads]\n",
    }
}

/// The lines of use of all commands, and where the manual is.
pub fn table() -> &'static str
    ensures { result.now ≡ table }
{
    "rtr record [--cores N] [--limit N] [--words N] [--choices HEX] [--seed N] [--elf]
rtr run [--cores N] [--limit N] [--words N] [--choices HEX] [--seed N] [--elf] [--loads]
rtr print
rtr replay [--log reduced|regulated] [--threads N] [--loads]
rtr at --core N --count N [--log reduced|regulated] [--latest] [--loads]
rtr thin [--certify]
rtr checkthin
rtr migrate
rtr certify
rtr check
rtr gen --shape mix|lock --number N
rtr soak --shape mix|lock --number N [--cores N] [--limit N] [--words N] [--seed N]
rtr tsorecord [--cores N] [--limit N] [--words N] [--choices HEX] [--seed N]
rtr tsorun [--cores N] [--limit N] [--words N] [--choices HEX] [--seed N] [--loads]
rtr tsoreplay [--loads]
The manual is docs/FORMATS.md, and README.md says how to begin.
"
}
