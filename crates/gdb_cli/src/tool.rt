//! From words and an input to a core file, a report and a way to end.
ghost use Rattle.std.specs.Prelude.{◌≡◌, ◌⊎◌, ℕ, List, Some, map, string_bytes};
ghost use Rattle.rtr_cli.specs.Answers.{Tells};
ghost use Rattle.rtr_cli.specs.Inputs.{most_of};
ghost use Rattle.rtr_cli.specs.Completeness.{Accepts, EndsWell, HasLeft, IsFaultless};
ghost use Rattle.rtr_io.specs.Faults.{HasRisen};
ghost use Rattle.state_text.specs.Exits.{fault_line};
ghost use Rattle.gdb_cli.specs.Answers.{Answers, AnswersWords};
ghost use Rattle.gdb_cli.specs.Cores.{printed_by};
ghost use Rattle.gdb_cli.specs.Words.{moment_in};
ghost use Rattle.gdb_cli.specs.declared.words.Moment.{Moment};

use crate::cores::core_of;
use crate::recordings::FILE_BYTES_MAX;
use crate::words::{Moment, moment_in};
use rtr_cli::tell;
use rtr_io::{ReadEnd, Sink, Source, WriteFault, read_all, write_all};
use state_text::Exit;
use std::alloc::{AllocError, Global};

/// Does what the words ask for, and tells the report how it ended. `words` leaves out the program's name.
///
/// At `Done` the output got the core file of the state at the moment, as a debugger opens it: the state that `rtr at`
/// prints for the same words, at the least closed cut that has the instruction, or with `--latest` the greatest one
/// that doesn't. Core C is thread C + 1, and the instruction's core stands first. Everything else ends just as `rtr at`
/// ends: each refusal comes where it comes there, and has its text.
///
/// Words that ask for nothing end at `Usage`, unless memory runs out, and then neither input nor output is touched. The
/// whole file is made before a byte is given, so every refusal but `WriteFault` has given nothing.
pub fn write_core<I: Source, O: Sink, E: Sink>(
    alloc: Global,
    words: &[String],
    input: &mut I,
    output: &mut O,
    report: &mut E,
) -> Exit
    ensures answered { AnswersWords (moment_in (map string_bytes words.now)) result (I.left input.old)
        (I.left input.new) (O.got output.old) (O.got output.new) }

    // Faults of the input and the output are told apart by their counts.
    ensures read_fault { result ≡ Exit.ReadFault → HasRisen (I.faults input.old) (I.faults input.new) }
    ensures no_read_fault { (result ≡ Exit.ReadFault) ⊎ (I.faults input.new ≡ I.faults input.old) }
    ensures write_fault { result ≡ Exit.WriteFault → HasRisen (O.faults output.old) (O.faults output.new) }
    ensures no_write_fault { (result ≡ Exit.WriteFault) ⊎ (O.faults output.new ≡ O.faults output.old) }

    // Of a recording that `rtr at` accepts it makes a core file, unless memory runs out or a stream fails.
    ensures complete { (moment : Moment) (bytes : List ℕ) → moment_in (map string_bytes words.now) ≡ Some moment →
        HasLeft (most_of (printed_by moment)) (I.left input.old) bytes → Accepts (printed_by moment) bytes →
        IsFaultless (I.faults input.old) (I.faults input.new) →
        IsFaultless (O.faults output.old) (O.faults output.new) → EndsWell result }

    ensures told { Tells (fault_line result) (E.got report.old) (E.got report.new) (E.faults report.old)
        (E.faults report.new) }
{
    let exit = match moment_in(alloc, words) {
        Ok(Some(moment)) => give_core(alloc, moment, input, output),
        Ok(None) => Exit::Usage,
        Err(AllocError) => Exit::OutOfMemory,
    };
    tell(report, &exit);
    exit
}

/// Reads the recording, makes the core file of the moment, and gives it.
fn give_core<I: Source, O: Sink>(
    alloc: Global,
    moment: Moment,
    input: &mut I,
    output: &mut O,
) -> Exit
    ensures answered { Answers moment result (I.left input.old) (I.left input.new) (O.got output.old)
        (O.got output.new) }
    ensures read_fault { result ≡ Exit.ReadFault → HasRisen (I.faults input.old) (I.faults input.new) }
    ensures no_read_fault { (result ≡ Exit.ReadFault) ⊎ (I.faults input.new ≡ I.faults input.old) }
    ensures write_fault { result ≡ Exit.WriteFault → HasRisen (O.faults output.old) (O.faults output.new) }
    ensures no_write_fault { (result ≡ Exit.WriteFault) ⊎ (O.faults output.new ≡ O.faults output.old) }
    ensures complete { (bytes : List ℕ) → HasLeft (most_of (printed_by moment)) (I.left input.old) bytes →
        Accepts (printed_by moment) bytes → IsFaultless (I.faults input.old) (I.faults input.new) →
        IsFaultless (O.faults output.old) (O.faults output.new) → EndsWell result }
{
    let bytes = match read_all(alloc, input, FILE_BYTES_MAX) {
        Ok(bytes) => bytes,
        Err(ReadEnd::ReadFault) => return Exit::ReadFault,
        Err(ReadEnd::TooLarge) => return Exit::TooLarge,
        Err(ReadEnd::OutOfMemory) => return Exit::OutOfMemory,
    };
    let file = match core_of(alloc, bytes, moment) {
        Ok(file) => file,
        Err(exit) => return exit,
    };
    match write_all(output, file.as_slice()) {
        Ok(()) => Exit::Done,
        Err(WriteFault) => Exit::WriteFault,
    }
}
