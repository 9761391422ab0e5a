//! The top call.
ghost use Rattle.std.specs.Prelude.{◌≡◌, ◌≢◌, ◌↔◌, ◌≤◌, ◌⊎◌, ℕ, IfNone, IfOk, IfSome, IsErrOf, List, None, Some, map};
ghost use Rattle.std.specs.Prelude.{string_bytes};
ghost use Rattle.std.specs.Io.KnownBytes.{Keeps};
ghost use Rattle.rtr_io.specs.Faults.{HasRisen, IsUnlessFault};
ghost use Rattle.state_text.specs.Exits.{fault_line};
ghost use Rattle.tool_words.specs.Commands.{HasFittingParams};
ghost use Rattle.tool_words.specs.Reading.{meaning};
ghost use Rattle.rtr_cli.specs.Answers.{Answers, HasMore, IsTaken, IsTakenUpTo, LeavesUntaken, Tells, one_more};
ghost use Rattle.rtr_cli.specs.Inputs.{most_of};
ghost use Rattle.rtr_cli.specs.Completeness.{MakesWhole};
ghost use Rattle.rtr_cli.specs.Joints.{PrintsSome, asked_by};
ghost use Rattle.rtr_cli.specs.declared.joint.Asked.{Asked};
ghost use Rattle.tool_words.specs.declared.command.Command.{Command};

use crate::commands::{make, most_of};
use crate::joint::{Asked, Ended, perform_joint};
use replay_threads::Gate;
use rtr_io::{ReadEnd, Sink, Source, WriteFault, read_all, write_all};
use state_text::{Exit, fault_text};
use std::alloc::{AllocError, Global};
use std::sync::Wait;
use std::thread::Threads;
use tool_words::{Command, meaning, what_words_mean_fits};

/// Does what the words mean: reads the input to its end, gives the output, and tells the report how it
/// ended. `words` leaves out the program's name.
///
/// At `Done` of `record`, for every image, number of cores, limit and schedule: the recording's reduced log is
/// the least set of conflict edges that with program order implies the order of every two accesses that
/// conflict in the run, the regulated log implies it, and every order that obeys either log gives each load
/// the run's value and the run's final memory, and is never stuck (`KeepsRun` among what is promised). At `Done`
/// of `tsorecord` the same is promised of the accesses that the run of cores with store buffers ordered, by its
/// reduced log (`KeepsTsoRun`). What `run` and `tsorun` print is taken where the run ended, and a soak's recording keeps
/// its run as that of `record` does. At `Done` of `tsoreplay` the low order of that log is whole and plays with the logged
/// words; whether the log orders all conflicts isn't asked (`IsTsoReplayed`).
///
/// `Usage` comes exactly where the words mean nothing, and then neither input nor output is touched.
/// `gen` and `soak` take no input, and leave it as it was. `TooLarge` comes exactly where the input has more bytes
/// than the command takes, or in `soak` where the image has more than the memory. `Elf` comes exactly where the words
/// have `--elf`, the input was read to its end, and it is no ELF file with a flat image for the memory, with its
/// first fault; `record` and `run` do with such a file what they do without the flag with its flat image. `Bad` comes
/// exactly where the input was read to its end and has no reading, with the first part that has none. `NoInstr` comes
/// in `at` alone, exactly where the recording doesn't have the instruction that the words name, whatever an audit
/// would answer. `Stuck` and `Short` come in `replay`, `certify`, `check`, `at`, `thin`, `checkthin` and `tsoreplay`
/// alone, and `Undetermined` in these but `tsoreplay`, exactly where the input spells a recording, or a certificate or
/// a thin file of one, which has the instruction in `at`, and by the chosen log its low order ends before it is whole,
/// falls short, or has two accesses unordered that conflict; `certify`, `check` and `tsoreplay` go by the reduced log,
/// `tsoreplay` with the logged words, and `thin` and `checkthin` by the regulated one. `CheckFailed` comes in
/// `certify` and `check` alone, where that isn't so: in `certify` exactly where the reduced log isn't least, and in
/// `check` exactly where the certificate doesn't show it, with the first thing that fails.
/// Likewise `TooMany` comes in `thin` alone, exactly where there are more vectors or more edges of them than are tried,
/// and `NotShown` in `checkthin` alone, exactly where a vector isn't shown to be needed, with the first such.
/// `ReadFault` and `WriteFault` come only where the count of faults of the input or the output rose in this
/// call, and `OutOfMemory` for want of memory alone. At `ReadFault` at most the bytes were taken that the command
/// takes, and at `OutOfMemory` at most one more. The whole output is made before a byte is given, so
/// every refusal but `WriteFault` has given nothing. The report gets the exit's text, which is empty for
/// `Done`; its faults change no exit.
///
/// `replay` with `--threads` is done by workers, whose instructions pass the gate one by one; no replay and no audit
/// comes before. What it prints and how it ends is the same as without. The answer then has the table that the
/// workers shared, closed. There the call may wait, for its workers alone, and what it promises holds if it returns.
#[tactic(auto, using(crate::proofs::RefusalLemmas::none_taken))]
pub fn run_tool<R: Threads + Wait + Sync, I: Source, O: Sink, E: Sink, G: Gate>(
    rt: &R,
    alloc: Global,
    words: &[String],
    input: &mut I,
    output: &mut O,
    report: &mut E,
    gate: &G,
) -> Ended
    ensures usage { (result.exit ≡ Exit.Usage) ↔ (meaning (map string_bytes words.now) ≡ None) }
    ensures untouched { result.exit ≡ Exit.Usage → Keeps (I.left input.old) (I.left input.new)
        × Keeps (O.got output.old) (O.got output.new) }
    ensures answered { (command : Command) → meaning (map string_bytes words.now) ≡ Some command →
        Answers command result.exit (I.left input.old) (I.left input.new) (O.got output.old) (O.got output.new) }

    // Faults of the input and the output are told apart by their counts.
    ensures read_fault { result.exit ≡ Exit.ReadFault → HasRisen (I.faults input.old) (I.faults input.new) }
    ensures no_read_fault { (result.exit ≡ Exit.ReadFault) ⊎ (I.faults input.new ≡ I.faults input.old) }
    ensures write_fault { result.exit ≡ Exit.WriteFault → HasRisen (O.faults output.old) (O.faults output.new) }
    ensures no_write_fault { (result.exit ≡ Exit.WriteFault) ⊎ (O.faults output.new ≡ O.faults output.old) }

    // A command that takes no input leaves it as it was.
    ensures untaken { (command : Command) → meaning (map string_bytes words.now) ≡ Some command →
        LeavesUntaken (most_of command) (I.left input.old) (I.left input.new) (I.faults input.old)
        (I.faults input.new) }

    // Of what it accepts a command makes its whole output, unless memory runs out or a stream fails.
    ensures complete { (command : Command) (bytes : List ℕ) → meaning (map string_bytes words.now) ≡ Some command →
        MakesWhole command bytes result.exit (I.left input.old) (I.faults input.old) (I.faults input.new)
        (O.faults output.old) (O.faults output.new) }

    ensures told { Tells (fault_line result.exit) (E.got report.old) (E.got report.new) (E.faults report.old)
        (E.faults report.new) }

    // A closed table comes exactly where words with `--threads` end at Done, whose output has what it comes to.
    ensures joint { (asked : Asked) → asked_by (meaning (map string_bytes words.now)) ≡ Some asked →
        IfNone result.joint (result.exit ≢ Exit.Done) }
    ensures unasked { asked_by (meaning (map string_bytes words.now)) ≡ None → result.joint ≡ None }
    ensures closed { IfSome result.joint (λ closed. (result.exit ≡ Exit.Done) × PrintsSome
        (asked_by (meaning (map string_bytes words.now))) closed (I.left input.old) (I.left input.new)
        (O.got output.old) (O.got output.new)) }
{
    what_words_mean_fits();
    let meant = match meaning(alloc, words) {
        Ok(meant) => meant,
        Err(AllocError) => {
            tell(report, &Exit::OutOfMemory);
            return Ended {
                exit: Exit::OutOfMemory,
                joint: None,
            };
        }
    };
    match Asked::by(&meant) {
        Some(asked) => {
            let ended = perform_joint(rt, alloc, asked, input, output, gate);
            tell(report, &ended.exit);
            ended
        }
        None => Ended {
            exit: run_alone(alloc, words, input, output, report),
            joint: None,
        },
    }
}

/// Does what words without `--threads` mean, as `run_tool` does. It waits for nobody, and returns.
#[tactic(auto, using(crate::proofs::RefusalLemmas::none_taken))]
pub fn run_alone<I: Source, O: Sink, E: Sink>(
    alloc: Global,
    words: &[String],
    input: &mut I,
    output: &mut O,
    report: &mut E,
) -> Exit
    requires { asked_by (meaning (map string_bytes words.now)) ≡ None }
    ensures usage { (result ≡ Exit.Usage) ↔ (meaning (map string_bytes words.now) ≡ None) }
    ensures untouched { result ≡ Exit.Usage → Keeps (I.left input.old) (I.left input.new)
        × Keeps (O.got output.old) (O.got output.new) }
    ensures answered { (command : Command) → meaning (map string_bytes words.now) ≡ Some command →
        Answers command result (I.left input.old) (I.left input.new) (O.got output.old) (O.got output.new) }

    // Faults of the input and the output are told apart by their counts.
    ensures read_fault { result ≡ Exit.ReadFault → HasRisen (I.faults input.old) (I.faults input.new) }
    ensures no_read_fault { (result ≡ Exit.ReadFault) ⊎ (I.faults input.new ≡ I.faults input.old) }
    ensures write_fault { result ≡ Exit.WriteFault → HasRisen (O.faults output.old) (O.faults output.new) }
    ensures no_write_fault { (result ≡ Exit.WriteFault) ⊎ (O.faults output.new ≡ O.faults output.old) }

    // A command that takes no input leaves it as it was.
    ensures untaken { (command : Command) → meaning (map string_bytes words.now) ≡ Some command →
        LeavesUntaken (most_of command) (I.left input.old) (I.left input.new) (I.faults input.old)
        (I.faults input.new) }

    // Of what it accepts a command makes its whole output, unless memory runs out or a stream fails.
    ensures complete { (command : Command) (bytes : List ℕ) → meaning (map string_bytes words.now) ≡ Some command →
        MakesWhole command bytes result (I.left input.old) (I.faults input.old) (I.faults input.new)
        (O.faults output.old) (O.faults output.new) }

    ensures told { Tells (fault_line result) (E.got report.old) (E.got report.new) (E.faults report.old)
        (E.faults report.new) }
{
    what_words_mean_fits();
    let exit = match meaning(alloc, words) {
        Ok(Some(command)) => perform(alloc, command, input, output),
        Ok(None) => Exit::Usage,
        Err(AllocError) => Exit::OutOfMemory,
    };
    tell(report, &exit);
    exit
}

/// Reads the input, makes the whole output, and gives it.
fn perform<I: Source, O: Sink>(
    alloc: Global,
    command: Command,
    input: &mut I,
    output: &mut O,
) -> Exit
    requires { HasFittingParams command }
    ensures answered { Answers command result (I.left input.old) (I.left input.new) (O.got output.old)
        (O.got output.new) }
    ensures read_fault { result ≡ Exit.ReadFault → HasRisen (I.faults input.old) (I.faults input.new) }
    ensures no_read_fault { (result ≡ Exit.ReadFault) ⊎ (I.faults input.new ≡ I.faults input.old) }
    ensures write_fault { result ≡ Exit.WriteFault → HasRisen (O.faults output.old) (O.faults output.new) }
    ensures no_write_fault { (result ≡ Exit.WriteFault) ⊎ (O.faults output.new ≡ O.faults output.old) }
    ensures untaken { LeavesUntaken (most_of command) (I.left input.old) (I.left input.new) (I.faults input.old)
        (I.faults input.new) }
    ensures complete { (bytes : List ℕ) → MakesWhole command bytes result (I.left input.old) (I.faults input.old)
        (I.faults input.new) (O.faults output.old) (O.faults output.new) }
{
    let bytes = match take(alloc, most_of(&command), input) {
        Ok(bytes) => bytes,
        Err(ReadEnd::ReadFault) => return Exit::ReadFault,
        Err(ReadEnd::TooLarge) => return Exit::TooLarge,
        Err(ReadEnd::OutOfMemory) => return Exit::OutOfMemory,
    };
    let out = match make(alloc, command, bytes) {
        Ok(out) => out,
        Err(exit) => return exit,
    };
    match write_all(output, out.as_slice()) {
        Ok(()) => Exit::Done,
        Err(WriteFault) => Exit::WriteFault,
    }
}

/// The whole input, where at most so many bytes of it are taken; nothing is asked of it where none is taken.
pub(crate) fn take<I: Source>(
    alloc: Global,
    most: Option<usize>,
    input: &mut I,
) -> Result<Vec<u8>, ReadEnd>
    ensures bytes { IfOk result (λ bytes. IsTaken most (I.left input.old) (I.left input.new) bytes.items) }
    ensures too_large { IsErrOf result ReadEnd.TooLarge → HasMore most (I.left input.old) (I.left input.new) }
    ensures within { IsErrOf result ReadEnd.ReadFault → IsTakenUpTo most (I.left input.old) (I.left input.new) }
    ensures dropped { IsErrOf result ReadEnd.OutOfMemory →
        IsTakenUpTo (one_more most) (I.left input.old) (I.left input.new) }
    ensures fault { IsErrOf result ReadEnd.ReadFault → HasRisen (I.faults input.old) (I.faults input.new) }
    ensures no_fault { IsUnlessFault ReadEnd.ReadFault result (I.faults input.old) (I.faults input.new) }
    ensures untaken { LeavesUntaken most (I.left input.old) (I.left input.new) (I.faults input.old)
        (I.faults input.new) }
{
    match most {
        Some(most) => read_all(alloc, input, most),
        None => Ok(Vec::new(alloc)),
    }
}

/// Tells the report how a call ended: the exit's text, which is empty for `Done`. A fault of the report is told nobody.
pub fn tell<E: Sink>(report: &mut E, exit: &Exit)
    ensures { Tells (fault_line exit.now) (E.got report.old) (E.got report.new) (E.faults report.old)
        (E.faults report.new) }
{
    match write_all(report, fault_text(exit).bytes()) {
        Ok(()) | Err(WriteFault) => {}
    }
}
