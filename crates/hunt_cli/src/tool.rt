//! The top call.
ghost use Rattle.std.specs.Prelude.{◌≡◌, ◌*◌, ◌<◌, ◌≤◌, ◌⊎◌, ℕ, List, IfErr, IfOk, None, Ok, OnOk, Some, map};
ghost use Rattle.std.specs.Prelude.{string_bytes, vec_len};
ghost use Rattle.std.specs.Io.KnownBytes.{Keeps};
ghost use Rattle.state_text.specs.Exits.{fault_line};
ghost use Rattle.rtr_io.specs.Faults.{HasRisen};
ghost use Rattle.state_text.specs.declared.exit.Exit.TheVariants.{Usage};
ghost use Rattle.rtr_cli.specs.Answers.{IsRead, Tells};
ghost use Rattle.rtr_cli.specs.Inputs.{loaded};
ghost use Rattle.hunt_words.specs.Meaning.{meaning};
ghost use Rattle.hunt_words.specs.declared.hunt.Hunt.{Hunt};
ghost use Rattle.hunt_cli.specs.Answers.{GivesWhole, HuntAnswers, IsGiven, IsIdle, IsRefused, TellsFaults};
ghost use Rattle.hunt_cli.specs.declared.exits.HuntExit.TheVariants.{As};
ghost use Rattle.rtr_types.specs.Parameters.{Fits};
ghost use Rattle.hunt_words.specs.Fitting.{AreFewThreads, IsFitting};
ghost use Rattle.hunt_cli.specs.Finds.{Finds, FindsOn};
ghost use Rattle.hunt_cli.specs.Inputs.{as_run, bytes_max, setup_in};
ghost use Rattle.hunt_cli.specs.Kinds.{kind_with, setting_on};

use crate::exits::{Answer, HuntExit};
use crate::firsts::{FirstOf, first_of};
use crate::images::{bytes_max, loaded};
use crate::records::{recording_answer, words_answer};
use crate::smalls::{SmallOf, small_of};
use crate::tables::{TableOf, table_of};
use access_times::{NoCarry, NoRider};
use hunt_runs::{FlatRun, HuntedMachine};
use hunt_words::{Hunt, Runs, Setup, meaning};
use rtr_cli::tell;
use rtr_io::{ReadEnd, Sink, Source, WriteFault, read_all, write_all};
use run_ranges::Pace;
use state_text::Exit;
use std::alloc::{AllocError, Global};
use std::thread::{Threads, available_parallelism};
use tso_core::BufferedMachine;

/// Does what the words ask for: reads the input to its end, makes the runs, gives the output, and tells the report how
/// it ended. `words` leaves out the program's name.
///
/// At `Breaks` of `first` the run that is named is the first of the range that breaks the demand, and at `Done` none of
/// it does. The run is told in turns, unless it is asked for as it is, or is one by a seed whose accesses, as turns,
/// don't break the demand: the turns break the demand and are least in steps. At `Done` and `Breaks` of
/// `table` each row counts the runs of the range that end so, and names the least of them. At `Whole` the run that was
/// given doesn't break the demand. The line for `rtr` records just the run that is shown (`lines_mean_their_runs` of
/// `hunt_words`), and what `record` gives is what `rtr` gives by that line. The whole output is made before a byte is
/// given. Nothing of it rests on the pace at which a range's runs are made.
///
/// `Usage` comes only where the words ask for nothing, and then neither input nor output is touched. The other exits
/// come as in `rtr`: `TooLarge` where the input has more bytes than the memory, or an ELF file more than one may have,
/// `Elf` with the first fault of such a file, `ReadFault` and `WriteFault` by the streams, and `OutOfMemory` for want
/// of memory.
pub fn run_hunt<R: Threads + Sync, P: Pace, I: Source, O: Sink, E: Sink>(
    rt: &R,
    alloc: Global,
    pace: &mut P,
    words: &[String],
    input: &mut I,
    output: &mut O,
    report: &mut E,
) -> HuntExit
    ensures usage { result ≡ As Usage → meaning (map string_bytes words.now) ≡ None }
    ensures idle { meaning (map string_bytes words.now) ≡ None → IsIdle result (record {
      left = I.left input.old;
      left' = I.left input.new;
      got = O.got output.old;
      got' = O.got output.new;
      told = E.got report.old;
      told' = E.got report.new;
      faults = E.faults report.old;
      faults' = E.faults report.new;
    }) }
    ensures answered { (hunt : Hunt) → meaning (map string_bytes words.now) ≡ Some hunt → HuntAnswers hunt result
        (record {
          left = I.left input.old;
          left' = I.left input.new;
          got = O.got output.old;
          got' = O.got output.new;
          told = E.got report.old;
          told' = E.got report.new;
          faults = E.faults report.old;
          faults' = E.faults report.new;
        }) }

    // Faults of the input and the output are told apart by their counts.
    ensures faults { TellsFaults result (I.faults input.old) (I.faults input.new) (O.faults output.old)
        (O.faults output.new) }

    // Of an image all that is found is given, unless memory runs out or a stream fails.
    ensures complete { (hunt : Hunt) (given bytes : List ℕ) → meaning (map string_bytes words.now) ≡ Some hunt →
        GivesWhole hunt given bytes result (I.left input.old) (I.faults input.old) (I.faults input.new)
        (O.faults output.old) (O.faults output.new) }
{
    match meaning(alloc, words) {
        Ok(Some(hunt)) => hunted(rt, alloc, pace, &hunt, input, output, report),
        Ok(None) => ends_as(report, Exit::Usage),
        Err(AllocError) => ends_as(report, Exit::OutOfMemory),
    }
}

/// Does what is asked for.
fn hunted<R: Threads + Sync, P: Pace, I: Source, O: Sink, E: Sink>(
    rt: &R,
    alloc: Global,
    pace: &mut P,
    hunt: &Hunt,
    input: &mut I,
    output: &mut O,
    report: &mut E,
) -> HuntExit
    requires { IsFitting hunt.now }
    ensures answered { HuntAnswers hunt.now result (record {
      left = I.left input.old;
      left' = I.left input.new;
      got = O.got output.old;
      got' = O.got output.new;
      told = E.got report.old;
      told' = E.got report.new;
      faults = E.faults report.old;
      faults' = E.faults report.new;
    }) }
    ensures faults { TellsFaults result (I.faults input.old) (I.faults input.new) (O.faults output.old)
        (O.faults output.new) }
    ensures complete { (given bytes : List ℕ) → GivesWhole hunt.now given bytes result (I.left input.old)
        (I.faults input.old) (I.faults input.new) (O.faults output.old) (O.faults output.new) }
{
    let bytes = match taken(alloc, &setup_in(hunt), input) {
        Ok(bytes) => bytes,
        Err(exit) => return ends_as(report, exit),
    };
    match answer(rt, alloc, pace, hunt, bytes) {
        Ok(answer) => give(output, report, &answer),
        Err(AllocError) => ends_as(report, Exit::OutOfMemory),
    }
}

/// Tells the report that a hunt ends as a command of `rtr`.
pub(crate) fn ends_as<E: Sink>(report: &mut E, exit: Exit) -> HuntExit
    ensures exit { result ≡ As exit }
    ensures told { Tells (fault_line exit) (E.got report.old) (E.got report.new) (E.faults report.old)
        (E.faults report.new) }
{
    tell(report, &exit);
    HuntExit::As(exit)
}

/// Gives the output, and tells the report what was found.
fn give<O: Sink, E: Sink>(output: &mut O, report: &mut E, answer: &Answer) -> HuntExit
    ensures given { IsGiven answer.now.exit answer.now.out.items (string_bytes answer.now.report) result
        (O.got output.old) (O.got output.new) (E.got report.old) (E.got report.new) (E.faults report.old)
        (E.faults report.new) }
    ensures faults { ((result ≡ answer.now.exit) × (O.faults output.new ≡ O.faults output.old))
        ⊎ ((result ≡ As Exit.WriteFault) × HasRisen (O.faults output.old) (O.faults output.new)) }
{
    match write_all(output, answer.out.as_slice()) {
        Ok(()) => {
            // a fault of the report is told nobody
            let _ = write_all(report, answer.report.as_bytes());
            answer.exit
        }
        Err(WriteFault) => ends_as(report, Exit::WriteFault),
    }
}

/// The machine that a hunt's runs are made on.
fn setup_in(hunt: &Hunt) -> Setup
    ensures { result ≡ setup_in hunt.now }
{
    match hunt {
        Hunt::First { setup, .. }
        | Hunt::Table { setup, .. }
        | Hunt::Small { setup, .. }
        | Hunt::Words { setup, .. }
        | Hunt::Record { setup, .. } => *setup,
    }
}

/// The bytes of the image on the input.
fn taken<I: Source>(alloc: Global, setup: &Setup, input: &mut I) -> Result<Vec<u8>, Exit>
    requires { Fits setup.now.params }
    ensures found { IfOk result (λ bytes. (taken : List ℕ)
        × IsRead (bytes_max setup.now) (I.left input.old) (I.left input.new) taken
        × (loaded (as_run setup.now) taken ≡ Ok bytes.items)) }
    ensures refused { IfErr result (λ exit. IsRefused setup.now exit (I.left input.old) (I.left input.new)) }
    ensures room { IfOk result (λ bytes. vec_len bytes ≤ 4 * setup.now.params.words) }
    ensures fault { IfErr result (λ exit. exit ≡ Exit.ReadFault → HasRisen (I.faults input.old) (I.faults input.new)) }
    ensures other { IfErr result (λ exit. (exit ≡ Exit.ReadFault) ⊎ (I.faults input.new ≡ I.faults input.old)) }
    ensures no_fault { OnOk result (I.faults input.new ≡ I.faults input.old) }
{
    match read_all(alloc, input, bytes_max(setup)) {
        Ok(bytes) => loaded(alloc, setup, bytes),
        Err(ReadEnd::ReadFault) => Err(Exit::ReadFault),
        Err(ReadEnd::TooLarge) => Err(Exit::TooLarge),
        Err(ReadEnd::OutOfMemory) => Err(Exit::OutOfMemory),
    }
}

/// What the hunt finds of the image of these bytes.
fn answer<R: Threads + Sync, P: Pace>(
    rt: &R,
    alloc: Global,
    pace: &mut P,
    hunt: &Hunt,
    bytes: Vec<u8>,
) -> Result<Answer, AllocError>
    requires fits { IsFitting hunt.now }
    requires room { vec_len bytes ≤ 4 * (setup_in hunt.now).params.words }
    ensures { IfOk result (λ a. Finds hunt.now bytes.items a.out.items (string_bytes a.report) a.exit) }
{
    if setup_in(hunt).tso {
        answer_on::<BufferedMachine<NoRider, NoCarry>, R, P>(rt, alloc, pace, hunt, bytes)
    } else {
        answer_on::<FlatRun, R, P>(rt, alloc, pace, hunt, bytes)
    }
}

/// What the hunt finds of the image of these bytes on this kind of machine.
fn answer_on<M: HuntedMachine + Sync, R: Threads + Sync, P: Pace>(
    rt: &R,
    alloc: Global,
    pace: &mut P,
    hunt: &Hunt,
    bytes: Vec<u8>,
) -> Result<Answer, AllocError>
    requires fits { IsFitting hunt.now }
    requires room { vec_len bytes ≤ 4 * (setup_in hunt.now).params.words }
    ensures { IfOk result (λ a. FindsOn (setting_on (kind_with M.seen_at M.changes_at M.outcome M.most_steps M.buffers)
        (setup_in hunt.now).params bytes.items) hunt.now bytes.items a.out.items (string_bytes a.report) a.exit) }
{
    match hunt {
        Hunt::First {
            setup,
            runs,
            demand,
            plain,
        } => {
            let asked = FirstOf {
                bytes: bytes.as_slice(),
                setup: *setup,
                runs: *runs,
                demand,
                plain: *plain,
            };
            first_of::<M, R, P>(rt, alloc, pace, asked, threads_of(rt, runs))
        }
        Hunt::Table {
            setup,
            runs,
            places,
            demand,
        } => {
            let asked = TableOf {
                bytes: bytes.as_slice(),
                setup: *setup,
                runs: *runs,
                places: places.as_slice(),
                demand: demand.as_ref(),
            };
            table_of::<M, R, P>(rt, alloc, pace, asked, threads_of(rt, runs))
        }
        Hunt::Small { setup, run, demand } => {
            let asked = SmallOf {
                bytes: bytes.as_slice(),
                setup: *setup,
                demand,
                first: &[],
            };
            small_of::<M>(alloc, asked, run)
        }
        Hunt::Words { setup, run } => words_answer::<M>(alloc, bytes.as_slice(), setup, run),
        Hunt::Record { setup, run } => recording_answer::<M>(alloc, bytes, setup, run),
    }
}

/// How many threads make the runs: as many as are asked for, else as there are processors.
fn threads_of<R: Threads + Sync>(rt: &R, runs: &Runs) -> usize
    requires { AreFewThreads runs.now.threads }
    ensures { 0 < result }
{
    match runs.threads {
        Some(threads) => threads as usize,
        None => match available_parallelism(rt) {
            Ok(count) => count.get(),
            Err(_) => 1,
        },
    }
}
