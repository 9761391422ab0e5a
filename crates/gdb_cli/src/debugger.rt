//! From words to a core file or a session, and a report.
ghost use Rattle.std.specs.Prelude.{map, string_bytes};
ghost use Rattle.std.specs.Fn.{FnOnceReturnsAt};
ghost use Rattle.rtr_cli.specs.Answers.{Tells};
ghost use Rattle.state_text.specs.Exits.{fault_line};
ghost use Rattle.gdb_cli.specs.Answers.{IsAnswerIn, IsSessionIn};
ghost use Rattle.gdb_cli.specs.Words.{session_log};

use crate::sessions::debug;
use crate::tool::write_core;
use crate::words::{file_name, session_log};
use gdb_server::Streams;
use rtr_cli::tell;
use rtr_io::{Sink, Source};
use rtr_types::Which;
use state_text::Exit;
use std::alloc::{AllocError, Global};

/// Does what the words ask for, and tells the report how it ended: a session on the recording of a file, as `debug` has
/// it, or else a core file, as `write_core` has it. `words` leaves out the program's name. `opener` makes a source of
/// the file with a name; where that can't be opened, a source that fails.
pub fn run_debugger<F: Source + Drop, P: FnOnce(&str) -> F, I: Source, O: Sink, E: Sink>(
    alloc: Global,
    words: &[String],
    opener: P,
    streams: &mut Streams<I, O>,
    report: &mut E,
) -> Exit
    requires { P.IsAlwaysCallable opener }
    ensures answered { IsAnswerIn (FnOnceReturnsAt P.FnOnce opener) F.left F.faults (map string_bytes words.now)
        (session_log (map string_bytes words.now)) result (I.left streams.old.input) (I.left streams.new.input)
        (O.got streams.old.output) (O.got streams.new.output) (I.faults streams.old.input) (I.faults streams.new.input)
        (O.faults streams.old.output) (O.faults streams.new.output) }
    ensures told { Tells (fault_line result) (E.got report.old) (E.got report.new) (E.faults report.old)
        (E.faults report.new) }
{
    let exit = match session_log(alloc, words) {
        Ok(Some(which)) => debug_file(alloc, which, file_name(words), opener, streams),
        Ok(None) => {
            return write_core(
                alloc,
                words,
                &mut streams.input,
                &mut streams.output,
                report,
            );
        }
        Err(AllocError) => Exit::OutOfMemory,
    };
    tell(report, &exit);
    exit
}

/// Opens the file with this name, and holds a session on its recording.
fn debug_file<F: Source + Drop, P: FnOnce(&str) -> F, I: Source, O: Sink>(
    alloc: Global,
    which: Which,
    name: &str,
    opener: P,
    streams: &mut Streams<I, O>,
) -> Exit
    requires { P.IsAlwaysCallable opener }
    ensures { (file : F) × FnOnceReturnsAt P.FnOnce opener name.now file
        × IsSessionIn F.left F.faults which result file (I.left streams.old.input) (I.left streams.new.input)
        (O.got streams.old.output) (O.got streams.new.output) (I.faults streams.old.input) (I.faults streams.new.input)
        (O.faults streams.old.output) (O.faults streams.new.output) }
{
    let mut file = opener(name);
    debug(alloc, which, &mut file, streams)
}
