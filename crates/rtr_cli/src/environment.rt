//! The words of the command line.
ghost use Rattle.std.specs.Prelude.{◌≡◌, ◌≢◌, ◌↔◌, ◌⊎◌, IfErr, IfOk, IsErrAnd, IsErrOf, IsOkAnd, drop};
ghost use Rattle.std.specs.IoError.{error_kind};
ghost use Rattle.std.specs.Vec.Iter.{into_iter_items};
ghost use Rattle.std.specs.declared.io.ErrorKind.TheVariants.{OutOfMemory as NoMemory};

use state_text::Exit;
use std::alloc::Global;
use std::env::{self, Args};
use std::io;
use std::rt::Env;

/// The words after the program's name. Where one isn't UTF-8 the command line is a faulty one, and the exit is `Usage`;
/// for want of memory it is `OutOfMemory`.
pub fn arguments<R: Env + AllocGlobal>(rt: &R) -> Result<Vec<String>, Exit> {
    words_of(rt.alloc(), env::args(rt))
}

/// The words after the first, which is the program's name, of those that the process was given; or the exit where they
/// couldn't be had: `OutOfMemory` for want of memory, and else `Usage`, since one is no text then.
pub fn words_of(alloc: Global, given: io::Result<Args>) -> Result<Vec<String>, Exit>
    ensures words { IfOk result (λ words. IsOkAnd given (λ all. words.items ≡ drop 1 (into_iter_items all))) }
    ensures usage { IsErrOf result Exit.Usage ↔ IsErrAnd given (λ error. error_kind error ≢ NoMemory) }
    ensures others { IfErr result (λ exit. (exit ≡ Exit.Usage) ⊎ (exit ≡ Exit.OutOfMemory)) }
{
    let all = match given {
        Ok(all) => all,
        Err(error) if error.kind() == io::ErrorKind::OutOfMemory => return Err(Exit::OutOfMemory),
        Err(_) => return Err(Exit::Usage),
    };
    match all.skip(1).collect(alloc) {
        Ok(words) => Ok(words),
        Err(_) => Err(Exit::OutOfMemory),
    }
}
