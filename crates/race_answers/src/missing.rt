//! What isn't there.
ghost use Rattle.std.specs.Prelude.{◌≡◌, IfOk};
ghost use Rattle.race_answers.specs.Missing.{no_instr_text};

use gdb_commands::{Told, bytes_of};
use rtr_types::Instr;
use std::alloc::Global;

/// That the recording hasn't this instruction. It is refused for want of memory alone.
pub fn no_instr(alloc: Global, at: Instr) -> Told
    ensures { IfOk result (λ text. text ≡ no_instr_text at) }
{
    let core = at.core;
    let count = at.count;
    let mut text = String::new(alloc);
    writeln!(text, "rtr_gdb: no instruction {core}:{count}")?;
    Ok(bytes_of(text))
}
