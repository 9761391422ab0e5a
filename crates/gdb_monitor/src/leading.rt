//! The core that leads.
ghost use Rattle.std.specs.Prelude.{◌≡◌, IfOk};
ghost use Rattle.gdb_monitor.specs.Leading.{can_lead, lead_text, lead_told};

use crate::texts::no_core;
use gdb_commands::{bytes_of, line};
use rtr_types::Items;
use std::alloc::{AllocError, Global};

/// Whether such a core, of so many, can lead: each that is there, and none, where all go.
pub fn can_lead(core: Option<u8>, cores: u8) -> bool
    ensures { result ≡ can_lead core cores }
{
    match core {
        Some(core) => core < cores,
        None => true,
    }
}

/// What is told where a core is asked to lead.
pub(crate) fn lead_told(alloc: Global, core: Option<u8>, cores: u8) -> Result<Items<u8>, AllocError>
    ensures { IfOk result (λ text. text ≡ lead_told core cores) }
{
    match core {
        Some(core) if core >= cores => no_core(alloc, core),
        _ => lead_text(alloc, core),
    }
}

/// That this core leads, or none.
fn lead_text(alloc: Global, core: Option<u8>) -> Result<Items<u8>, AllocError>
    ensures { IfOk result (λ text. text ≡ lead_text core) }
{
    match core {
        Some(core) => {
            let mut text = String::new(alloc);
            writeln!(text, "lead {core}")?;
            Ok(bytes_of(text))
        }
        None => line(alloc, "lead all"),
    }
}
