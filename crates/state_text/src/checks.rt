//! The texts of checks that found nothing wrong.
ghost use Rattle.std.specs.Prelude.{◌≡◌, IfOk};
ghost use Rattle.state_text.specs.Checks.{check_lines, needed_lines};

use std::alloc::{AllocError, Global};

/// The text of a check by which a reduced log with this many edges is least: one line. The only refusal is
/// want of memory.
pub fn check_text(alloc: Global, edges: u64) -> Result<Vec<u8>, AllocError>
    ensures { IfOk result (λ text. text.items ≡ check_lines edges) }
{
    let mut text = String::new(alloc);
    writeln!(text, "least {edges} edges")?;
    Ok(text.into_bytes())
}

/// The text of a check by which each of this many vectors is needed: one line. The only refusal is want of
/// memory.
pub fn needed_text(alloc: Global, vectors: u64) -> Result<Vec<u8>, AllocError>
    ensures { IfOk result (λ text. text.items ≡ needed_lines vectors) }
{
    let mut text = String::new(alloc);
    writeln!(text, "needed {vectors} vectors")?;
    Ok(text.into_bytes())
}
