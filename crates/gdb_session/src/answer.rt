//! Payloads of answers.
ghost use Rattle.std.specs.Prelude.{◌≡◌, ◌∷◌, [], IfOk};
ghost use Rattle.gdb_packets.specs.Replies.{spelled};
ghost use Rattle.gdb_session.specs.Answers.{kinds_text};

use gdb_packets::{Reply, spell};
use rtr_types::Items;
use std::alloc::{AllocError, Global};

/// No payload.
pub(crate) fn silent(alloc: Global) -> Items<Items<u8>>
    ensures { result ≡ [] }
{
    Items::new(alloc)
}

/// The payload of one answer.
pub(crate) fn one(alloc: Global, reply: &Reply) -> Result<Items<Items<u8>>, AllocError>
    ensures { IfOk result (λ payloads. payloads ≡ spelled reply.now ∷ []) }
{
    let mut payloads = Items::new(alloc);
    payloads.push(spell(alloc, reply)?)?;
    Ok(payloads)
}

/// How threads can be asked to go on, as one payload.
pub(crate) fn kinds(alloc: Global) -> Result<Items<Items<u8>>, AllocError>
    ensures { IfOk result (λ payloads. payloads ≡ kinds_text ∷ []) }
{
    let text = Vec::from_slice(alloc, "vCont;c;C;s;S;r".as_bytes())?;
    let mut payloads = Items::new(alloc);
    payloads.push(Items::from_vec(text))?;
    Ok(payloads)
}
