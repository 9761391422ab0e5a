//! The accesses with which an instruction's conflicts.
ghost use Rattle.std.specs.Prelude.{◌≡◌, ◌∷◌, ◌++◌, [], IfOk, OnOk, filter};
ghost use Rattle.race_queries.specs.Conflicts.{access_at, before, behind, conflicts_among, conflicts_at, fights};
ghost use Rattle.race_queries.specs.Conflicts.{since_last_write, to_next_write};

use crate::words::history;
use replay_audit::Audited;
use rtr_types::{Access, Instr, Items};
use std::alloc::{AllocError, Global};

/// An access, and those around it with which it conflicts: of other cores, to the same word, and one of the two
/// writes.
#[derive(Drop)]
pub struct Conflicts {
    /// The access.
    pub access: Access,
    /// Those just before it, back to and with the last write of the word.
    pub earlier: Items<Access>,
    /// Those just behind it, up to and with the next write of the word.
    pub later: Items<Access>,
}

/// The access of an instruction, with the accesses around it with which it conflicts, in an order that the log allows.
/// None where the instruction has no access.
pub fn conflicts_of(
    alloc: Global,
    audited: &Audited,
    at: Instr,
) -> Result<Option<Conflicts>, AllocError>
    ensures { IfOk result (λ conflicts. conflicts ≡ conflicts_at audited.now.accesses at) }
{
    match access_at(audited.accesses(), at) {
        Some(access) => Ok(Some(conflicts_among(alloc, audited, access)?)),
        None => Ok(None),
    }
}

/// An instruction's access among these.
pub fn access_at(accesses: &[Access], at: Instr) -> Option<Access>
    ensures { result ≡ access_at at accesses.now }
{
    for access in accesses {
        if access.at == at {
            return Some(*access);
        }
    }
    None
}

/// The accesses with which this one conflicts.
fn conflicts_among(
    alloc: Global,
    audited: &Audited,
    access: Access,
) -> Result<Conflicts, AllocError>
    ensures { IfOk result (λ conflicts. conflicts ≡ conflicts_among audited.now.accesses access) }
{
    let to = history(alloc, audited, access.word)?;
    let earlier = earlier_of(alloc, access, to.as_slice())?;
    let later = later_of(alloc, access, to.as_slice())?;
    Ok(Conflicts {
        access,
        earlier,
        later,
    })
}

/// Of the accesses to an access's word those before it with which it conflicts.
fn earlier_of(alloc: Global, access: Access, to: &[Access]) -> Result<Items<Access>, AllocError>
    ensures { IfOk result (λ list. list ≡ filter (fights access) (since_last_write (before access.at to.now))) }
{
    let near = since_last_write(alloc, to, access.at)?;
    fighting(alloc, access, near.as_slice())
}

/// And those behind it.
fn later_of(alloc: Global, access: Access, to: &[Access]) -> Result<Items<Access>, AllocError>
    ensures { IfOk result (λ list. list ≡ filter (fights access) (to_next_write (behind access.at to.now))) }
{
    let next = to_next_write(alloc, to, access.at)?;
    fighting(alloc, access, next.as_slice())
}

/// The accesses before an instruction's, from the last write on.
fn since_last_write(
    alloc: Global,
    accesses: &[Access],
    at: Instr,
) -> Result<Items<Access>, AllocError>
    ensures { IfOk result (λ list. list ≡ since_last_write (before at accesses.now)) }
{
    let mut near = Items::new(alloc);
    for access in accesses {
        if access.at == at {
            return Ok(near);
        }
        if access.kind.is_write() {
            near = Items::new(alloc);
        }
        near.push(*access)?;
    }
    Ok(near)
}

/// The accesses behind an instruction's, up to and with the first write.
fn to_next_write(alloc: Global, accesses: &[Access], at: Instr) -> Result<Items<Access>, AllocError>
    ensures { IfOk result (λ list. list ≡ to_next_write (behind at accesses.now)) }
{
    let mut next = Items::new(alloc);
    for access in accesses_behind(accesses, at) {
        next.push(*access)?;
        if access.kind.is_write() {
            return Ok(next);
        }
    }
    Ok(next)
}

/// The accesses behind an instruction's.
fn accesses_behind(accesses: &[Access], at: Instr) -> &[Access]
    ensures { result.now ≡ behind at accesses.now }
{
    for (k, access) in accesses.iter().enumerate() {
        if access.at == at {
            return &accesses[k + 1..];
        }
    }
    &[]
}

/// Those with which an access conflicts, of accesses to its word.
fn fighting(alloc: Global, access: Access, accesses: &[Access]) -> Result<Items<Access>, AllocError>
    ensures { IfOk result (λ list. list ≡ filter (fights access) accesses.now) }
{
    let mut list = Vec::new(alloc);
    for other in accesses {
        if fights(access, *other) {
            list.push(*other)?;
        }
    }
    Ok(Items::from_vec(list))
}

/// Whether two accesses to one word are of different cores, and one of them writes.
fn fights(access: Access, other: Access) -> bool
    ensures { result ≡ fights access other }
{
    other.at.core != access.at.core && (access.kind.is_write() || other.kind.is_write())
}
