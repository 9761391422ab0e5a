//! What leads between the cores of each pair.
ghost use Rattle.std.specs.Prelude.{◌≡◌, ◌++◌, ℕ, IfOk, OnOk, length, map};
ghost use Rattle.rtr_types.specs.Pairs.{pair_count};
ghost use Rattle.race_log.specs.Sources.{edge_between};
ghost use Rattle.part_lists.specs.Leading.{led_of};

use rtr_types::{Edge, Instr, Items, pair_count, pair_of};
use std::alloc::{AllocError, Global};

/// What leads from one core to another by an entry of a log, which has the rest of it.
pub trait Led<T: Copy>: Copy {
    /// What leads from one core to another by an entry.
    ghost between: { (from to : ℕ) → T → Self };

    /// What leads from one core to another by an entry.
    fn between(from: u8, to: u8, entry: T) -> Self
        ensures { result ≡ between from to entry };
}

impl Led<(u32, u32)> for Edge {
    ghost between = { edge_between };

    fn between(from: u8, to: u8, entry: (u32, u32)) -> Self {
        Edge {
            from: Instr {
                core: from,
                count: entry.0,
            },
            to: Instr {
                core: to,
                count: entry.1,
            },
        }
    }
}

/// Puts what leads between two cores at the end.
fn push_led<L: Led<T>, T: Copy>(
    list: &mut Vec<L>,
    from: u8,
    to: u8,
    entries: &[T],
) -> Result<(), AllocError>
    ensures { OnOk result (list.new.items ≡ list.old.items ++ map (L.between from to) entries.now) }
{
    for &entry in entries {
        list.push(L::between(from, to, entry))?;
    }
    Ok(())
}

/// How many entries the lists have, where so many fit.
fn room<T>(lists: &[Items<T>]) -> usize {
    let mut room = 0usize;
    for entries in lists {
        room = room.saturating_add(entries.len());
    }
    room
}

/// What leads between the cores of each pair by the entries of its list, by pair and within a pair in their order.
pub fn led_of<L: Led<T>, T: Copy>(
    alloc: Global,
    cores: u8,
    lists: &[Items<T>],
) -> Result<Items<L>, AllocError>
    requires { length lists.now ≡ pair_count cores }
    ensures { IfOk result (λ list. list ≡ led_of L.between cores lists.now) }
{
    let mut list = Vec::with_capacity(alloc, room(lists))?;
    for place in 0..pair_count(cores) {
        let (from, to) = pair_of(cores, place);
        push_led(&mut list, from, to, lists[place].as_slice())?;
    }
    Ok(Items::from_vec(list))
}
