//! Two cores over a memory of one block.
ghost use Rattle.std.specs.Prelude.{◌≡◌, ◌<◌, ◌+◌};

use access_times::{Carry, Clerk, NoCarry, NoRider, Rider};
use image_mem::Image;
use msi_memory::MemorySystem;
use rtr_types::{Access, Instr, Kind};
use std::test::Fail;

/// Counts the accesses that it was told of.
#[derive(Drop)]
struct Counter {
    told: u32,
}

impl<R: Rider, K: Carry> Clerk<R, K> for Counter {
    ghost accepts = { λ c i. c.told < 100 };

    ghost told_local = { λ c i k d. d.told ≡ c.told + 1 };

    ghost told_touch = { λ c r a k d q. (d.told ≡ c.told + 1) × (q ≡ r) };

    fn local(&mut self, _at: Instr, _carry: &K) {
        self.told += 1;
    }

    fn touched(&mut self, _access: Access, _rider: &mut R, _carry: &K) {
        self.told += 1;
    }
}

#[test]
fn a_core_writes_to_the_block_that_it_asked_for(rt: HostRuntime) -> Result<(), Fail> {
    let image = Image::flat([7, 0, 0, 0].to_vec(rt.alloc())?, 4)?;
    let mut system = MemorySystem::<NoRider, NoCarry>::new(rt.alloc(), &image, 2)?;
    system.want(0, 0, Kind::Store);
    system.make_room(0)?;
    assert!(rt; system.has_room());
    assert!(rt; system.take_request(0).block == 0);
    let mut waiting = true;
    assert!(rt; system.take_message(0, &mut waiting) && !waiting);
    assert!(rt; system.allows(0, 0, Kind::Store));
    let at = Instr { core: 0, count: 1 };
    let access = Access {
        at,
        word: 1,
        kind: Kind::Store,
        before: 0,
        after: 9,
    };
    let mut clerk = Counter { told: 0 };
    system.retire(0, at);
    let _carry = system.carry(0);
    system.touch(0, access, &mut clerk);
    assert!(rt; (clerk.told, system.final_words(0)) == (1, [7, 9, 0, 0]));
    Ok(())
}
