//! Runs in which a clerk keeps each retirement, with what was known at it.
ghost use Rattle.std.specs.Prelude.{◌≡◌, IfOk};
ghost use Rattle.rtr_types.specs.Parameters.{Fits};

use access_times::{Clerk, NoRider, Rider};
use image_mem::Image;
use know_history::Known;
use machine_ports::SteppedMachine;
use msi_machine::Machine;
use rtr_types::{Access, Instr, Params};
use schedule_pick::Schedule;
use std::alloc::Global;
use std::test::Fail;

/// A retirement: its instruction, what is known at it, and its access, if it has one.
#[derive(Clone, Copy, Debug)]
pub struct Told {
    pub at: Instr,
    pub known: Known,
    pub access: Option<Access>,
}

/// Holds the retirement that it was told of last. It accepts each instruction.
#[derive(Drop)]
struct Keeper {
    told: Option<Told>,
}

impl<R: Rider> Clerk<R, Known> for Keeper {
    ghost accepts = { λ c i. Unit {0} };

    ghost told_local = { λ c i k d. Unit {0} };

    ghost told_touch = { λ c r a k d q. q ≡ r };

    fn local(&mut self, at: Instr, carry: &Known) {
        self.told = Some(Told {
            at,
            known: *carry,
            access: None,
        });
    }

    fn touched(&mut self, access: Access, _rider: &mut R, carry: &Known) {
        self.told = Some(Told {
            at: access.at,
            known: *carry,
            access: Some(access),
        });
    }
}

/// The image of this code over a memory of so many words.
pub fn image_of(alloc: Global, code: &[u32], words: u32) -> Result<Image, Fail>
    ensures { IfOk result (λ image. image.words ≡ words) }
{
    let mut bytes = Vec::new(alloc);
    for word in code {
        bytes.extend_from_slice(&word.to_le_bytes())?;
    }
    Ok(Image::flat(bytes, words)?)
}

/// The retirements of so many steps of a run, in their order, by a machine that records no times.
pub fn told_in_run(
    alloc: Global,
    image: Image,
    params: Params,
    schedule: Schedule,
    steps: u32,
) -> Result<Vec<Told>, Fail>
    requires fits { Fits params }
    requires words { image.words ≡ params.words }
{
    let mut machine = Machine::<NoRider, Known>::new(alloc, image, params)?;
    let mut schedule = schedule;
    let mut rows = Vec::new(alloc);
    for _ in 0..steps {
        machine.make_room()?;
        if !machine.done() {
            let mut keeper = Keeper { told: None };
            let _ = machine.step(schedule.next(), &mut keeper);
            rows.extend(keeper.told)?;
        }
    }
    Ok(rows)
}
