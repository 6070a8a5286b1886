// The world of offices and lines: what can happen happens here, one thing at a time, and each call is answered right.
#![tactic(auto)]

ghost use Rattle.std.specs.Prelude.{◌≡◌, ◌*◌, ◌≤◌, max, true, vec_items, vec_len};
ghost use Rattle.book.specs.Opening.{in_range};
ghost use Rattle.moves.specs.Stage.{stage_limits};
ghost use Rattle.letters.specs.Envelope.{lent_for_letter};
ghost use Rattle.promises.specs.World.{Lived};
ghost use Rattle.theorems.specs.Ours.{ours};
ghost use Rattle.world.specs.Stations.{Numbered};
ghost use Rattle.world.specs.Mail.{letters_in_mail};
ghost use Rattle.world.specs.Journal.{world_of};

use mail::Mail;
use parcels::{Answer, Call};
use station::Station;
use std::alloc::{AllocError, AllocFailed};
use wire::UnreadableCall;

mod happen;
mod mail;
mod station;

// What was handed to an office as a call, by what its bytes were read as, and what it answered.
#[derive(Clone, Copy)]
pub struct Exchange {
    pub at: u32,
    pub reading: Result<Call, UnreadableCall>,
    pub answer: Answer,
}

// What can't happen in a world: limits that no office opens with, an office that is not there, a call that no row of bytes is,
// a slip that was never given out, a letter that was never sent. And where this machine's memory is wanting.
#[derive(Clone, Copy)]
pub enum CannotHappen {
    BadLimits,
    NoOffice,
    NoSuchCall,
    NeverGiven,
    NeverSent,
    NoMemory,
}

impl<T: Drop> From<AllocFailed<T>> for CannotHappen {
    ghost use Rattle.std.specs.Prelude.{◌≡◌};
    ghost use Rattle.world.specs.declared.CannotHappen.TheVariants.{NoMemory};

    ghost from_gives = { λ _ e. e ≡ NoMemory };

    fn from(_e: AllocFailed<T>) -> CannotHappen {
        CannotHappen::NoMemory
    }
}

impl From<AllocError> for CannotHappen {
    ghost use Rattle.std.specs.Prelude.{◌≡◌};
    ghost use Rattle.world.specs.declared.CannotHappen.TheVariants.{NoMemory};

    ghost from_gives = { λ _ e. e ≡ NoMemory };

    fn from(_e: AllocError) -> CannotHappen {
        CannotHappen::NoMemory
    }
}

// What can happen in a world, in any order.
#[derive(Clone, Copy)]
pub enum Happening<'a> {
    // A clerk makes a call at an office.
    Call { at: u32, call: Call },
    // A row of bytes comes to an office as a call, which it need not be.
    Bytes { at: u32, row: &'a [u8] },
    // A letter comes, by its number among all that were sent: now or late, again and again, or never.
    Letter { number: usize },
    // An office's clock ticks.
    Tick { at: u32 },
}

// All offices of a post, from number 0 up, each with the same limit of parcels and with memory of its own; all letters that
// were ever sent; the journal of all that was handed to offices as calls, the oldest first; and bytes that are lent to
// offices for the letters that they send. The invariant: the limits are in range, each office was opened with them and with
// its number, enough is lent, and what the world holds came about by things that can happen. Others see its limits, its
// letters, its journal and what its offices have in memory, and these apart, since the promises speak of each.
#[derive(Drop)]
pub struct World {
    parcels: u32,
    stations: Vec<Station>,
    mail: Mail,
    journal: Vec<Exchange>,
    lent: Vec<u8>,
    ghost good: { in_range (vec_len stations) 0 parcels ≡ true },
    ghost numbered: { Numbered (vec_items stations) (vec_len stations) parcels },
    ghost room: { lent_for_letter * max (vec_len stations) parcels ≤ vec_len lent },
    ghost lived: { ∥ Lived ours (stage_limits (vec_len stations) parcels) (world_of (vec_items stations) (letters_in_mail mail) (vec_items journal)) ∥₁ },
}
