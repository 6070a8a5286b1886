// An office of the world, with memory of its own.
ghost use Rattle.std.specs.Prelude.{◌≡◌, ◌≤◌, length, vec_items};
ghost use Rattle.moves.specs.Stage.{limits_of};
ghost use Rattle.book.specs.Ready.{Ready};
ghost use Rattle.session.specs.Opening.{Opens};
ghost use Rattle.session.specs.Exchanging.{Begins, RowCalled, Heard, Ticked, Sent, lent_for_news, lent_for_tick};

use crate::CannotHappen;
use book::opening::Opening;
use parcels::{Answer, Refusal};
use session::Session;
use std::alloc::Global;
use wire::{ANSWER_BYTES, read_answer};

// What an office answered, and how many letters it sent.
#[derive(Clone, Copy)]
pub(crate) struct Asked {
    pub answer: Answer,
    pub letters: usize,
}

// Opens an office over lent memory. (This and the next three are no methods: what is known of memory that a function changed is
// known of its argument, and not of a field that it was lent from.)

fn open(offices: u32, own: u32, parcels: u32, memory: &mut [u32]) -> Result<Opening, Refusal>
    ensures value { Opens offices own parcels memory.old memory.new result }
    ensures begun { Begins offices own parcels memory.old memory.new result }
{
    Session::open(offices, own, parcels, memory)
}

// What an office answers to a row of bytes, read from the bytes that it writes. They are lent, so the count of those
// that were written comes beside them: an office has no heap. Its memory is lent for this one call.
fn ask(opening: Opening, memory: &mut [u32], row: &[u8], lent: &mut [u8]) -> Asked
    requires ready { Ready opening.own opening.parcels memory.old }
    requires room { lent_for_news (limits_of opening) ≤ length lent.old }
    ensures value { Sent (RowCalled (limits_of opening) opening.own memory.old row.now result.answer) lent.old lent.new result.letters memory.new }
    ensures ready { Ready opening.own opening.parcels memory.new }
{
    let mut out = [0; ANSWER_BYTES];
    let replied = Session::over(opening, memory)
        .call(row, &mut out, lent)
        .unwrap();
    Asked {
        answer: read_answer(&out[..replied.answer]).unwrap(),
        letters: replied.letters,
    }
}

// An office hears a letter.
fn hear(opening: Opening, memory: &mut [u32], letter: &[u8], lent: &mut [u8]) -> usize
    requires ready { Ready opening.own opening.parcels memory.old }
    requires room { lent_for_news (limits_of opening) ≤ length lent.old }
    ensures value { Sent (Heard (limits_of opening) opening.own memory.old letter.now) lent.old lent.new result memory.new }
    ensures ready { Ready opening.own opening.parcels memory.new }
{
    Session::over(opening, memory).hear(letter, lent).unwrap()
}

// An office's clock ticks.
fn tick(opening: Opening, memory: &mut [u32], lent: &mut [u8]) -> usize
    requires ready { Ready opening.own opening.parcels memory.old }
    requires room { lent_for_tick (limits_of opening) ≤ length lent.old }
    ensures value { Sent (Ticked (limits_of opening) opening.own memory.old) lent.old lent.new result memory.new }
    ensures ready { Ready opening.own opening.parcels memory.new }
{
    Session::over(opening, memory).tick(lent).unwrap()
}

// What an office was opened with, and its memory. The invariant: a book may stand there.
#[derive(Drop)]
pub(crate) struct Station {
    opening: Opening,
    memory: Vec<u32>,
    ghost ready: { Ready opening.own opening.parcels (vec_items memory) },
}

impl Station {
    ghost use Rattle.world.specs.Stations.{words_of, OpensStation};

    // Opens an office, with as much memory as its limits ask for.
    pub(crate) fn open(
        heap: Global,
        offices: u32,
        own: u32,
        parcels: u32,
    ) -> Result<Station, CannotHappen>
        ensures { OpensStation offices own parcels result }
    {
        // how much memory to lend is known once the limits are taken; the office takes them once more
        let Ok(opening) = Opening::new(offices, own, parcels) else {
            return Err(CannotHappen::BadLimits);
        };
        let mut memory = vec![in heap; 0; opening.words()]?;
        let opening = open(offices, own, parcels, &mut memory).unwrap();
        Ok(Station { opening, memory })
    }

    // What it answers to a row of bytes. Letters are written into lent bytes, here and below.
    pub(crate) fn ask(&mut self, row: &[u8], lent: &mut [u8]) -> Asked
        requires room { lent_for_news (limits_of self.old.opening) ≤ length lent.old }
        ensures value { Sent (RowCalled (limits_of self.old.opening) self.old.opening.own (words_of self.old) row.now result.answer) lent.old lent.new result.letters (words_of self.new) }
        ensures same_opening { self.new.opening ≡ self.old.opening }
    {
        ask(self.opening, &mut self.memory, row, lent)
    }

    // It hears a letter, and says how many it sends.
    pub(crate) fn hear(&mut self, letter: &[u8], lent: &mut [u8]) -> usize
        requires room { lent_for_news (limits_of self.old.opening) ≤ length lent.old }
        ensures value { Sent (Heard (limits_of self.old.opening) self.old.opening.own (words_of self.old) letter.now) lent.old lent.new result (words_of self.new) }
        ensures same_opening { self.new.opening ≡ self.old.opening }
    {
        hear(self.opening, &mut self.memory, letter, lent)
    }

    // Its clock ticks, and it says how many letters it sends.
    pub(crate) fn tick(&mut self, lent: &mut [u8]) -> usize
        requires room { lent_for_tick (limits_of self.old.opening) ≤ length lent.old }
        ensures value { Sent (Ticked (limits_of self.old.opening) self.old.opening.own (words_of self.old)) lent.old lent.new result (words_of self.new) }
        ensures same_opening { self.new.opening ≡ self.old.opening }
    {
        tick(self.opening, &mut self.memory, lent)
    }
}
