// What an office is opened with.
ghost use Rattle.std.specs.Prelude.{◌≡◌, ◌+◌, ◌*◌, ◌≤◌, true, nat_lt};
ghost use Rattle.parcels.specs.Numbers.{words_a_parcel, words_more};
ghost use Rattle.rows.specs.Layout.{words_for};
ghost use Rattle.book.specs.Opening.{in_range};
ghost use Rattle.book.specs.Keeping.{LaysOut};

use crate::tree::clear;
use parcels::{Reason, Refusal};
use rows::words_for;

// The fewest and the most offices that a post has.
pub const MIN_OFFICES: u32 = 2;

pub const MAX_OFFICES: u32 = 16;

// The most parcels that one office ever has to do with.
pub const MAX_PARCELS: u32 = 65_536;

// How many offices there are, the number of the one that is opened, and how many parcels it ever has to do with: all
// in range. They come one by one, from a line of a file or a count of offices, and go together from here on.
#[derive(Clone, Copy)]
pub struct Opening {
    pub(crate) offices: u32,
    pub(crate) own: u32,
    pub(crate) parcels: u32,
    ghost good: { in_range offices own parcels ≡ true },
}

impl Opening {
    ghost use Rattle.book.specs.Opened.{Opens};

    // Takes limits that are in range.
    pub fn new(offices: u32, own: u32, parcels: u32) -> Result<Opening, Refusal>
        ensures { Opens offices own parcels result }
    {
        if !(MIN_OFFICES..=MAX_OFFICES).contains(&offices)
            || own >= offices
            || parcels > MAX_PARCELS
        {
            return Err(Refusal {
                reason: Reason::BadOpening,
                place: 1,
            });
        }
        Ok(Opening {
            offices,
            own,
            parcels,
        })
    }

    // The number of the office that is opened.
    pub fn own(&self) -> u32
        ensures { result ≡ self.now.own }
    {
        self.own
    }

    // How many offices there are.
    pub fn offices(&self) -> u32
        ensures { result ≡ self.now.offices }
    {
        self.offices
    }

    // Its limit of parcels.
    pub fn parcels(&self) -> u32
        ensures { result ≡ self.now.parcels }
    {
        self.parcels
    }

    // Whether an office is there.
    pub fn has_office(&self, office: u32) -> bool
        ensures { result ≡ nat_lt office self.now.offices }
    {
        office < self.offices
    }

    // How many words of memory it asks for.
    pub fn words(&self) -> usize
        ensures value { result ≡ words_for self.now.parcels }
        ensures bound { result ≤ words_a_parcel * self.now.parcels + words_more }
    {
        words_for(self.parcels)
    }

    // Lays out an empty book in the first words of the memory. The rows are written as parcels come.
    pub fn lay_out(&self, memory: &mut [u32]) -> Result<(), Refusal>
        ensures { LaysOut self.now.own self.now.parcels memory.old memory.new result }
    {
        if memory.len() < self.words() {
            return Err(Reason::BadOpening.into());
        }
        clear(memory);
        Ok(())
    }
}
