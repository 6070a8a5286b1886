// What is at an office, and sums: told by going once through the rows of its book.
#![tactic(auto)]

ghost use Rattle.std.specs.Prelude.{◌≡◌, ◌+◌, ◌<◌, ◌≤◌};
ghost use Rattle.parcels.specs.Book.{pick, counted_here, first_with, collected_for, paid_for};
ghost use Rattle.parcels.specs.declared.Answer.TheVariants.{Two};
ghost use Rattle.rows.specs.Layout.{HasRow, head_at, book_at};
ghost use Rattle.tally.specs.Told.{next_from, ShelfOf, SumsOf};

use parcels::{Answer, Entry};
use rows::{read_entry, read_head};

// How many parcels are at an office, and the smallest of their keys from some key on.
#[derive(Clone, Copy, Debug, Default, PartialEq, Eq)]
pub struct Shelf {
    pub count: u32,
    pub first: Option<u32>,
}

impl Shelf {
    // As the office's memory has it, with the first key from this one on. Row 0 is the head.
    #[tactic(auto, using(crate::proofs::Rows::here_more, crate::proofs::Rows::first_more, crate::proofs::Rows::all_rows), unfolding(parcels::specs::Book::how_many_here, parcels::specs::Book::first_here))]
    pub fn of(memory: &[u32], from: u32) -> Shelf
        requires { HasRow memory.now (head_at memory.now).count }
        ensures { ShelfOf (book_at memory.now) from result }
    {
        let mut shelf = Shelf::default();
        for done in 0..read_head(memory).count {
            shelf = shelf.with(read_entry(memory, done + 1), from);
        }
        shelf
    }

    // The same with one parcel more. That the count grows by one at most is said for the loop.
    fn with(self, entry: Entry, from: u32) -> Shelf
        requires { self.count < u32.MAX }
        ensures count { result.count ≡ self.count + counted_here entry }
        ensures first { next_from result.first ≡ first_with from entry (next_from self.first) }
        ensures bound { result.count ≤ self.count + 1 }
    {
        let here = entry.kind.leaves_it_here();
        let is_first = here
            && from <= entry.key
            && self.first.is_none_or(|first| entry.key < first);
        Shelf {
            count: self.count + u32::from(here),
            first: is_first.then_some(entry.key).or(self.first),
        }
    }

    // The key to ask from next: one more than the first one's, which four bytes may not hold; 0 where there is none.
    fn next_from(self) -> u64
        ensures { result ≡ next_from self.first }
    {
        self.first.map_or(0, |first| u64::from(first) + 1)
    }
}

// What is answered where one asks what is here.
impl From<Shelf> for Answer {
    ghost from_gives = { λ shelf answer. answer ≡ Two shelf.count (next_from shelf.first) };

    fn from(shelf: Shelf) -> Answer {
        Answer::Two(shelf.count.into(), shelf.next_from())
    }
}

// What was collected at an office, and what was paid out there.
#[derive(Clone, Copy, Debug, Default, PartialEq, Eq)]
pub struct Sums {
    pub collected: u64,
    pub paid_out: u64,
}

impl Sums {
    // As the office's memory has them. Row 0 is the head.
    #[tactic(auto, using(crate::proofs::Rows::collected_more, crate::proofs::Rows::paid_out_more, crate::proofs::Rows::all_rows), unfolding(parcels::specs::Book::collected, parcels::specs::Book::paid_out))]
    pub fn of(memory: &[u32]) -> Sums
        requires { HasRow memory.now (head_at memory.now).count }
        ensures { SumsOf (book_at memory.now) result }
    {
        let mut sums = Sums::default();
        for done in 0..read_head(memory).count {
            sums = sums.with(read_entry(memory, done + 1));
        }
        sums
    }

    // The same with one parcel more. By how much a sum grows at most is said for the loop.
    fn with(self, entry: Entry) -> Sums
        requires collected_fits { self.collected + u32.MAX ≤ u64.MAX }
        requires paid_out_fits { self.paid_out + u32.MAX ≤ u64.MAX }
        ensures collected { result.collected ≡ self.collected + collected_for entry }
        ensures paid_out { result.paid_out ≡ self.paid_out + paid_for entry }
        ensures collected_bound { result.collected ≤ self.collected + u32.MAX }
        ensures paid_out_bound { result.paid_out ≤ self.paid_out + u32.MAX }
    {
        Sums {
            collected: self.collected + amount_if(entry.kind.was_handed_out(), entry.amount),
            paid_out: self.paid_out + amount_if(entry.paid, entry.amount),
        }
    }
}

// What is answered where one asks for sums.
impl From<Sums> for Answer {
    ghost from_gives = { λ sums answer. answer ≡ Two sums.collected sums.paid_out };

    fn from(sums: Sums) -> Answer {
        Answer::Two(sums.collected, sums.paid_out)
    }
}

// An amount, if it counts, or 0.
fn amount_if(counts: bool, amount: u32) -> u64
    ensures { result ≡ pick counts amount 0 }
{
    if counts { amount.into() } else { 0 }
}
