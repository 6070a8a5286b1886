// An office's book: what it has of each parcel by its own calls, in memory that the caller lends.
#![tactic(auto)]

ghost use Rattle.std.specs.Prelude.{◌≡◌, ◌≤◌, true, length, MatchOption, is_ok, IsErr};
ghost use Rattle.parcels.specs.Book.{each_once, has_room, accepted};
ghost use Rattle.parcels.specs.Laws.{StepFits, StepsFit};
ghost use Rattle.parcels.specs.Shelf.{FirstTold, ShelfListed};
ghost use Rattle.parcels.specs.Calls.{new_key};
ghost use Rattle.rows.specs.Layout.{book_at};
ghost use Rattle.tally.specs.Told.{next_from, ShelfOf, SumsOf};
ghost use Rattle.book.specs.Search.{RowOf};
ghost use Rattle.book.specs.Places.{IsPlace};
ghost use Rattle.book.specs.Sound.{Sound};
ghost use Rattle.book.specs.Ready.{Ready};
ghost use Rattle.book.specs.Keys.{next_key, NewKey};
ghost use Rattle.book.specs.Keeping.{looked_up, can_put, put_in, SameElsewhere};

use key::KeyParts;
use opening::Opening;
use parcels::Entry;
use rows::{Link, read_entry, read_head, read_link};
use tally::{Shelf, Sums};
use tree::{ROOT, add, change, seek};

pub mod key;
pub mod opening;
mod tree;

// The book has as many parcels as it was opened for.
#[derive(Clone, Copy, Debug, PartialEq, Eq)]
pub struct Full;

// Where a book has a parcel, or would have it. A search for the key gives it, to look there and then to write there.
#[derive(Clone, Copy)]
pub struct Place {
    key: u32,
    // the row of the key, or the link by which its row would hang
    row: Result<u32, Link>,
}

// The memory, and what the office was opened with. The invariant: the memory is sound, and no step in the book goes further
// than steps go.
#[derive(Drop)]
pub struct Book<'a> {
    memory: &'a mut [u32],
    opening: Opening,
    ghost sound: { Sound opening.own opening.parcels memory.now },
    ghost steps: { StepsFit (book_at memory.now) },
}

impl<'a> Book<'a> {
    ghost use Rattle.book.specs.View.{book_in};

    // A book over memory that was laid out, or that another such book left: either is ready.
    pub fn over(opening: Opening, memory: &'a mut [u32]) -> Book<'a>
        requires { Ready opening.own opening.parcels memory.old }
        ensures same_opening { result.opening ≡ opening }
        ensures same { result.memory.now ≡ memory.old }
        ensures same_reference { result.memory.ghost_name ≡ memory.entry.ghost_name }
    {
        Book { memory, opening }
    }

    // What the office was opened with.
    pub fn opening(&self) -> Opening
        ensures { result ≡ self.now.opening }
    {
        self.opening
    }

    // How many parcels it has.
    #[tactic(auto, using(crate::proofs::Kept::book_length))]
    pub fn count(&self) -> u32
        ensures value { result ≡ length (book_in self.now) }
        ensures limit { result ≤ self.now.opening.parcels }
    {
        read_head(self.memory).count
    }

    // Whether there is room for one more.
    pub fn has_room(&self) -> bool
        ensures { result ≡ has_room self.now.opening.parcels (book_in self.now) }
    {
        self.count() < self.opening.parcels
    }

    // How many parcels this office accepted.
    pub fn accepted(&self) -> u32
        ensures { result ≡ accepted self.now.opening.own (book_in self.now) }
    {
        read_head(self.memory).accepted
    }

    // The key of the next parcel that this office accepts.
    fn new_key(&self) -> u32
        requires { has_room self.now.opening.parcels (book_in self.now) ≡ true }
        ensures value { result ≡ new_key self.now.opening.own (book_in self.now) }
        ensures new { NewKey self.now.opening.own (book_in self.now) result }
    {
        // an office's number is small, and it accepted fewer parcels than its limit: nothing is cut off
        let office = self.opening.own as u16;
        let before = self.accepted() as u16;
        KeyParts { office, before }.into()
    }

    // The same, or none where there is no room for one more.
    pub fn next_key(&self) -> Option<u32>
        ensures value { result ≡ next_key self.now.opening.own self.now.opening.parcels (book_in self.now) }
        ensures new { MatchOption result Unit (λ key. NewKey self.now.opening.own (book_in self.now) key) }
    {
        if !self.has_room() {
            return None;
        }
        Some(self.new_key())
    }

    // The row of a key, or the link by which its row would hang.
    fn row_of(&self, key: u32) -> Result<u32, Link>
        ensures { RowOf self.now.memory.now key result }
    {
        let end = seek(self.memory, ROOT, key, u32::BITS);
        read_link(self.memory, end).ok_or(end)
    }

    // Where it has a parcel, or would have it.
    pub fn place_of(&self, key: u32) -> Place
        ensures key { result.key ≡ key }
        ensures place { IsPlace self.now.memory.now result }
    {
        let row = self.row_of(key);
        Place { key, row }
    }

    // What it has there.
    pub fn entry_at(&self, place: Place) -> Option<Entry>
        requires { IsPlace self.now.memory.now place }
        ensures { result ≡ looked_up (book_in self.now) place.key }
    {
        let row = place.row.ok()?;
        Some(read_entry(self.memory, row))
    }

    // What it has of a parcel.
    pub fn find(&self, key: u32) -> Option<Entry>
        ensures value { result ≡ looked_up (book_in self.now) key }
        ensures once { each_once (book_in self.now) ≡ true }
    {
        self.entry_at(self.place_of(key))
    }

    // What is here: how many parcels, and the first of them from a key on.
    pub fn here(&self, from: u32) -> Shelf
        ensures value { ShelfOf (book_in self.now) from result }
        ensures first { FirstTold (book_in self.now) from (next_from result.first) }
        ensures listed { ShelfListed (book_in self.now) }
    {
        Shelf::of(self.memory, from)
    }

    // What was collected here, and paid out.
    pub fn sums(&self) -> Sums
        ensures { SumsOf (book_in self.now) result }
    {
        Sums::of(self.memory)
    }

    // Puts in an entry at the place of its key: instead of the one that is there, or, where there is none and room for one
    // more, behind the others. Two words hold any step; but that none goes further than steps go is kept here, for whoever
    // makes the next.
    #[tactic(auto, using(crate::proofs::Kept::steps_kept))]
    pub fn put_at(&mut self, place: Place, entry: Entry) -> Result<(), Full>
        requires place { IsPlace self.old.memory.now place }
        requires key { place.key ≡ entry.key }
        requires fits { StepFits entry }
        ensures value { is_ok result ≡ can_put self.old.opening.parcels (book_in self.old) entry }
        ensures after { book_in self.new ≡ put_in self.old.opening.parcels (book_in self.old) entry }
        ensures same { IsErr result → self.new.memory.now ≡ self.old.memory.now }
        ensures elsewhere { SameElsewhere self.old.memory.now self.new.memory.now }
        ensures same_opening { self.new.opening ≡ self.old.opening }
        ensures same_reference { self.new.memory.ghost_name ≡ self.old.memory.ghost_name }
    {
        match place.row {
            Ok(row) => change(self.memory, row, entry),
            Err(end) => {
                if !self.has_room() {
                    return Err(Full);
                }
                add(self.memory, self.opening, end, entry);
            }
        }
        Ok(())
    }
}
