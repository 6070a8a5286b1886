// A book in lent memory, and what the tests put into it.
ghost use Rattle.std.specs.Prelude.{◌≡◌, ◌≤◌};
ghost use Rattle.parcels.specs.Laws.{StepFits};

use book::opening::Opening;
use book::{Book, Full};
use parcels::{Entry, Kind};
use std::process::Abort;
use tally::{Shelf, Sums};

// What each lent word is before anything is written.
pub const LENT: u32 = 0xeeee_eeee;

// An opening with limits that are in range.
pub(crate) fn opened(rt: &impl Abort, offices: u32, own: u32, parcels: u32) -> Opening {
    let Ok(opening) = Opening::new(offices, own, parcels) else {
        panic!(rt; "{own} of {offices} offices, {parcels} parcels");
    };
    opening
}

// An empty book, laid out in memory that is large enough.
pub(crate) fn empty_book<'a>(rt: &impl Abort, opening: Opening, memory: &'a mut [u32]) -> Book<'a>
    ensures same_opening { result.opening ≡ opening }
    ensures same_reference { result.memory.ghost_name ≡ memory.entry.ghost_name }
{
    assert!(rt; opening.lay_out(memory).is_ok());
    Book::over(opening, memory)
}

// What is put in of a parcel: no two parcels have the same office or amount, nor, but for those that were accepted, the same
// step. That of the last key is as large as a step can be, and wider than a word.
pub(crate) fn entry(key: u32) -> Entry
    ensures { StepFits result }
{
    let (kind, step) = match key % 4 {
        0 => (Kind::Accepted, 0),
        1 => (Kind::SentOn, u64::from(key) + 2),
        2 => (Kind::ComeIn, u64::from(key)),
        _ => (Kind::HandedOut, u64::from(key) + 2),
    };
    Entry {
        key,
        step,
        kind,
        to: !key,
        dest: key.wrapping_mul(3),
        amount: key.wrapping_mul(5),
        paid: key / 4 % 2 == 1,
    }
}

// Another entry of the same parcel: all but the key differs.
pub(crate) fn changed(key: u32) -> Entry
    ensures { StepFits result }
{
    Entry { key, ..entry(!key) }
}

// The entry can be put in. (Each check that is made more than once has a function of its own: what a function costs to
// prove grows faster than its length.)
pub(crate) fn check_put(rt: &impl Abort, book: &mut Book, entry: Entry)
    requires { StepFits entry }
    ensures same_opening { book.new.opening ≡ book.old.opening }
    ensures same_reference { book.new.memory.ghost_name ≡ book.old.memory.ghost_name }
{
    let place = book.place_of(entry.key);
    assert_eq!(rt; book.put_at(place, entry), Ok(()));
}

// The book has this of the parcel.
pub(crate) fn check_has(rt: &impl Abort, book: &Book, entry: Entry) {
    assert_eq!(rt; book.find(entry.key), Some(entry));
}

// The book has nothing of the parcel.
pub(crate) fn check_has_not(rt: &impl Abort, book: &Book, key: u32) {
    assert_eq!(rt; book.find(key), None);
}

// The parcel can't be put in, and is not there.
pub(crate) fn check_full(rt: &impl Abort, book: &mut Book, key: u32) {
    let entry = entry(key);
    let place = book.place_of(entry.key);
    assert_eq!(rt; book.put_at(place, entry), Err(Full));
    check_has_not(rt, book, key);
}

// How many parcels there are, how many this office accepted, and the key of its next.
pub(crate) fn check_counts(
    rt: &impl Abort,
    book: &Book,
    count: u32,
    accepted: u32,
    next: Option<u32>,
) {
    let told = (
        book.count(),
        book.accepted(),
        book.next_key(),
        book.has_room(),
    );
    assert_eq!(rt; told, (count, accepted, next, next.is_some()));
}

// How many parcels are here, and the first of them from a key on.
pub(crate) fn check_here(rt: &impl Abort, book: &Book, from: u32, count: u32, first: Option<u32>) {
    assert_eq!(rt; book.here(from), Shelf { count, first });
}

pub(crate) fn check_sums(rt: &impl Abort, book: &Book, collected: u64, paid_out: u64) {
    assert_eq!(rt;
        book.sums(),
        Sums {
            collected,
            paid_out
        }
    );
}
