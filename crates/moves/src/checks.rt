// The checks of calls. Each hands on what it looked at, where it passes, and each stands here once, whichever calls ask for
// it. Which reason goes with it, and which comes first, is for the calls.
ghost use Rattle.std.specs.Prelude.{◌≡◌};
ghost use Rattle.book.specs.View.{book_in};
ghost use Rattle.book.specs.Places.{IsPlace};
ghost use Rattle.moves.specs.Checks.{known_office, this_office, other_office, small_amount, slip_in_range, parcel_here, parcel_sent, for_here, works_here};

use crate::own;
use book::{Book, Place};
use parcels::{Entry, Kind, Slip};

// The largest amount to be collected for a parcel.
const MAX_AMOUNT: u32 = 1_000_000;

// An amount that is small enough.
pub(crate) fn small_amount(amount: u32) -> Option<u32>
    ensures { result ≡ small_amount amount }
{
    (amount <= MAX_AMOUNT).then_some(amount)
}

// An office that is there.
pub(crate) fn known_office(book: &Book, office: u32) -> Option<u32>
    ensures { result ≡ known_office book.now.opening.offices office }
{
    book.opening().has_office(office).then_some(office)
}

// This office.
fn this_office(book: &Book, office: u32) -> Option<u32>
    ensures { result ≡ this_office book.now.opening.own office }
{
    (office == own(book)).then_some(office)
}

// Another office that is there.
pub(crate) fn other_office(book: &Book, office: u32) -> Option<u32>
    ensures { result ≡ other_office book.now.opening.offices book.now.opening.own office }
{
    let office = known_office(book, office)?;
    this_office(book, office).is_none().then_some(office)
}

// A slip whose offices are there, and whose amount is small enough.
pub(crate) fn slip_in_range(book: &Book, slip: Slip) -> Option<Slip>
    ensures { result ≡ slip_in_range book.now.opening.offices slip }
{
    Some(Slip {
        from: known_office(book, slip.from)?,
        to: known_office(book, slip.to)?,
        dest: known_office(book, slip.dest)?,
        amount: small_amount(slip.amount)?,
        ..slip
    })
}

// What the book has of a parcel that is here.
pub(crate) fn parcel_here(book: &Book, place: Place) -> Option<Entry>
    requires { IsPlace book.now.memory.now place }
    ensures { result ≡ parcel_here (book_in book.now) place.key }
{
    let entry = book.entry_at(place)?;
    entry.kind.leaves_it_here().then_some(entry)
}

// What the book has of a parcel that was last sent on from here.
pub(crate) fn parcel_sent(book: &Book, key: u32) -> Option<Entry>
    ensures { result ≡ parcel_sent (book_in book.now) key }
{
    let entry = book.find(key)?;
    (entry.kind == Kind::SentOn).then_some(entry)
}

// What the book has of a parcel, where it is for this office.
pub(crate) fn for_here(book: &Book, entry: Entry) -> Option<Entry>
    ensures { result ≡ for_here book.now.opening.own entry }
{
    this_office(book, entry.dest)?;
    Some(entry)
}

// A slip that is for this office, and newer than what is known here of its parcel by own calls: whether the parcel was
// paid out here.
pub(crate) fn works_here(book: &Book, place: Place, slip: Slip) -> Option<bool>
    requires place { IsPlace book.now.memory.now place }
    requires key { place.key ≡ slip.key }
    ensures { result ≡ works_here book.now.opening.own (book_in book.now) slip }
{
    this_office(book, slip.to)?;
    match book.entry_at(place) {
        None => Some(false),
        Some(entry) => (entry.step < slip.step).then_some(entry.paid),
    }
}
