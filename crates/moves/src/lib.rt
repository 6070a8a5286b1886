// The calls by which parcels move, on an office's book. Each makes its checks in the order of their reasons, and then changes
// one entry.
#![tactic(auto, unfolding(parcels::specs::Calls::good_fields, parcels::specs::Calls::checked, parcels::specs::Calls::told, parcels::specs::Calls::changed), using(laws::proofs::Books::own_key))]

ghost use Rattle.std.specs.Prelude.{◌≡◌, ◌<◌};
ghost use Rattle.parcels.specs.Numbers.{four_bytes};
ghost use Rattle.parcels.specs.Calls.{slip_from};
ghost use Rattle.parcels.specs.declared.Call.TheVariants.{Accept, Send, SlipAgain, TakeIn, HandOut};
ghost use Rattle.parcels.specs.declared.Answer.TheVariants.{Number, Given};
ghost use Rattle.moves.specs.Handled.{answer_by, Handled};

use book::Book;
use checks::{
    for_here, known_office, other_office, parcel_here, parcel_sent, slip_in_range, small_amount,
    works_here,
};
use parcels::{Entry, Kind, Reason, Refusal, Slip};

mod checks;

// The number of the office whose book it is.
fn own(book: &Book) -> u32
    ensures { result ≡ book.now.opening.own }
{
    book.opening().own()
}

// The slip of a parcel that was sent on from an office.
fn slip_of(own: u32, entry: Entry) -> Slip
    ensures { result ≡ slip_from own entry }
{
    Slip {
        key: entry.key,
        step: entry.step,
        from: own,
        to: entry.to,
        dest: entry.dest,
        amount: entry.amount,
    }
}

// A parcel is accepted for an office; gives its key.
pub fn accept(book: &mut Book, dest: u32, amount: u32) -> Result<u32, Refusal>
    ensures value { Handled (Accept dest amount) book.old (answer_by Number result) book.new }
    ensures same_opening { book.new.opening ≡ book.old.opening }
    ensures same_reference { book.new.memory.ghost_name ≡ book.old.memory.ghost_name }
{
    let Some(dest) = known_office(book, dest) else {
        return Err(Reason::OutOfRange.into());
    };
    let Some(amount) = small_amount(amount) else {
        return Err(Reason::OutOfRange.into());
    };
    let Some(key) = book.next_key() else {
        return Err(Reason::OverLimit.into());
    };
    let accepted = Entry {
        key,
        step: 0,
        kind: Kind::Accepted,
        to: own(book),
        dest,
        amount,
        paid: false,
    };
    let place = book.place_of(key);
    book.put_at(place, accepted).unwrap();
    Ok(key)
}

// A parcel that is here is sent on to another office; gives its slip.
pub fn send(book: &mut Book, key: u32, to: u32) -> Result<Slip, Refusal>
    ensures value { Handled (Send key to) book.old (answer_by Given result) book.new }
    ensures same_opening { book.new.opening ≡ book.old.opening }
    ensures same_reference { book.new.memory.ghost_name ≡ book.old.memory.ghost_name }
{
    let Some(to) = other_office(book, to) else {
        return Err(Refusal {
            reason: Reason::OutOfRange,
            place: 1,
        });
    };
    let place = book.place_of(key);
    let Some(entry) = parcel_here(book, place) else {
        return Err(Reason::NotHere.into());
    };
    let sent = Entry {
        step: entry.step + 1,
        kind: Kind::SentOn,
        to,
        ..entry
    };
    book.put_at(place, sent).unwrap();
    Ok(slip_of(own(book), sent))
}

// The slip of a parcel that was last sent on from here, once more.
pub fn slip_again(book: &Book, key: u32) -> Result<Slip, Refusal>
    ensures { Handled (SlipAgain key) book.now (answer_by Given result) book.now }
{
    let Some(entry) = parcel_sent(book, key) else {
        return Err(Reason::NotHere.into());
    };
    Ok(slip_of(own(book), entry))
}

// A parcel comes in with a slip, whose step four bytes hold, as in any call that was read; gives the office that it is
// for.
pub fn take_in(book: &mut Book, slip: Slip) -> Result<u32, Refusal>
    requires carried { slip.step < four_bytes }
    ensures value { Handled (TakeIn slip) book.old (answer_by Number result) book.new }
    ensures same_opening { book.new.opening ≡ book.old.opening }
    ensures same_reference { book.new.memory.ghost_name ≡ book.old.memory.ghost_name }
{
    let Some(slip) = slip_in_range(book, slip) else {
        return Err(Reason::OutOfRange.into());
    };
    let place = book.place_of(slip.key);
    let Some(paid) = works_here(book, place, slip) else {
        return Err(Reason::WrongSlip.into());
    };
    let come_in = Entry {
        key: slip.key,
        step: slip.step + 1,
        kind: Kind::ComeIn,
        to: own(book),
        dest: slip.dest,
        amount: slip.amount,
        paid,
    };
    let Ok(()) = book.put_at(place, come_in) else {
        return Err(Reason::OverLimit.into());
    };
    Ok(slip.dest)
}

// A parcel that is here, and for this office, is handed out; gives the amount that is collected for it.
pub fn hand_out(book: &mut Book, key: u32) -> Result<u32, Refusal>
    ensures value { Handled (HandOut key) book.old (answer_by Number result) book.new }
    ensures same_opening { book.new.opening ≡ book.old.opening }
    ensures same_reference { book.new.memory.ghost_name ≡ book.old.memory.ghost_name }
{
    let place = book.place_of(key);
    let Some(entry) = parcel_here(book, place) else {
        return Err(Reason::NotHere.into());
    };
    let Some(entry) = for_here(book, entry) else {
        return Err(Reason::OtherOffice.into());
    };
    let handed_out = Entry {
        step: entry.step + 1,
        kind: Kind::HandedOut,
        to: own(book),
        ..entry
    };
    book.put_at(place, handed_out).unwrap();
    Ok(entry.amount)
}
