// Calls, from their bytes to what they are answered.
ghost use Rattle.std.specs.Prelude.{◌≡◌, true, Ok, []};
ghost use Rattle.wire.specs.Layout.{readable};
ghost use Rattle.moves.specs.Stage.{limits_of};
ghost use Rattle.moves.specs.Handled.{answer_by};
ghost use Rattle.book.specs.Ready.{Ready};
ghost use Rattle.session.specs.Answering.{Done};
ghost use Rattle.session.specs.Exchanging.{RowCalled};

use book::Book;
use book::opening::Opening;
use moves::{accept, hand_out, send, slip_again, take_in};
use parcels::{Answer, Call, Reason, Refusal};
use wire::read_call;

// Answers bytes that come as a call. The memory of an office is lent for this call alone.
pub(crate) fn answer_row(opening: Opening, memory: &mut [u32], row: &[u8]) -> Answer
    requires { Ready opening.own opening.parcels memory.old }
    ensures value { RowCalled (limits_of opening) opening.own memory.old row.now result memory.new [] }
    ensures ready { Ready opening.own opening.parcels memory.new }
{
    do_row(opening, memory, row).unwrap_or_else(Answer::Refused)
}

// Bytes that are no call are turned away as such, before anything else.
fn do_row(opening: Opening, memory: &mut [u32], row: &[u8]) -> Result<Answer, Refusal>
    requires { Ready opening.own opening.parcels memory.old }
    ensures value { RowCalled (limits_of opening) opening.own memory.old row.now (answer_by (λ a. a) result) memory.new [] }
    ensures ready { Ready opening.own opening.parcels memory.new }
{
    let call = read_call(row)?;
    decide(opening, memory, call)
}

// Does a call that was read from bytes.
#[tactic(auto, unfolding(parcels::specs::Calls::good_fields, parcels::specs::Calls::checked, parcels::specs::Calls::told, parcels::specs::Calls::changed))]
fn decide(opening: Opening, memory: &mut [u32], call: Call) -> Result<Answer, Refusal>
    requires read { readable call ≡ true }
    requires ready { Ready opening.own opening.parcels memory.old }
    ensures value { Done (limits_of opening) opening.own memory.old (Ok call) (answer_by (λ a. a) result) memory.new }
    ensures ready { Ready opening.own opening.parcels memory.new }
{
    let mut book = Book::over(opening, memory);
    Ok(match call {
        Call::Accept { dest, amount } => Answer::Number(accept(&mut book, dest, amount)?.into()),
        Call::Send { key, to } => Answer::Given(send(&mut book, key, to)?),
        Call::SlipAgain { key } => Answer::Given(slip_again(&book, key)?),
        Call::TakeIn { slip } => Answer::Number(take_in(&mut book, slip)?.into()),
        Call::HandOut { key } => Answer::Number(hand_out(&mut book, key)?.into()),
        Call::Here { from } => book.here(from).into(),
        Call::Sums => book.sums().into(),
        // no other call can be done yet
        Call::Pay { .. } | Call::WhereIs { .. } => return Err(Reason::OutOfRange.into()),
    })
}
