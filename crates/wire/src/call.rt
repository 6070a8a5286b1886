// Calls as bytes.
ghost use Rattle.std.specs.Prelude.{◌≡◌, ◌*◌, ◌<◌};
ghost use Rattle.wire.specs.Layout.{readable};
ghost use Rattle.wire.specs.Calls.{refused_row, ReadsFields, Tagged, Reads, ReadsWritten, OnlyReading, Writes};

use crate::carried::{Fields, write_row};
use crate::number::read_numbers;
use parcels::{Call, Reason, Refusal};

// The longest call: its first byte and a slip's six fields.
pub const MAX_CALL_BYTES: usize = 25;

// A row of bytes that is no call: the place of its first byte that doesn't fit.
#[derive(Clone, Copy, Debug, PartialEq, Eq)]
pub struct UnreadableCall {
    pub place: u64,
}

impl From<UnreadableCall> for Refusal {
    ghost from_gives = { λ e refusal. refusal ≡ refused_row e };

    fn from(e: UnreadableCall) -> Refusal {
        Refusal {
            reason: Reason::Unreadable,
            place: e.place,
        }
    }
}

// What the bytes behind a call's first one carry, in fields of four bytes each; or the place where the row ceases to
// be so, which answers don't want (`read_part`).
fn read_fields<T: Fields<N>, const N: usize>(body: &[u8]) -> Result<T, UnreadableCall>
    ensures { ReadsFields T.values N body.now result }
{
    // a count below 26, so nothing is cut off
    let cut = UnreadableCall {
        place: 1 + body.len().min(4 * N) as u64,
    };
    let numbers = read_numbers::<4, N>(body).ok_or(cut)?;
    T::from_numbers(numbers).ok_or(cut)
}

// The call with this first byte, by the bytes behind it.
fn read_tagged(first: u8, body: &[u8]) -> Result<Call, UnreadableCall>
    ensures { Tagged first body.now result }
{
    Ok(match first {
        0 => {
            let (dest, amount) = read_fields(body)?;
            Call::Accept { dest, amount }
        }
        1 => {
            let (key, to) = read_fields(body)?;
            Call::Send { key, to }
        }
        2 => Call::SlipAgain {
            key: read_fields(body)?,
        },
        3 => Call::TakeIn {
            slip: read_fields(body)?,
        },
        4 => Call::HandOut {
            key: read_fields(body)?,
        },
        5 => Call::Pay {
            key: read_fields(body)?,
        },
        6 => Call::WhereIs {
            key: read_fields(body)?,
        },
        7 => Call::Here {
            from: read_fields(body)?,
        },
        8 => {
            let () = read_fields(body)?;
            Call::Sums
        }
        _ => return Err(UnreadableCall { place: 0 }),
    })
}

// Which call a row of bytes is; or the place of its first byte that doesn't fit, where the longest front that
// some call begins with ends.
#[tactic(auto, using(crate::proofs::CallReadings::no_bytes, crate::proofs::CallReadings::no_bytes_written, crate::proofs::CallReadings::no_bytes_only))]
pub fn read_call(row: &[u8]) -> Result<Call, UnreadableCall>
    ensures value { Reads row.now result }
    ensures written { ReadsWritten row.now result }
    ensures only { OnlyReading row.now result }
{
    let Some((first, body)) = row.split_first() else {
        return Err(UnreadableCall { place: 0 });
    };
    read_tagged(*first, body)
}

// Whether the fields of a call, four bytes each, can carry its values: all but a slip's step always fit.
fn is_readable(call: Call) -> bool
    ensures { result ≡ readable call }
{
    match call {
        Call::TakeIn { slip } => u32::try_from(slip.step).is_ok(),
        _ => true,
    }
}

// Writes a call into lent bytes, and says how many it took. None, with nothing written, where no bytes are this
// call, or where fewer are lent than the longest call has.
pub fn write_call(call: Call, out: &mut [u8]) -> Option<usize>
    ensures { Writes call out.old out.new result }
{
    if out.len() < MAX_CALL_BYTES || !is_readable(call) {
        return None;
    }
    let first = call.number();
    Some(match call {
        Call::Accept { dest, amount } => write_row::<4, _, _>(first, (dest, amount), out),
        Call::Send { key, to } => write_row::<4, _, _>(first, (key, to), out),
        Call::TakeIn { slip } => write_row::<4, _, _>(first, slip, out),
        Call::SlipAgain { key }
        | Call::HandOut { key }
        | Call::Pay { key }
        | Call::WhereIs { key } => write_row::<4, _, _>(first, key, out),
        Call::Here { from } => write_row::<4, _, _>(first, from, out),
        Call::Sums => write_row::<4, _, _>(first, (), out),
    })
}
