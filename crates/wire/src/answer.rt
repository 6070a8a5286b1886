// Answers as bytes.
ghost use Rattle.std.specs.Prelude.{◌<◌};
ghost use Rattle.wire.specs.Answers.{ReadsPart, Tagged, ReadsAnswer, ReadsWritten, OnlyReading, WritesAnswer};

use crate::carried::{Numbers, write_row};
use crate::number::read_numbers;
use parcels::Answer;

// How many bytes are lent for an answer.
pub const ANSWER_BYTES: usize = 64;

// What the body of an answer carries, in numbers of eight bytes each.
fn read_part<T: Numbers<N>, const N: usize>(body: &[u8]) -> Option<T>
    ensures { ReadsPart T.fits T.values body.now result }
{
    T::from_numbers(read_numbers::<8, N>(body)?)
}

// The answer with this first byte, its tag, by the body behind it.
fn read_tagged(tag: u8, body: &[u8]) -> Option<Answer>
    ensures { Tagged tag body.now result }
{
    Some(match tag {
        0 => Answer::Refused(read_part(body)?),
        1 => Answer::Number(read_part(body)?),
        2 => Answer::Given(read_part(body)?),
        3 => Answer::At(read_part(body)?),
        4 => {
            let () = read_part(body)?;
            Answer::NothingHeard
        }
        5 => {
            let (m, n) = read_part(body)?;
            Answer::Two(m, n)
        }
        _ => return None,
    })
}

// Which answer a row of bytes is; None where it is none.
pub fn read_answer(row: &[u8]) -> Option<Answer>
    ensures value { ReadsAnswer row.now result }
    ensures written { ReadsWritten row.now result }
    ensures only { OnlyReading row.now result }
{
    let (tag, body) = row.split_first()?;
    read_tagged(*tag, body)
}

// Writes an answer into lent bytes, and says how many it took. None, with nothing written, where fewer than 64
// are lent.
pub fn write_answer(answer: Answer, out: &mut [u8]) -> Option<usize>
    ensures { WritesAnswer answer out.old out.new result }
{
    if out.len() < ANSWER_BYTES {
        return None;
    }
    let tag = answer.number();
    Some(match answer {
        Answer::Refused(refusal) => write_row::<8, _, _>(tag, refusal, out),
        Answer::Number(n) => write_row::<8, _, _>(tag, n, out),
        Answer::Given(slip) => write_row::<8, _, _>(tag, slip, out),
        Answer::At(step) => write_row::<8, _, _>(tag, step, out),
        Answer::NothingHeard => write_row::<8, _, _>(tag, (), out),
        Answer::Two(m, n) => write_row::<8, _, _>(tag, (m, n), out),
    })
}
