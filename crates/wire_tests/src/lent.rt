// Bytes that are lent to be written into, and what is left of them: that is what is tested here.
ghost use Rattle.std.specs.Prelude.{◌≤◌};

use parcels::{Answer, Call, Slip};
use std::process::Abort;
use wire::{ANSWER_BYTES, MAX_CALL_BYTES, write_answer, write_call};

// What each lent byte is before anything is written: a byte of no row in the tables, so that each write shows.
const LENT: u8 = 0xee;

// The call is written as these bytes into so many lent ones, or can't be written.
pub(crate) fn check_call_written<const LENT_BYTES: usize>(
    rt: &impl Abort,
    call: Call,
    wanted: Option<&[u8]>,
)
    requires few { LENT_BYTES ≤ 70 }
{
    let mut out = [LENT; LENT_BYTES];
    let len = write_call(call, &mut out);
    check_written(rt, &out, len, wanted);
}

// The same of an answer. (Not one function that takes what writes: each closure would be proved by itself.)
pub(crate) fn check_answer_written<const LENT_BYTES: usize>(
    rt: &impl Abort,
    answer: Answer,
    wanted: Option<&[u8]>,
)
    requires few { LENT_BYTES ≤ 70 }
{
    let mut out = [LENT; LENT_BYTES];
    let len = write_answer(answer, &mut out);
    check_written(rt, &out, len, wanted);
}

// The lent bytes begin with these, which are as many as was said, and each byte behind stayed.
fn check_written(rt: &impl Abort, out: &[u8], len: Option<usize>, wanted: Option<&[u8]>) {
    assert_eq!(rt; len, wanted.map(|bytes| bytes.len()), "{wanted:?}");
    let bytes = wanted.unwrap_or(b"");
    let Some(behind) = out.strip_prefix(bytes) else {
        panic!(rt; "{out:?} does not begin with {bytes:?}");
    };
    for byte in behind {
        assert_eq!(rt; *byte, LENT);
    }
}

// Where nothing can be written, the answer is None, and each lent byte stays.
pub(crate) fn check_too_few(rt: &impl Abort) {
    assert_eq!(rt; MAX_CALL_BYTES, 25);
    assert_eq!(rt; ANSWER_BYTES, 64);
    let slip = Slip {
        key: 1,
        step: 0x1_0000_0000,
        from: 2,
        to: 3,
        dest: 4,
        amount: 5,
    };
    // a call's field can't carry this step, though 64 bytes are lent
    check_call_written::<64>(rt, Call::TakeIn { slip }, None);
    // a call of one byte wants 25 lent as well
    check_call_written::<24>(rt, Call::Sums, None);
    check_call_written::<0>(rt, Call::Sums, None);
    // an answer of one byte wants 64 lent as well
    check_answer_written::<63>(rt, Answer::NothingHeard, None);
    check_answer_written::<63>(rt, Answer::Given(slip), None);
    check_answer_written::<0>(rt, Answer::NothingHeard, None);
}
