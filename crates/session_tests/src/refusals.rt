// What is turned away, and how each word stays then.
ghost use Rattle.std.specs.Prelude.{◌≤◌};

use crate::lent::{LENT_BYTE, Lent, numbers};
use parcels::{Answer, Call, Slip};
use session::Session;
use std::process::Abort;

// The slip of parcel 65,537.
const SENT: Slip = Slip {
    key: 65_537,
    step: 1,
    from: 1,
    to: 0,
    dest: 0,
    amount: 7,
};

// A slip with which parcel 65,537 can come back.
const BACK: Slip = Slip {
    key: 65_537,
    step: 3,
    from: 0,
    to: 1,
    dest: 0,
    amount: 7,
};

fn accept(dest: u32, amount: u32) -> Call {
    Call::Accept { dest, amount }
}

fn take_in(slip: Slip) -> Call {
    Call::TakeIn { slip }
}

// Office 1 of 3, with a limit of three parcels: 65,536 is here and for office 2, 65,537 was sent on to office 0, and 65,538 was
// handed out.
fn busy(rt: &impl Abort) -> Lent {
    let mut lent = Lent::open(rt, 3, 1, 3);
    for (call, answer) in [
        (accept(2, 50), Answer::Number(65_536)),
        (accept(0, 7), Answer::Number(65_537)),
        (accept(1, 1_000_000), Answer::Number(65_538)),
        (Call::Send { key: 65_537, to: 0 }, Answer::Given(SENT)),
        (Call::HandOut { key: 65_538 }, Answer::Number(1_000_000)),
    ] {
        lent.check(rt, call, answer);
    }
    lent
}

#[test]
fn calls(rt: HostRuntime) {
    let before = busy(&rt);
    for (call, refused) in [
        (accept(3, 50), (2, 0)),
        (accept(2, 1_000_001), (2, 0)),
        (accept(u32::MAX, u32::MAX), (2, 0)),
        (accept(2, 50), (9, 0)),
        (Call::Send { key: 65_536, to: 3 }, (2, 1)),
        (Call::Send { key: 65_536, to: 1 }, (2, 1)),
        (Call::Send { key: 0, to: 1 }, (2, 1)),
        (Call::Send { key: 0, to: 2 }, (4, 0)),
        (Call::Send { key: 65_537, to: 2 }, (4, 0)),
        (Call::Send { key: 65_538, to: 2 }, (4, 0)),
        (Call::SlipAgain { key: 0 }, (4, 0)),
        (Call::SlipAgain { key: 65_536 }, (4, 0)),
        (Call::SlipAgain { key: 65_538 }, (4, 0)),
        (take_in(Slip { from: 3, ..BACK }), (2, 0)),
        (take_in(Slip { to: 3, ..BACK }), (2, 0)),
        (take_in(Slip { dest: 3, ..BACK }), (2, 0)),
        (
            take_in(Slip {
                amount: 1_000_001,
                ..BACK
            }),
            (2, 0),
        ),
        (take_in(Slip { to: 2, ..BACK }), (5, 0)),
        (take_in(Slip { step: 0, ..BACK }), (5, 0)),
        (take_in(Slip { step: 1, ..BACK }), (5, 0)),
        (
            take_in(Slip {
                key: 0,
                to: 2,
                ..BACK
            }),
            (5, 0),
        ),
        (take_in(Slip { key: 0, ..BACK }), (9, 0)),
        (Call::HandOut { key: 0 }, (4, 0)),
        (Call::HandOut { key: 65_537 }, (4, 0)),
        (Call::HandOut { key: 65_538 }, (4, 0)),
        (Call::HandOut { key: 65_536 }, (6, 0)),
        (Call::Pay { key: 65_538 }, (2, 0)),
        (Call::WhereIs { key: 65_536 }, (2, 0)),
    ] {
        check_turned_away(&rt, before, call, refused);
    }
}

// The call is refused with these numbers, and each word stays.
fn check_turned_away(rt: &impl Abort, before: Lent, call: Call, refused: (u8, u64)) {
    let mut lent = before;
    check_refused(rt, lent.call(rt, call), refused);
    assert!(rt; lent.memory == before.memory);
}

// The office is full, but knows the parcel that comes back, by any step that is newer than the one that it made.
#[test]
fn back_at_the_limit(rt: HostRuntime) {
    let before = busy(&rt);
    before.check_row(&rt, 2, [65_537, 1, 0, 1, 0, 0, 7, 0, 0]);
    for (slip, step) in [(Slip { step: 2, ..BACK }, 3), (BACK, 4)] {
        let mut lent = before;
        lent.check(&rt, take_in(slip), Answer::Number(0));
        lent.check_row(&rt, 2, [65_537, step, 0, 2, 1, 0, 7, 0, 0]);
        // below it hang rows 3 and 2
        lent.check_row(&rt, 1, [65_536, 0, 0, 0, 1, 2, 50, 3, 2]);
    }
}

#[test]
fn no_calls(rt: HostRuntime) {
    let before = busy(&rt);
    let mut lent = before;
    let rows: &[(&[u8], u64)] = &[
        (b"", 0),
        (b"\x09\x00\x00\x00\x00", 0),
        (b"\x00", 1),
        (b"\x01\x00\x00\x01\x00\x02", 6),
        (b"\x02\x01\x00\x01", 4),
        (b"\x04\x00\x00\x01\x00\x00", 5),
        (b"\x07\x00\x00\x01", 4),
        (b"\x07\x00\x00\x01\x00\x00", 5),
        (b"\x08\x00", 1),
    ];
    for (row, place) in rows {
        check_refused(&rt, lent.ask(&rt, row), (1, *place));
        assert!(rt; lent.memory == before.memory);
    }
}

// The answer is the refusal with these numbers.
fn check_refused(rt: &impl Abort, answer: Answer, refused: (u8, u64)) {
    let Answer::Refused(refusal) = answer else {
        panic!(rt; "not refused by {refused:?}");
    };
    assert_eq!(rt; numbers(refusal), refused);
}

#[test]
fn too_few_bytes(rt: HostRuntime) {
    check_too_few::<0, 240>(&rt);
    check_too_few::<9, 240>(&rt);
    check_too_few::<63, 240>(&rt);
    check_too_few::<64, 239>(&rt);
    check_too_few::<64, 0>(&rt);
}

// Nothing is done where fewer bytes are lent than any answer may take, or than letters to three offices: not what can be done,
// nor what is turned away.
fn check_too_few<const BYTES: usize, const LETTER_BYTES: usize>(rt: &impl Abort)
    requires few { BYTES ≤ 64 }
    requires few_for_letters { LETTER_BYTES ≤ 240 }
{
    let before = busy(rt);
    let mut lent = before;
    let rows: &[&[u8]] = &[
        b"\x01\x00\x00\x01\x00\x02\x00\x00\x00",
        b"\x02\x01\x00\x01\x00",
        b"\x04\x00\x00\x01\x00",
        b"\x05\x00\x00\x01\x00",
        b"\x07\x00\x00\x00\x00",
        b"\x08",
        b"",
    ];
    for row in rows {
        check_no_answer::<BYTES, LETTER_BYTES>(rt, &mut lent, row);
        assert!(rt; lent.memory == before.memory);
    }
    let sent = Slip {
        key: 65_536,
        step: 1,
        from: 1,
        to: 2,
        dest: 2,
        amount: 50,
    };
    lent.check(rt, Call::Send { key: 65_536, to: 2 }, Answer::Given(sent));
}

// There is no answer to the row of bytes, and each lent byte stays.
fn check_no_answer<const BYTES: usize, const LETTER_BYTES: usize>(
    rt: &impl Abort,
    lent: &mut Lent,
    row: &[u8],
)
    requires few { BYTES ≤ 64 }
    requires few_for_letters { LETTER_BYTES ≤ 240 }
{
    let mut out = [LENT_BYTE; BYTES];
    let mut letters = [LENT_BYTE; LETTER_BYTES];
    let replied = Session::over(lent.opening, &mut lent.memory).call(row, &mut out, &mut letters);
    assert!(rt; replied.is_none(), "{row:?}");
    assert!(rt; out == [LENT_BYTE; BYTES], "{row:?}");
    assert!(rt; letters == [LENT_BYTE; LETTER_BYTES], "{row:?}");
}
