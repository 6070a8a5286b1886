// Each answer beside its bytes. The bytes of a number differ, and so do the numbers of an answer.
use crate::lent::check_answer_written;
use parcels::{Answer, Kind, Reason, Refusal, Slip, Step};
use std::process::Abort;
use wire::read_answer;

pub(crate) fn check_answers(rt: &impl Abort) {
    let table: &[(Answer, &[u8])] = &[
        (
            Answer::Refused(Refusal {
                reason: Reason::WrongSlip,
                place: 0x0807060504030201,
            }),
            b"\x00\
                  \x05\x00\x00\x00\x00\x00\x00\x00\
                  \x01\x02\x03\x04\x05\x06\x07\x08",
        ),
        (
            Answer::Number(0x0807060504030201),
            b"\x01\
                  \x01\x02\x03\x04\x05\x06\x07\x08",
        ),
        // a slip in an answer may have a step that none in a call can have
        (
            Answer::Given(Slip {
                key: 0x04030201,
                step: 0x0c0b0a0908070605,
                from: 0x100f0e0d,
                to: 0x14131211,
                dest: 0x18171615,
                amount: 0x1c1b1a19,
            }),
            b"\x02\
                  \x01\x02\x03\x04\x00\x00\x00\x00\
                  \x05\x06\x07\x08\x09\x0a\x0b\x0c\
                  \x0d\x0e\x0f\x10\x00\x00\x00\x00\
                  \x11\x12\x13\x14\x00\x00\x00\x00\
                  \x15\x16\x17\x18\x00\x00\x00\x00\
                  \x19\x1a\x1b\x1c\x00\x00\x00\x00",
        ),
        (
            Answer::At(Step {
                number: 0x0807060504030201,
                kind: Kind::ComeIn,
                office: 0x0c0b0a09,
            }),
            b"\x03\
                  \x01\x02\x03\x04\x05\x06\x07\x08\
                  \x02\x00\x00\x00\x00\x00\x00\x00\
                  \x09\x0a\x0b\x0c\x00\x00\x00\x00",
        ),
        (Answer::NothingHeard, b"\x04"),
        (
            Answer::Two(0x0807060504030201, 0x100f0e0d0c0b0a09),
            b"\x05\
                  \x01\x02\x03\x04\x05\x06\x07\x08\
                  \x09\x0a\x0b\x0c\x0d\x0e\x0f\x10",
        ),
        // the least and the largest values
        (
            Answer::Two(0, 0xffffffffffffffff),
            b"\x05\
                  \x00\x00\x00\x00\x00\x00\x00\x00\
                  \xff\xff\xff\xff\xff\xff\xff\xff",
        ),
        (
            Answer::Given(Slip {
                key: 0xffffffff,
                step: 0xffffffffffffffff,
                from: 0xffffffff,
                to: 0xffffffff,
                dest: 0xffffffff,
                amount: 0xffffffff,
            }),
            b"\x02\
                  \xff\xff\xff\xff\x00\x00\x00\x00\
                  \xff\xff\xff\xff\xff\xff\xff\xff\
                  \xff\xff\xff\xff\x00\x00\x00\x00\
                  \xff\xff\xff\xff\x00\x00\x00\x00\
                  \xff\xff\xff\xff\x00\x00\x00\x00\
                  \xff\xff\xff\xff\x00\x00\x00\x00",
        ),
    ];
    for (answer, bytes) in table {
        check_answer(rt, *answer, bytes);
    }
    check_reasons(rt);
    check_kinds(rt);
}

// Each reason by its number, in a refusal whose other bytes stay.
fn check_reasons(rt: &impl Abort) {
    let refused = *b"\x00\
                     \x00\x00\x00\x00\x00\x00\x00\x00\
                     \x01\x02\x03\x04\x05\x06\x07\x08";
    let place = 0x0807060504030201;
    for (reason, n) in [
        (Reason::Unreadable, 1),
        (Reason::OutOfRange, 2),
        (Reason::BadOpening, 3),
        (Reason::NotHere, 4),
        (Reason::WrongSlip, 5),
        (Reason::OtherOffice, 6),
        (Reason::NothingToPay, 7),
        (Reason::PaidAlready, 8),
        (Reason::OverLimit, 9),
    ] {
        let mut bytes = refused;
        bytes[1] = n;
        let answer = Answer::Refused(Refusal { reason, place });
        check_answer(rt, answer, &bytes);
    }
}

// Each kind by its number, in a step whose other bytes stay. (Not one with `check_reasons`: what is made of the two
// differs.)
fn check_kinds(rt: &impl Abort) {
    let at = *b"\x03\
                \x01\x02\x03\x04\x05\x06\x07\x08\
                \x00\x00\x00\x00\x00\x00\x00\x00\
                \x09\x0a\x0b\x0c\x00\x00\x00\x00";
    for (kind, n) in [
        (Kind::Accepted, 0),
        (Kind::SentOn, 1),
        (Kind::ComeIn, 2),
        (Kind::HandedOut, 3),
    ] {
        let mut bytes = at;
        bytes[9] = n;
        let answer = Answer::At(Step {
            number: 0x0807060504030201,
            kind,
            office: 0x0c0b0a09,
        });
        check_answer(rt, answer, &bytes);
    }
}

// The bytes are read as the answer, and the answer is written as the bytes, where more are lent too. (Not one with
// `check_call`: three lines, of which each names its own functions.)
fn check_answer(rt: &impl Abort, answer: Answer, bytes: &[u8]) {
    assert!(rt; read_answer(bytes) == Some(answer), "answer {bytes:?}");
    check_answer_written::<64>(rt, answer, Some(bytes));
    check_answer_written::<70>(rt, answer, Some(bytes));
}
