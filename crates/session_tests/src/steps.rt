// Parcels' ways through an office, and what its memory keeps of them.
use crate::lent::{LENT, Lent, check_answer};
use parcels::{Answer, Call, Reason, Refusal, Slip};
use session::Session;

// A slip with the largest step that a call can carry: the next steps are wider than a word.
#[test]
fn the_largest_step(rt: HostRuntime) {
    let mut lent = Lent::open(&rt, 3, 1, 3);
    let slip = Slip {
        key: 131_072,
        step: 4_294_967_295,
        from: 2,
        to: 1,
        dest: 0,
        amount: 50,
    };
    lent.check(&rt, Call::TakeIn { slip }, Answer::Number(0));
    lent.check_row(&rt, 1, [131_072, 0, 1, 2, 1, 0, 50, 0, 0]);
    let sent = Slip {
        step: 4_294_967_297,
        from: 1,
        to: 0,
        ..slip
    };
    let send = Call::Send {
        key: 131_072,
        to: 0,
    };
    lent.check(&rt, send, Answer::Given(sent));
    lent.check_row(&rt, 1, [131_072, 1, 1, 1, 0, 0, 50, 0, 0]);
    let again = Call::SlipAgain { key: 131_072 };
    lent.check_told(&rt, again, Answer::Given(sent));
}

// What is kept of a parcel that was accepted, and of one that was handed out.
#[test]
fn accepted_and_handed_out(rt: HostRuntime) {
    let mut lent = Lent::open(&rt, 3, 1, 3);
    let passing = Call::Accept {
        dest: 2,
        amount: 50,
    };
    lent.check(&rt, passing, Answer::Number(65_536));
    lent.check_row(&rt, 1, [65_536, 0, 0, 0, 1, 2, 50, 0, 0]);
    let staying = Call::Accept { dest: 1, amount: 7 };
    lent.check(&rt, staying, Answer::Number(65_537));
    let hand_out = Call::HandOut { key: 65_537 };
    lent.check(&rt, hand_out, Answer::Number(7));
    lent.check_row(&rt, 2, [65_537, 1, 0, 3, 1, 1, 7, 0, 0]);
}

// An office is left after two calls, and taken up again over its memory.
#[test]
fn taken_up_again(rt: HostRuntime) {
    let mut lent = Lent::open(&rt, 3, 0, 3);
    // accept for 0, 50
    let accept = b"\x00\x00\x00\x00\x00\x32\x00\x00\x00";
    let mut left = Session::over(lent.opening, &mut lent.memory);
    check_answer(
        &rt,
        &mut left,
        accept,
        b"\x01\x00\x00\x00\x00\x00\x00\x00\x00",
    );
    check_answer(
        &rt,
        &mut left,
        accept,
        b"\x01\x01\x00\x00\x00\x00\x00\x00\x00",
    );
    // hand out 0, twice
    let hand_out = b"\x04\x00\x00\x00\x00";
    let mut session = Session::over(lent.opening, &mut lent.memory);
    check_answer(
        &rt,
        &mut session,
        hand_out,
        b"\x01\x32\x00\x00\x00\x00\x00\x00\x00",
    );
    check_answer(
        &rt,
        &mut session,
        hand_out,
        b"\x00\x04\x00\x00\x00\x00\x00\x00\x00\x00\x00\x00\x00\x00\x00\x00\x00",
    );
    // a third parcel, and no fourth
    assert!(rt; lent.ask(&rt, accept) == Answer::Number(2));
    let refusal = Refusal {
        reason: Reason::OverLimit,
        place: 0,
    };
    assert!(rt; lent.ask(&rt, accept) == Answer::Refused(refusal));
    assert_eq!(rt; &lent.memory[96..], [LENT; 52].as_slice());
}
