// What is here, and sums: what is told of them, and that no word changes.
use crate::lent::{Lent, check_answer};
use parcels::{Answer, Call, Slip};
use session::Session;
use std::process::Abort;

// A slip with which a parcel of office 0 comes in at office 1, for which it is.
const COMING: Slip = Slip {
    key: 0,
    step: 1,
    from: 0,
    to: 1,
    dest: 1,
    amount: 30,
};

// What is told from a key on: how many parcels are here, and where to ask on.
fn check_here(rt: &impl Abort, lent: &mut Lent, from: u32, count: u64, next: u64) {
    lent.check_told(rt, Call::Here { from }, Answer::Two(count, next));
}

// Nothing was paid out: paying can't be done yet.
fn check_sums(rt: &impl Abort, lent: &mut Lent, collected: u64) {
    lent.check_told(rt, Call::Sums, Answer::Two(collected, 0));
}

// These parcels are here, by asking on from each answer: each is told as one more than its key, until none is left, or no
// larger key from which to ask.
fn check_shelf(rt: &impl Abort, lent: &mut Lent, keys: &[u32]) {
    let count = keys.len() as u64;
    let mut from = Some(0);
    for key in keys {
        let Some(asked) = from else {
            panic!(rt; "no key is above the one before {key}");
        };
        check_here(rt, lent, asked, count, u64::from(*key) + 1);
        from = key.checked_add(1);
    }
    if let Some(asked) = from {
        check_here(rt, lent, asked, count, 0);
    }
}

// At an empty office, and at one that can have no parcel.
#[test]
fn nothing_here(rt: HostRuntime) {
    for parcels in [0, 5] {
        let mut lent = Lent::open(&rt, 3, 1, parcels);
        for from in [0, 65_536, 4_294_967_295] {
            check_here(&rt, &mut lent, from, 0, 0);
        }
        check_sums(&rt, &mut lent, 0);
    }
}

// After each step of a parcel, which comes back once, and of another one, which is handed out. What was sent on is not here,
// and what was not handed out is not collected.
#[test]
fn at_each_step(rt: HostRuntime) {
    let mut lent = Lent::open(&rt, 3, 1, 5);
    let sent = Slip {
        key: 65_536,
        step: 1,
        from: 1,
        to: 0,
        dest: 2,
        amount: 50,
    };
    let back = Slip {
        step: 3,
        from: 0,
        to: 1,
        ..sent
    };
    let sent_again = Slip {
        step: 5,
        to: 2,
        ..sent
    };
    let way: &[(Call, Answer, &[u32], u64)] = &[
        (
            Call::Accept {
                dest: 2,
                amount: 50,
            },
            Answer::Number(65_536),
            &[65_536],
            0,
        ),
        (
            Call::Send { key: 65_536, to: 0 },
            Answer::Given(sent),
            &[],
            0,
        ),
        (Call::TakeIn { slip: back }, Answer::Number(2), &[65_536], 0),
        (
            Call::Accept { dest: 1, amount: 7 },
            Answer::Number(65_537),
            &[65_536, 65_537],
            0,
        ),
        (
            Call::HandOut { key: 65_537 },
            Answer::Number(7),
            &[65_536],
            7,
        ),
        (
            Call::Send { key: 65_536, to: 2 },
            Answer::Given(sent_again),
            &[],
            7,
        ),
    ];
    for (call, answer, keys, collected) in way {
        lent.check(&rt, *call, *answer);
        check_shelf(&rt, &mut lent, keys);
        check_sums(&rt, &mut lent, *collected);
    }
}

// From keys below those that are here, from these, from the next ones, and from the largest. How many there are doesn't
// depend on it.
#[test]
fn from_each_key(rt: HostRuntime) {
    let mut lent = Lent::open(&rt, 3, 1, 5);
    for slip in [
        Slip {
            key: 131_074,
            ..COMING
        },
        Slip { key: 9, ..COMING },
    ] {
        lent.check(&rt, Call::TakeIn { slip }, Answer::Number(1));
    }
    for (from, next) in [
        (0, 10),
        (8, 10),
        (9, 10),
        (10, 131_075),
        (131_073, 131_075),
        (131_074, 131_075),
        (131_075, 0),
        (4_294_967_295, 0),
    ] {
        check_here(&rt, &mut lent, from, 2, next);
    }
}

// Parcels that came neither in the order of their keys nor in the other one, until one after the other is gone. One more
// than the largest key that four bytes hold is told in full.
#[test]
fn out_of_order(rt: HostRuntime) {
    let mut lent = Lent::open(&rt, 3, 1, 5);
    let accept = Call::Accept { dest: 1, amount: 5 };
    let take_in = |key| Call::TakeIn {
        slip: Slip { key, ..COMING },
    };
    let way: &[(Call, Answer, &[u32])] = &[
        (take_in(131_074), Answer::Number(1), &[131_074]),
        (
            take_in(4_294_967_295),
            Answer::Number(1),
            &[131_074, 4_294_967_295],
        ),
        (
            accept,
            Answer::Number(65_536),
            &[65_536, 131_074, 4_294_967_295],
        ),
        (
            take_in(0),
            Answer::Number(1),
            &[0, 65_536, 131_074, 4_294_967_295],
        ),
        (
            accept,
            Answer::Number(65_537),
            &[0, 65_536, 65_537, 131_074, 4_294_967_295],
        ),
        (
            Call::HandOut { key: 131_074 },
            Answer::Number(30),
            &[0, 65_536, 65_537, 4_294_967_295],
        ),
        (
            Call::HandOut { key: 0 },
            Answer::Number(30),
            &[65_536, 65_537, 4_294_967_295],
        ),
        (
            Call::HandOut { key: 65_537 },
            Answer::Number(5),
            &[65_536, 4_294_967_295],
        ),
        (
            Call::HandOut { key: 65_536 },
            Answer::Number(5),
            &[4_294_967_295],
        ),
        (
            Call::HandOut { key: 4_294_967_295 },
            Answer::Number(30),
            &[],
        ),
    ];
    for (call, answer, keys) in way {
        lent.check(&rt, *call, *answer);
        check_shelf(&rt, &mut lent, keys);
    }
    check_sums(&rt, &mut lent, 100);
}

// What is collected adds up, in whatever order parcels are handed out. Nothing is collected for the one that is sent on.
#[test]
fn several_handed_out(rt: HostRuntime) {
    let mut lent = Lent::open(&rt, 3, 1, 5);
    for (dest, amount, key) in [
        (1, 7, 65_536),
        (1, 1_000_000, 65_537),
        (1, 0, 65_538),
        (2, 50, 65_539),
        (1, 20, 65_540),
    ] {
        lent.check(&rt, Call::Accept { dest, amount }, Answer::Number(key));
    }
    check_sums(&rt, &mut lent, 0);
    for (key, amount, collected) in [
        (65_537, 1_000_000, 1_000_000),
        (65_536, 7, 1_000_007),
        (65_538, 0, 1_000_007),
    ] {
        lent.check(&rt, Call::HandOut { key }, Answer::Number(amount));
        check_sums(&rt, &mut lent, collected);
    }
    let sent = Slip {
        key: 65_539,
        step: 1,
        from: 1,
        to: 2,
        dest: 2,
        amount: 50,
    };
    lent.check(&rt, Call::Send { key: 65_539, to: 2 }, Answer::Given(sent));
    check_sums(&rt, &mut lent, 1_000_007);
    lent.check(&rt, Call::HandOut { key: 65_540 }, Answer::Number(20));
    check_sums(&rt, &mut lent, 1_000_027);
    check_shelf(&rt, &mut lent, &[]);
}

// Both calls, and their answers, as bytes.
#[test]
fn as_bytes(rt: HostRuntime) {
    let mut lent = Lent::open(&rt, 3, 1, 5);
    let largest = Slip {
        key: 4_294_967_295,
        ..COMING
    };
    let dearest = Call::Accept {
        dest: 1,
        amount: 1_000_000,
    };
    lent.check(&rt, Call::TakeIn { slip: largest }, Answer::Number(1));
    lent.check(&rt, dearest, Answer::Number(65_536));
    let mut session = Session::over(lent.opening, &mut lent.memory);
    // here from 65,537
    check_answer(
        &rt,
        &mut session,
        b"\x07\x01\x00\x01\x00",
        b"\x05\x02\x00\x00\x00\x00\x00\x00\x00\x00\x00\x00\x00\x01\x00\x00\x00",
    );
    // hand out 65,536
    check_answer(
        &rt,
        &mut session,
        b"\x04\x00\x00\x01\x00",
        b"\x01\x40\x42\x0f\x00\x00\x00\x00\x00",
    );
    // sums
    check_answer(
        &rt,
        &mut session,
        b"\x08",
        b"\x05\x40\x42\x0f\x00\x00\x00\x00\x00\x00\x00\x00\x00\x00\x00\x00\x00",
    );
}
