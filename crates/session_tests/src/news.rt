// Letters that an office hears, and ticks of its clock: in this stage they change nothing, and no letter is sent.
ghost use Rattle.std.specs.Prelude.{◌≤◌};

use crate::lent::{LENT_BYTE, Lent, check_lent};
use parcels::{Answer, Call};
use session::Session;
use std::process::Abort;

// One of three offices, with a limit of five parcels, asks for 240 bytes where it hears a letter, and for 400 at a tick.
#[test]
fn letters_and_ticks(rt: HostRuntime) {
    let mut lent = Lent::open(&rt, 3, 1, 5);
    let accept = Call::Accept {
        dest: 2,
        amount: 50,
    };
    assert!(rt; lent.call(&rt, accept) == Answer::Number(65_536));
    assert!(rt; lent.call(&rt, accept) == Answer::Number(65_537));
    let sent = lent.call(&rt, Call::Send { key: 65_537, to: 0 });
    check_news::<239>(&rt, &mut lent, None, None);
    check_news::<240>(&rt, &mut lent, Some(0), None);
    check_news::<399>(&rt, &mut lent, Some(0), None);
    check_news::<400>(&rt, &mut lent, Some(0), Some(0));
    assert!(rt; lent.call(&rt, Call::SlipAgain { key: 65_537 }) == sent);
}

// Where no parcel can ever be, a tick asks for no bytes.
#[test]
fn a_limit_of_0(rt: HostRuntime) {
    let mut lent = Lent::open(&rt, 3, 1, 0);
    check_news::<0>(&rt, &mut lent, None, Some(0));
}

// This is how many letters an office sends for any bytes that it hears as a letter, and for a tick, where so many bytes are
// lent for them. Each word, and each of these bytes, stays.
fn check_news<const BYTES: usize>(
    rt: &impl Abort,
    lent: &mut Lent,
    heard: Option<usize>,
    ticked: Option<usize>,
)
    requires few { BYTES ≤ 400 }
{
    let rows: &[&[u8]] = &[
        b"",
        b"\x08",
        // as a call: send 65,536 to 2
        b"\x01\x00\x00\x01\x00\x02\x00\x00\x00",
        &[0xff; 64],
        &[0; 80],
    ];
    for letter in rows {
        check_heard::<BYTES>(rt, lent, letter, heard);
    }
    let before = lent.memory;
    let mut letters = [LENT_BYTE; BYTES];
    let sent = Session::over(lent.opening, &mut lent.memory).tick(&mut letters);
    assert!(rt; sent == ticked);
    check_lent(rt, &letters);
    assert!(rt; lent.memory == before);
}

// This is how many letters an office sends for one that it hears. Each word, and each byte that is lent for them, stays.
fn check_heard<const BYTES: usize>(
    rt: &impl Abort,
    lent: &mut Lent,
    letter: &[u8],
    heard: Option<usize>,
)
    requires few { BYTES ≤ 400 }
{
    let before = lent.memory;
    let mut letters = [LENT_BYTE; BYTES];
    let sent = Session::over(lent.opening, &mut lent.memory).hear(letter, &mut letters);
    assert!(rt; sent == heard, "{letter:?}");
    check_lent(rt, &letters);
    assert!(rt; lent.memory == before);
}
