// Letters in three envelopes: which bytes are written, and what is read from them.
ghost use Rattle.std.specs.Prelude.{◌≤◌};

use crate::lent::{LENT_BYTE, check_lent};
use letters::{Envelope, write_letter};
use std::process::Abort;

// As many bytes as three envelopes ask for, and five more.
const BYTES: usize = 245;

#[test]
fn written(rt: HostRuntime) {
    check_written(&rt, b"", b"\x00\x00\x00\x00");
    check_written(&rt, b"\x05\x06\x07", b"\x03\x00\x00\x00");
    check_written(&rt, &[9; 64], b"\x40\x00\x00\x00");
}

// The letter is put into the second envelope, with these bytes as its length, and read back. The first envelope stays.
fn check_written(rt: &impl Abort, text: &[u8], length: &[u8]) {
    let mut lent = [LENT_BYTE; BYTES];
    assert!(rt; write_letter(0x0403_0201, text, 1, &mut lent).is_some());
    let (first, second) = lent.split_at(80);
    check_lent(rt, first);
    check_bytes(
        rt,
        second,
        &[b"\x01\x02\x03\x04", length, &[LENT_BYTE; 8], text],
    );
    check_read(rt, &lent, text);
}

// The letter is read from the second envelope.
fn check_read(rt: &impl Abort, lent: &[u8], text: &[u8]) {
    let Some(envelope) = Envelope::nth(lent, 1) else {
        panic!(rt; "no envelope");
    };
    assert_eq!(rt; envelope.office(), 0x0403_0201);
    assert_eq!(rt; envelope.letter(), text);
}

// The bytes are these parts, one behind the other, and then bytes as they were lent.
fn check_bytes(rt: &impl Abort, bytes: &[u8], parts: &[&[u8]]) {
    let mut rest = bytes;
    for part in parts {
        let Some(behind) = rest.strip_prefix(part) else {
            panic!(rt; "no {part:?} in {bytes:?}");
        };
        rest = behind;
    }
    check_lent(rt, rest);
}

#[test]
fn refused(rt: HostRuntime) {
    check_refused::<BYTES>(&rt, &[9; 65], 1);
    check_refused::<BYTES>(&rt, b"\x05", 3);
    check_refused::<239>(&rt, b"\x05", 2);
    assert!(rt; Envelope::nth(&[LENT_BYTE; BYTES], 3).is_none());
}

// The letter can't be put into this envelope of so many lent bytes, and each of them stays.
fn check_refused<const BYTES: usize>(rt: &impl Abort, text: &[u8], nth: usize)
    requires few { BYTES ≤ 245 }
{
    let mut lent = [LENT_BYTE; BYTES];
    assert!(rt; write_letter(1, text, nth, &mut lent).is_none());
    check_lent(rt, &lent);
}

// A head that says that its letter is longer than there is room.
#[test]
fn too_long(rt: HostRuntime) {
    let mut lent = [LENT_BYTE; 80];
    check_cut(&rt, &lent);
    lent[4..8].copy_from_slice(b"\x41\x00\x00\x00");
    check_cut(&rt, &lent);
}

// The first envelope's letter is as long as there is room.
fn check_cut(rt: &impl Abort, lent: &[u8]) {
    let Some(envelope) = Envelope::nth(lent, 0) else {
        panic!(rt; "no envelope");
    };
    assert_eq!(rt; envelope.letter(), [LENT_BYTE; 64].as_slice());
}
