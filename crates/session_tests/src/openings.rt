// With which limits and in which memory an office opens, and which words it writes.
ghost use Rattle.std.specs.Prelude.{◌≤◌};

use crate::lent::{LENT, numbers};
use session::Session;
use std::process::Abort;

#[test]
fn openings(rt: HostRuntime) {
    check::<71>(&rt, 4, 2, 2, Some((3, 0)));
    check::<0>(&rt, 4, 2, 0, Some((3, 0)));
    check::<23>(&rt, 4, 2, 0, Some((3, 0)));
    check::<72>(&rt, 4, 2, 2, None);
    check::<100>(&rt, 16, 15, 2, None);
    check::<24>(&rt, 2, 0, 0, None);
    for (offices, own, parcels) in [
        (1, 0, 2),
        (17, 0, 2),
        (4, 4, 2),
        (4, 2, 65_537),
        (u32::MAX, u32::MAX, u32::MAX),
    ] {
        check::<72>(&rt, offices, own, parcels, Some((3, 1)));
        // the limits are told first
        check::<0>(&rt, offices, own, parcels, Some((3, 1)));
    }
}

// The office is opened over so many words, and writes three of its head; or it is refused with these numbers, and each
// word stays.
fn check<const WORDS: usize>(
    rt: &impl Abort,
    offices: u32,
    own: u32,
    parcels: u32,
    refused: Option<(u8, u64)>,
)
    requires few { WORDS ≤ 100 }
{
    let mut memory = [LENT; WORDS];
    let opened = Session::open(offices, own, parcels, &mut memory);
    assert!(rt;
        opened.err().map(numbers) == refused,
        "{own} of {offices} offices, {parcels} parcels"
    );
    check_words(rt, &memory, refused.is_none());
}

// Three words of the head are 0, where the office opened. Each other word stayed.
fn check_words(rt: &impl Abort, memory: &[u32], opened: bool) {
    for (i, word) in memory.iter().enumerate() {
        let written = opened && matches!(i, 0 | 1 | 7);
        assert_eq!(rt; *word, if written { 0 } else { LENT });
    }
}
