// With which limits and in which memory a book is opened.
ghost use Rattle.std.specs.Prelude.{◌≤◌};

use crate::lent::{LENT, check_put, empty_book, entry, opened};
use book::opening::Opening;
use parcels::Refusal;
use std::process::Abort;

// A refusal as its numbers.
fn numbers(e: Refusal) -> (u8, u64) {
    (e.reason.into(), e.place)
}

// Limits, and how many words of memory they ask for.
#[test]
fn limits(rt: HostRuntime) {
    let refused = Err((3, 1));
    for (offices, own, parcels, words) in [
        (2, 0, 8, Ok(216)),
        (2, 1, 8, Ok(216)),
        (16, 15, 8, Ok(216)),
        (16, 15, 0, Ok(24)),
        (16, 15, 65_536, Ok(1_572_888)),
        (0, 0, 8, refused),
        (1, 0, 8, refused),
        (17, 0, 8, refused),
        (2, 2, 8, refused),
        (16, 16, 8, refused),
        (16, 15, 65_537, refused),
        (u32::MAX, 0, 8, refused),
        (16, u32::MAX, 8, refused),
        (16, 15, u32::MAX, refused),
    ] {
        let opened = Opening::new(offices, own, parcels);
        assert!(rt;
            opened.map(|x| x.words()).map_err(numbers) == words,
            "{own} of {offices} offices, {parcels} parcels"
        );
    }
}

// The words that two parcels ask for.
const ENOUGH: usize = 72;

#[test]
fn memory(rt: HostRuntime) {
    check_too_small::<0>(&rt);
    check_too_small::<71>(&rt);
    check_enough::<72>(&rt);
    check_enough::<73>(&rt);
    check_enough::<100>(&rt);
}

// It is refused, and each word stays.
fn check_too_small<const WORDS: usize>(rt: &impl Abort)
    requires few { WORDS ≤ 100 }
{
    let mut memory = [LENT; WORDS];
    let laid_out = opened(rt, 4, 2, 2).lay_out(&mut memory);
    assert_eq!(rt; laid_out.map_err(numbers), Err((3, 0)));
    assert!(rt; memory == [LENT; WORDS]);
}

// Both parcels can be put in. Each word beyond stays, when none was put in, and one, and both.
fn check_enough<const WORDS: usize>(rt: &impl Abort)
    requires few { WORDS ≤ 100 }
{
    for parcels in 0..=2 {
        let mut memory = [LENT; WORDS];
        let mut book = empty_book(rt, opened(rt, 4, 2, 2), &mut memory);
        for key in 0..parcels {
            check_put(rt, &mut book, entry(key));
        }
        for word in memory.iter().skip(ENOUGH) {
            assert_eq!(rt; *word, LENT);
        }
    }
}
