// A full book of the greatest limit.
ghost use Rattle.parcels.specs.Laws.{StepFits};

use crate::lent::{
    LENT, changed, check_counts, check_full, check_has, check_has_not, check_here, check_put,
    check_sums, empty_book, entry, opened,
};
use book::Book;
use book::key::KeyParts;
use parcels::{Entry, Kind};
use std::process::Abort;
use std::test::Fail;

// The keys of the test, from the lowest on: the first 4,096 of each of 16 offices.
fn key(n: u16) -> u32 {
    let parts = KeyParts {
        office: n / 4_096,
        before: n % 4_096,
    };
    parts.into()
}

// A parcel that counts in both sums as much as any can by the rules: it was handed out, and paid out.
fn dearest(key: u32) -> Entry
    ensures { StepFits result }
{
    Entry {
        key,
        step: 1,
        kind: Kind::HandedOut,
        to: 5,
        dest: 5,
        amount: 1_000_000,
        paid: true,
    }
}

// What is told of the full book in which all even keys but 0 are here, and then of one in which both sums come to more than
// four bytes hold.
fn check_told(rt: &impl Abort, book: &mut Book) {
    for (from, first) in [
        (0, Some(2)),
        (4_096, Some(65_536)),
        (987_134, Some(987_134)),
        (987_135, None),
    ] {
        check_here(rt, book, from, 32_767, first);
    }
    for n in 0..=u16::MAX {
        check_put(rt, book, dearest(key(n)));
    }
    check_here(rt, book, 0, 0, None);
    check_sums(rt, book, 65_536_000_000, 65_536_000_000);
}

// From the highest key down to 0, which comes to stand below 19 rows.
fn fill(rt: &impl Abort, book: &mut Book) {
    for n in (0..=u16::MAX).rev() {
        check_put(rt, book, entry(key(n)));
    }
    for n in 0..=u16::MAX {
        check_has(rt, book, entry(key(n)));
    }
}

#[test]
fn highest_key_first(rt: HostRuntime) -> Result<(), Fail> {
    let opening = opened(&rt, 16, 5, 65_536);
    let mut memory = vec![in rt.alloc(); LENT; opening.words() + 9]?;
    let mut book = empty_book(&rt, opening, memory.as_mut_slice());
    fill(&rt, &mut book);
    let not_added = 4_096;
    check_has_not(&rt, &book, not_added);
    check_full(&rt, &mut book, not_added);
    check_put(&rt, &mut book, changed(0));
    check_has(&rt, &book, changed(0));
    check_counts(&rt, &book, 65_536, 4_096, None);
    check_told(&rt, &mut book);
    let beyond = memory.as_slice().get(opening.words()..);
    assert!(rt; beyond == Some([LENT; 9].as_slice()));
    Ok(())
}
