// Small books: what is put in is found and counted, and which key comes next.
use crate::lent::{
    LENT, changed, check_counts, check_full, check_has, check_has_not, check_put, empty_book,
    entry, opened,
};
use book::Book;

#[test]
fn keys_at_the_ends(rt: HostRuntime) {
    let mut memory = [LENT; 216];
    let mut book = empty_book(&rt, opened(&rt, 16, 0, 8), &mut memory);
    let keys = [65_536, 4_294_967_295, 0, 65_535];
    for key in keys {
        check_has_not(&rt, &book, key);
        check_put(&rt, &mut book, entry(key));
    }
    for key in keys {
        check_has(&rt, &book, entry(key));
        check_put(&rt, &mut book, changed(key));
        check_has(&rt, &book, changed(key));
    }
    check_counts(&rt, &book, 4, 2, Some(2));
}

// The keys of one bit, from the lowest bit on, and then 0, which comes to stand below these 32: in no tree does a row stand
// deeper.
#[test]
fn keys_of_one_bit(rt: HostRuntime) {
    let mut memory = [LENT; 816];
    let mut book = empty_book(&rt, opened(&rt, 16, 0, 33), &mut memory);
    let mut key = 1u32;
    for _ in 0..32 {
        check_put(&rt, &mut book, entry(key));
        key = key.wrapping_mul(2);
    }
    // no bit is left
    check_has_not(&rt, &book, key);
    check_put(&rt, &mut book, entry(key));
    check_has(&rt, &book, entry(0));
    check_full(&rt, &mut book, 3);
}

// After each entry: how many parcels there are, how many this office accepted, and the key of its next.
#[test]
fn next_keys(rt: HostRuntime) {
    let mut memory = [LENT; 96];
    let mut book = empty_book(&rt, opened(&rt, 4, 2, 3), &mut memory);
    check_counts(&rt, &book, 0, 0, Some(131_072));
    for (entry, count, accepted, next) in [
        (entry(131_072), 1, 1, Some(131_073)),
        // of another office
        (entry(196_608), 2, 1, Some(131_073)),
        // once more
        (changed(131_072), 2, 1, Some(131_073)),
        (entry(131_073), 3, 2, None),
    ] {
        check_put(&rt, &mut book, entry);
        check_counts(&rt, &book, count, accepted, next);
    }
}

#[test]
fn a_limit_of_0(rt: HostRuntime) {
    let mut memory = [LENT; 24];
    let mut book = empty_book(&rt, opened(&rt, 4, 2, 0), &mut memory);
    check_full(&rt, &mut book, 131_072);
    check_counts(&rt, &book, 0, 0, None);
}

// A book is left, and another one made over its memory.
#[test]
fn taken_up_again(rt: HostRuntime) {
    let opening = opened(&rt, 4, 2, 3);
    let mut memory = [LENT; 96];
    let memory = memory.as_mut_slice();
    let mut left = empty_book(&rt, opening, memory);
    check_put(&rt, &mut left, entry(131_072));
    check_put(&rt, &mut left, entry(65_536));
    let mut book = Book::over(opening, memory);
    check_counts(&rt, &book, 2, 1, Some(131_073));
    check_put(&rt, &mut book, entry(0));
    for key in [131_072, 65_536, 0] {
        check_has(&rt, &book, entry(key));
    }
    check_counts(&rt, &book, 3, 1, None);
}
