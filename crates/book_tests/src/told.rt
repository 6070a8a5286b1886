// What is here, and sums, by small books.
use crate::lent::{LENT, changed, check_here, check_put, check_sums, empty_book, entry, opened};

// After each entry: what is here, from key 0 on, and sums. The keys below 8 have each kind twice: paid out, and not.
#[test]
fn each_kind(rt: HostRuntime) {
    let mut memory = [LENT; 216];
    let mut book = empty_book(&rt, opened(&rt, 4, 2, 8), &mut memory);
    for (entry, count, first, collected, paid_out) in [
        // handed out, 35, paid out
        (entry(7), 0, None, 35, 35),
        // sent on, 25, paid out
        (entry(5), 0, None, 35, 60),
        // come in, 30, paid out
        (entry(6), 1, Some(6), 35, 90),
        // come in, 10
        (entry(2), 2, Some(2), 35, 90),
        // accepted, 20, paid out
        (entry(4), 3, Some(2), 35, 110),
        // sent on, 5
        (entry(1), 3, Some(2), 35, 110),
        // handed out, 15
        (entry(3), 3, Some(2), 50, 110),
        // accepted, 0
        (entry(0), 4, Some(0), 50, 110),
        // handed out, 4,294,967,291, paid out: both sums are more than four bytes hold
        (changed(0), 3, Some(2), 4_294_967_341, 4_294_967_401),
    ] {
        check_put(&rt, &mut book, entry);
        check_here(&rt, &book, 0, count, first);
        check_sums(&rt, &book, collected, paid_out);
    }
    for (from, first) in [
        (1, Some(2)),
        (2, Some(2)),
        (3, Some(4)),
        (5, Some(6)),
        (6, Some(6)),
        (7, None),
        (4_294_967_295, None),
    ] {
        check_here(&rt, &book, from, 3, first);
    }
}

// An empty book, and one with the largest key that four bytes hold.
#[test]
fn the_largest_key(rt: HostRuntime) {
    let largest = 4_294_967_295;
    let mut memory = [LENT; 216];
    let mut book = empty_book(&rt, opened(&rt, 4, 2, 8), &mut memory);
    check_here(&rt, &book, 0, 0, None);
    check_here(&rt, &book, largest, 0, None);
    check_sums(&rt, &book, 0, 0);
    // both are here
    check_put(&rt, &mut book, changed(largest));
    check_put(&rt, &mut book, entry(0));
    for (from, first) in [(0, 0), (1, largest), (largest, largest)] {
        check_here(&rt, &book, from, 2, Some(first));
    }
}
