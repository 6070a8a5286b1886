// Rows that are no call, each with the place where it ceases to be one.
use std::process::Abort;
use std::test::Fail;
use wire::{UnreadableCall, read_call};

pub(crate) fn check_no_calls(rt: &(impl Abort + AllocGlobal)) -> Result<(), Fail> {
    check_places(
        rt,
        &[
            // no first byte, or one that no call has, whatever follows
            (b"", 0),
            (b"\x09", 0),
            (b"\xff", 0),
            (b"\x09\x01\x02\x03\x04", 0),
            (b"\xff\x01\x02\x03\x04\x05\x06\x07\x08", 0),
            // only the first byte
            (b"\x00", 1),
            (b"\x01", 1),
            (b"\x02", 1),
            (b"\x03", 1),
            (b"\x04", 1),
            (b"\x05", 1),
            (b"\x06", 1),
            (b"\x07", 1),
            // in the middle of a field, and between two
            (b"\x00\x01\x02", 3),
            (b"\x00\x01\x02\x03\x04", 5),
            (b"\x01\x01\x02\x03\x04\x05\x06", 7),
            (b"\x05\x01\x02", 3),
            (b"\x03\x01\x02\x03\x04\x05\x06\x07\x08", 9),
            (b"\x03\x01\x02\x03\x04\x05\x06\x07\x08\x09\x0a", 11),
            // one byte short
            (b"\x00\x01\x02\x03\x04\x05\x06\x07", 8),
            (b"\x01\x01\x02\x03\x04\x05\x06\x07", 8),
            (b"\x02\x01\x02\x03", 4),
            (
                b"\x03\
                  \x01\x02\x03\x04\
                  \x05\x06\x07\x08\
                  \x09\x0a\x0b\x0c\
                  \x0d\x0e\x0f\x10\
                  \x11\x12\x13\x14\
                  \x15\x16\x17",
                24,
            ),
            (b"\x04\x01\x02\x03", 4),
            (b"\x05\x01\x02\x03", 4),
            (b"\x06\x01\x02\x03", 4),
            (b"\x07\x01\x02\x03", 4),
            // one byte too long
            (b"\x00\x01\x02\x03\x04\x05\x06\x07\x08\x09", 9),
            (b"\x01\x01\x02\x03\x04\x05\x06\x07\x08\x09", 9),
            (b"\x02\x01\x02\x03\x04\x05", 5),
            (
                b"\x03\
                  \x01\x02\x03\x04\
                  \x05\x06\x07\x08\
                  \x09\x0a\x0b\x0c\
                  \x0d\x0e\x0f\x10\
                  \x11\x12\x13\x14\
                  \x15\x16\x17\x18\
                  \x19",
                25,
            ),
            (b"\x04\x01\x02\x03\x04\x05", 5),
            (b"\x05\x01\x02\x03\x04\x05", 5),
            (b"\x06\x01\x02\x03\x04\x05", 5),
            (b"\x07\x01\x02\x03\x04\x05", 5),
            (b"\x08\x00", 1),
            // several too long
            (b"\x00\x01\x02\x03\x04\x05\x06\x07\x08\x09\x0a\x0b", 9),
            (b"\x07\x01\x02\x03\x04\x05\x06\x07\x08", 5),
            (b"\x08\x08\x08\x08\x08", 1),
        ],
    );
    // very long rows, of one byte each
    for (byte, place) in [(0, 9), (1, 9), (2, 5), (3, 25), (7, 5), (8, 1), (9, 0)] {
        let row = vec![in rt.alloc(); byte; 1_000_000]?;
        assert!(rt;
            read_call(row.as_slice()) == Err(UnreadableCall { place }),
            "many of {byte}"
        );
    }
    Ok(())
}

fn check_places(rt: &impl Abort, table: &[(&[u8], u64)]) {
    for (row, place) in table {
        let place = *place;
        assert!(rt;
            read_call(row) == Err(UnreadableCall { place }),
            "{row:?} at {place}"
        );
    }
}
