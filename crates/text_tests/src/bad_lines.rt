// Each bad line, with what is said of it.
use crate::shown::{check_example, check_lines, show};
use lines::{Line, read_line};
use std::test::Fail;

const A_LINE: &str =
    "expected a line such as '3 offices, 8 parcels', 'at 0: sums', 'all clocks tick' or '# a comment'";

const A_CALL: &str =
    "expected accept, send, slip, take in, hand out, pay, where is, here, sums, bytes or tick, as in 'at 0: sums'";

const NOT_ASCII: &str =
    "a byte order mark, or another byte that is not ASCII: expected plain text, as in '3 offices, 8 parcels'";

const TOO_LARGE: &str = "a number that is too large: expected at most 4294967295";

#[test]
fn beginnings(rt: HostRuntime) -> Result<(), Fail> {
    check_lines(
        &rt,
        &[
            (b"office 0: sums", A_LINE),
            (b"At 0: sums", A_LINE),
            (b"atat 0: sums", A_LINE),
            (b": at 0 sums", A_LINE),
            (b"\xff\xfe", NOT_ASCII),
            (b"\xef\xbb\xbf3 offices, 8 parcels", NOT_ASCII),
            (b"\x80", NOT_ASCII),
            (b"\x7f", A_LINE),
            (b"\x00", A_LINE),
            (b"\n", A_LINE),
            (b"at", "expected a number, as in 'at 0: sums'"),
            (b"at #", "expected a number, as in 'at 0: sums'"),
            (b"at sums", "expected a number, as in 'at 0: sums'"),
            (
                b"at -1: sums",
                "expected a number without a sign, as in 'at 0: sums'",
            ),
            (b"at 0 sums", "expected ':', as in 'at 0: sums'"),
            (b"at 0", "expected ':', as in 'at 0: sums'"),
            (b"at 0:", A_CALL),
            (b"at 0: 5", A_CALL),
            (
                b"at 0: \xc3\xa9",
                "a byte order mark, or another byte that is not ASCII: expected plain text, as in 'at 0: sums'",
            ),
            (
                b"at\xc2\xa00: sums",
                "a byte order mark, or another byte that is not ASCII: expected plain text, as in 'at 0: sums'",
            ),
            (b"at 0: Sums", A_CALL),
            (b"at 0: ticks", A_CALL),
            (b"at 0: in take 1", A_CALL),
        ],
    )
}

#[test]
fn calls(rt: HostRuntime) -> Result<(), Fail> {
    check_lines(
        &rt,
        &[
            (
                b"at 0: accept 2, 50",
                "expected 'for', as in 'at 0: accept for 2, 50'",
            ),
            (
                b"at 0: accept for",
                "expected a number, as in 'at 0: accept for 2, 50'",
            ),
            (
                b"at 0: accept for 2 50",
                "expected ',', as in 'at 0: accept for 2, 50'",
            ),
            (
                b"at 0: accept for 2,",
                "expected a number, as in 'at 0: accept for 2, 50'",
            ),
            (
                b"at 0: send to 1",
                "expected a number, as in 'at 0: send 0 to 1'",
            ),
            (
                b"at 0: send 0 1",
                "expected 'to', as in 'at 0: send 0 to 1'",
            ),
            (
                b"at 0: send 0 to",
                "expected a number, as in 'at 0: send 0 to 1'",
            ),
            (b"at 0: slip", "expected a number, as in 'at 0: slip 0'"),
            (
                b"at 0: take 0: 1 0 1 2 50",
                "expected 'in', as in 'at 1: take in 0: 1 0 1 2 50'",
            ),
            (
                b"at 0: take in : 1 0 1 2 50",
                "expected a number, as in 'at 1: take in 0: 1 0 1 2 50'",
            ),
            (
                b"at 0: take in 0 1 0 1 2 50",
                "expected ':', as in 'at 1: take in 0: 1 0 1 2 50'",
            ),
            (
                b"at 0: take in 0: 1 0 1 2",
                "expected a number, as in 'at 1: take in 0: 1 0 1 2 50'",
            ),
            (
                b"at 0: take in 0: 1 0 1 2 50 3",
                "expected the end of the line, as in 'at 1: take in 0: 1 0 1 2 50'",
            ),
            (b"at 0: hand 0", "expected 'out', as in 'at 1: hand out 0'"),
            (
                b"at 0: hand out",
                "expected a number, as in 'at 1: hand out 0'",
            ),
            (b"at 0: pay out", "expected a number, as in 'at 0: pay 0'"),
            (b"at 0: where 0", "expected 'is', as in 'at 0: where is 0'"),
            (
                b"at 0: where is it",
                "expected a number, as in 'at 0: where is 0'",
            ),
            (
                b"at 0: here 0",
                "expected 'from', as in 'at 1: here from 0'",
            ),
            (
                b"at 0: here from",
                "expected a number, as in 'at 1: here from 0'",
            ),
            (
                b"at 0: sums 0",
                "expected the end of the line, as in 'at 2: sums'",
            ),
            (
                b"at 0: tick # late",
                "expected the end of the line (a comment has a line of its own), as in 'at 0: tick'",
            ),
            (
                b"at 0: slip 0 \xff",
                "a byte order mark, or another byte that is not ASCII: expected plain text, as in 'at 0: slip 0'",
            ),
        ],
    )
}

#[test]
fn other_lines(rt: HostRuntime) -> Result<(), Fail> {
    check_lines(
        &rt,
        &[
            (b"3", "expected 'offices', as in '3 offices, 8 parcels'"),
            (
                b"3 parcels, 8 offices",
                "expected 'offices', as in '3 offices, 8 parcels'",
            ),
            (
                b"3 offices 8 parcels",
                "expected ',', as in '3 offices, 8 parcels'",
            ),
            (
                b"3 offices, parcels",
                "expected a number, as in '3 offices, 8 parcels'",
            ),
            (
                b"3 offices, 8",
                "expected 'parcels', as in '3 offices, 8 parcels'",
            ),
            (
                b"3 offices, 8 parcels.",
                "expected the end of the line, as in '3 offices, 8 parcels'",
            ),
            (b"letter comes", "expected a number, as in 'letter 0 comes'"),
            (b"letter 0 come", "expected 'comes', as in 'letter 0 comes'"),
            (
                b"letter 0 comes in",
                "expected the end of the line, as in 'letter 0 comes'",
            ),
            (
                b"all",
                "expected 'clocks' or 'letters', as in 'all clocks tick'",
            ),
            (
                b"all letter come",
                "expected 'clocks' or 'letters', as in 'all clocks tick'",
            ),
            (b"all clocks", "expected 'tick', as in 'all clocks tick'"),
            (b"all letters", "expected 'come', as in 'all letters come'"),
            (
                b"all letters come the last first",
                "expected the end of the line, as in 'all letters come, the last first'",
            ),
            (
                b"all letters come,",
                "expected 'the', as in 'all letters come, the last first'",
            ),
            (
                b"all letters come, the first last",
                "expected 'last', as in 'all letters come, the last first'",
            ),
            (
                b"all letters come, the last",
                "expected 'first', as in 'all letters come, the last first'",
            ),
            (
                b"all letters come, the last first,",
                "expected the end of the line, as in 'all letters come, the last first'",
            ),
        ],
    )
}

#[test]
fn numbers(rt: HostRuntime) -> Result<(), Fail> {
    check_lines(
        &rt,
        &[
            (b"at 0: slip 4294967296", TOO_LARGE),
            (b"at 0: slip 4294967300", TOO_LARGE),
            (b"at 0: slip 42949672950", TOO_LARGE),
            (b"at 0: slip 123456789012345678901234567890", TOO_LARGE),
            (b"at 4294967296: sums", TOO_LARGE),
            (b"at 0: take in 0: 4294967296 0 1 2 50", TOO_LARGE),
            (b"4294967296 offices, 8 parcels", TOO_LARGE),
            (b"3 offices, 4294967296 parcels", TOO_LARGE),
            (b"letter 4294967296 comes", TOO_LARGE),
            (
                b"at 0: bytes 256",
                "expected a byte from 0 to 255, as in 'at 0: bytes 9 0 0 0 0'",
            ),
            (
                b"at 0: bytes 1 4294967297",
                "expected a byte from 0 to 255, as in 'at 0: bytes 9 0 0 0 0'",
            ),
            (
                b"at 0: bytes 1, 2",
                "expected a byte from 0 to 255, as in 'at 0: bytes 9 0 0 0 0'",
            ),
            (
                b"at 0: bytes a",
                "expected a byte from 0 to 255, as in 'at 0: bytes 9 0 0 0 0'",
            ),
        ],
    )
}

// The first and last letters and digits, and the bytes beside them.
#[test]
fn edges_of_classes(rt: HostRuntime) -> Result<(), Fail> {
    let end = "expected the end of the line, as in 'at 2: sums'";
    let slip_end = "expected the end of the line, as in 'at 0: slip 0'";
    check_lines(
        &rt,
        &[
            (b"ata 0: sums", A_LINE),
            (b"atz 0: sums", A_LINE),
            (b"atA 0: sums", A_LINE),
            (b"atZ 0: sums", A_LINE),
            (b"at 0: sums@", end),
            (b"at 0: sums[", end),
            (b"at 0: sums`", end),
            (b"at 0: sums{", end),
            (b"at 0: slip 5/", slip_end),
            (b"at 0: slip 5:", slip_end),
            (b"at 0: sums\n", end),
            (b"at 0: sums\x0b", end),
            (b"at 0: sums\x00", end),
        ],
    )
}

// The example that is shown with each form of line is itself a line.
#[test]
fn examples(rt: HostRuntime) -> Result<(), Fail> {
    let bad_lines: [&[u8]; 18] = [
        b"\xef",
        b"at",
        b"3",
        b"letter",
        b"all",
        b"all letters",
        b"all letters come,",
        b"at 0: accept",
        b"at 0: send",
        b"at 0: slip",
        b"at 0: take",
        b"at 0: hand",
        b"at 0: pay",
        b"at 0: where",
        b"at 0: here",
        b"at 0: sums 0",
        b"at 0: bytes x",
        b"at 0: tick 0",
    ];
    for line in bad_lines {
        check_example(&rt, line)?;
    }
    Ok(())
}

// Lines of a million bytes are answered at once.
#[test]
fn long_lines(rt: HostRuntime) -> Result<(), Fail> {
    let heap = rt.alloc();
    let table = [
        (b'a', A_LINE),
        (b'7', TOO_LARGE),
        (b' ', "blank"),
        (b'#', "blank"),
        (b':', A_LINE),
        (0xff, NOT_ASCII),
    ];
    for (byte, expected) in table {
        let line = vec![in heap; byte; 1_000_000]?;
        assert_eq!(rt; show(heap, line.as_slice())?.as_str(), expected);
    }
    Ok(())
}

#[test]
fn many_bytes(rt: HostRuntime) -> Result<(), Fail> {
    let heap = rt.alloc();
    let mut line = Vec::from_slice(heap, b"at 0: bytes")?;
    for _ in 0..500_000 {
        line.extend_from_slice(b" 7")?;
    }
    match read_line(heap, line.as_slice())? {
        Line::Bytes { at: 0, bytes } => {
            assert_eq!(rt; bytes.len(), 500_000);
            Ok(())
        },
        _ => Err(Fail::new("not read as bytes")),
    }
}
