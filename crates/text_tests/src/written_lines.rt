// Each form of line as it is written, read and written again.
use lines::{Line, read_line};
use std::test::Fail;

#[test]
fn lines(rt: HostRuntime) -> Result<(), Fail> {
    let texts = [
        "",
        "3 offices, 8 parcels",
        "at 1: accept for 2, 50",
        "at 2: send 3 to 4",
        "at 3: slip 4294967295",
        "at 4: take in 5: 6 7 8 9 10",
        "at 5: hand out 11",
        "at 6: pay 12",
        "at 7: where is 13",
        "at 8: here from 14",
        "at 9: sums",
        "at 1: bytes 9 0 10 255",
        "at 2: bytes",
        "at 3: tick",
        "all clocks tick",
        "letter 4 comes",
        "all letters come",
        "all letters come, the last first",
    ];
    for text in texts {
        let line = read_line(rt.alloc(), text.as_bytes())?;
        assert_eq!(rt; line.to_string(rt.alloc())?.as_str(), text);
    }
    Ok(())
}

// A line that was read with other blanks and zeros, and one that was not read, are written in the same form.
#[test]
fn one_form(rt: HostRuntime) -> Result<(), Fail> {
    let heap = rt.alloc();
    let read = read_line(heap, b"\tat2 :slip 007 ")?;
    assert_eq!(rt; read.to_string(heap)?.as_str(), "at 2: slip 7");
    let made = Line::Opening {
        offices: 3,
        parcels: 8,
    };
    assert_eq!(rt; made.to_string(heap)?.as_str(), "3 offices, 8 parcels");
    Ok(())
}
