// Each form of line, with numbers that differ, so that no two fields can be exchanged unnoticed.
use crate::shown::check_lines;
use std::test::Fail;

#[test]
fn calls(rt: HostRuntime) -> Result<(), Fail> {
    check_lines(
        &rt,
        &[
            (b"at 1: accept for 2, 50", "at=1 accept dest=2 amount=50"),
            (b"at 2: send 3 to 4", "at=2 send key=3 to=4"),
            (b"at 3: slip 9", "at=3 slip key=9"),
            (
                b"at 4: take in 5: 6 7 8 9 10",
                "at=4 take in key=5 step=6 from=7 to=8 dest=9 amount=10",
            ),
            (b"at 5: hand out 11", "at=5 hand out key=11"),
            (b"at 6: pay 12", "at=6 pay key=12"),
            (b"at 7: where is 13", "at=7 where is key=13"),
            (b"at 8: here from 14", "at=8 here from=14"),
            (b"at 9: sums", "at=9 sums"),
        ],
    )
}

#[test]
fn other_lines(rt: HostRuntime) -> Result<(), Fail> {
    check_lines(
        &rt,
        &[
            (b"3 offices, 8 parcels", "offices=3 parcels=8"),
            (b"at 1: bytes 9 0 10 255", "at=1 bytes=[9, 0, 10, 255]"),
            (b"at 2: bytes", "at=2 bytes=[]"),
            (b"at 3: tick", "at=3 tick"),
            (b"all clocks tick", "all tick"),
            (b"letter 4 comes", "letter=4"),
            (b"all letters come", "all letters"),
            (
                b"all letters come, the last first",
                "all letters, last first",
            ),
            (b"", "blank"),
            (b" \t\r", "blank"),
            (b" \t# at 0: \xff\xfe", "blank"),
        ],
    )
}

// Tokens are cut where the class of byte changes, and each blank may stand at each cut.
#[test]
fn blanks_between_tokens(rt: HostRuntime) -> Result<(), Fail> {
    check_lines(
        &rt,
        &[
            (b"at 2: sums\r", "at=2 sums"),
            (b"\t at\t2\r : \tsums  ", "at=2 sums"),
            (b"at2:slip3", "at=2 slip key=3"),
            (b"3offices,8parcels", "offices=3 parcels=8"),
            (b"at 0: bytes 1\t2\r", "at=0 bytes=[1, 2]"),
            (
                b"all letters come  ,  the last first",
                "all letters, last first",
            ),
        ],
    )
}

#[test]
fn numbers(rt: HostRuntime) -> Result<(), Fail> {
    check_lines(
        &rt,
        &[
            (b"at 0: slip 4294967295", "at=0 slip key=4294967295"),
            (b"at 4294967295: pay 1", "at=4294967295 pay key=1"),
            (
                b"at 0: slip 00000000000000000000000000000012",
                "at=0 slip key=12",
            ),
            (b"at 0: bytes 0000255", "at=0 bytes=[255]"),
        ],
    )
}
