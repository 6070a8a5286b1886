// Files that can be played to their end, and files with a bad line.
use crate::shown::check;
use player::{locate, play};
use programs::BUDGET;
use std::test::Fail;

const NOT_OPENED: &str =
    "line 1: the offices are not open yet: expected a line such as '3 offices, 8 parcels' first";

const LIMITS: &str =
    "line 1: expected 2 to 4 offices and at most 64 parcels, as in '3 offices, 8 parcels'";

const NEVER_OPENED: &str =
    "the file ends before the offices are open: expected a line such as '3 offices, 8 parcels'";

#[test]
fn calls(rt: HostRuntime) -> Result<(), Fail> {
    check(
        &rt,
        |heap, file| play(heap, file, BUDGET),
        &[
            (b"2 offices, 0 parcels", ""),
            (
                b"2 offices, 0 parcels\nat 0: accept for 1, 50\n",
                "refused 9 at 0\n",
            ),
            (
                b"4 offices, 64 parcels\nat 3: accept for 2, 50\n",
                "196608\n",
            ),
            (
                b"# a comment\n\n3 offices, 8 parcels\r\nat 0: accept for 2, 50\r\nat 0: send 0 to 1\r\n",
                "0\nslip 0: 1 0 1 2 50\n",
            ),
            (
                b"3 offices, 8 parcels\nat 0: slip 0\nat 1: hand out 0\n",
                "refused 4 at 0\nrefused 4 at 0\n",
            ),
            (
                b"3 offices, 8 parcels\nat 0: pay 0\nat 0: where is 0\n",
                "refused 2 at 0\nrefused 2 at 0\n",
            ),
            (
                b"3 offices, 8 parcels\nat 1: here from 0\nat 2: sums",
                "0 0\n0 0\n",
            ),
            (
                b"3 offices, 8 parcels\nat 1: accept for 1, 50\nat 1: here from 0\nat 1: hand out 65536\nat 1: here from 0\nat 1: sums",
                "65536\n1 65537\n50\n0 0\n50 0\n",
            ),
            (
                b"3 offices, 8 parcels\nat 2: tick\nall clocks tick\nall letters come\nall letters come, the last first",
                "",
            ),
        ],
    )
}

// A call that comes as bytes is answered as that call; a row that is no call, by 1 at its place.
#[test]
fn rows_of_bytes(rt: HostRuntime) -> Result<(), Fail> {
    check(
        &rt,
        |heap, file| play(heap, file, BUDGET),
        &[
            (
                b"3 offices, 8 parcels\nat 0: bytes 0 2 0 0 0 50 0 0 0\nat 0: bytes 1 0 0 0 0 1 0 0 0\nat 0: bytes 1 0 0 0 0 0 0 0 0\n",
                "0\nslip 0: 1 0 1 2 50\nrefused 2 at 1\n",
            ),
            (
                b"3 offices, 8 parcels\nat 2: bytes 8\nat 2: bytes 7 255 255 255 255\n",
                "0 0\n0 0\n",
            ),
            (
                b"3 offices, 8 parcels\nat 0: bytes\nat 0: bytes 9 0 0 0 0\nat 0: bytes 255\n",
                "refused 1 at 0\nrefused 1 at 0\nrefused 1 at 0\n",
            ),
            (
                b"3 offices, 8 parcels\nat 0: bytes 1\nat 0: bytes 1 0 0 0 0 1 0 0\n",
                "refused 1 at 1\nrefused 1 at 8\n",
            ),
            (
                b"3 offices, 8 parcels\nat 0: bytes 8 8\nat 0: bytes 2 0 0 0 0 0 0 0\n",
                "refused 1 at 1\nrefused 1 at 5\n",
            ),
            (
                b"3 offices, 8 parcels\nat 0: accept for 2, 50\nat 0: send 0 to 1\nat 1: bytes 3 0 0 0 0 1 0 0 0 0 0 0 0 1 0 0 0 2 0 0 0 50 0 0 0\n",
                "0\nslip 0: 1 0 1 2 50\n2\n",
            ),
            (
                b"3 offices, 8 parcels\nat 1: bytes 3 0 0 0 0 1 0 0 0 0 0 0 0 1 0 0 0 2 0 0 0 50 0 0 0\n",
                "line 2: a slip that was never given out: an answer 'slip 0: 1 0 1 2 50' is taken in by 'take in 0: 1 0 1 2 50'",
            ),
            (
                b"3 offices, 8 parcels\nat 1: bytes 3 0 0 0 0 1 0 0 0 0 0 0 0 1 0 0 0 2 0 0 0 50 0 0\n",
                "refused 1 at 24\n",
            ),
        ],
    )
}

#[test]
fn openings(rt: HostRuntime) -> Result<(), Fail> {
    check(
        &rt,
        |heap, file| play(heap, file, BUDGET),
        &[
            (b"at 0: sums", NOT_OPENED),
            (b"all clocks tick", NOT_OPENED),
            (b"0 offices, 8 parcels", LIMITS),
            (b"1 offices, 8 parcels", LIMITS),
            (b"5 offices, 8 parcels", LIMITS),
            (b"4294967295 offices, 8 parcels", LIMITS),
            (b"3 offices, 65 parcels", LIMITS),
            (
                b"\n2 offices, 1 parcels\n3 offices, 8 parcels",
                "line 3: the offices are open already: another world has a file of its own",
            ),
        ],
    )
}

// Files that open no offices: the line is missing behind their last one.
#[test]
fn never_opened(rt: HostRuntime) -> Result<(), Fail> {
    let heap = rt.alloc();
    let files: [(&[u8], u8); 4] = [
        (b"", 1),
        (b"\n", 2),
        (b"# nothing\n\n", 3),
        (b"\n# nothing", 3),
    ];
    for (file, line) in files {
        let expected = format!(in heap; "line {line}: {NEVER_OPENED}")?;
        check(
            &rt,
            |heap, file| play(heap, file, BUDGET),
            &[(file, expected.as_str())],
        )?;
        check(
            &rt,
            |heap, file| locate(heap, file, BUDGET),
            &[(file, expected.as_str())],
        )?;
    }
    Ok(())
}

#[test]
fn what_cannot_happen(rt: HostRuntime) -> Result<(), Fail> {
    check(
        &rt,
        |heap, file| play(heap, file, BUDGET),
        &[
            (
                b"3 offices, 8 parcels\nat 2: sums\nat 3: sums\nat 0: sums",
                "0 0\nline 3: an office that is not there: offices are numbered from 0, so the last of 3 is 2",
            ),
            (
                b"3 offices, 8 parcels\nat 3: tick",
                "line 2: an office that is not there: offices are numbered from 0, so the last of 3 is 2",
            ),
            (
                b"3 offices, 8 parcels\nat 3: bytes",
                "line 2: an office that is not there: offices are numbered from 0, so the last of 3 is 2",
            ),
            (
                b"3 offices, 8 parcels\nat 4294967295: sums",
                "line 2: an office that is not there: offices are numbered from 0, so the last of 3 is 2",
            ),
            (
                b"3 offices, 8 parcels\nat 0: sums\nat 1: take in 0: 1 0 1 2 50\n",
                "0 0\nline 3: a slip that was never given out: an answer 'slip 0: 1 0 1 2 50' is taken in by 'take in 0: 1 0 1 2 50'",
            ),
            (
                b"3 offices, 8 parcels\nat 0: accept for 2, 50\nat 0: send 0 to 1\nat 1: take in 0: 1 0 1 2 51\n",
                "0\nslip 0: 1 0 1 2 50\nline 4: a slip that was never given out: an answer 'slip 0: 1 0 1 2 50' is taken in by 'take in 0: 1 0 1 2 50'",
            ),
            (
                b"3 offices, 8 parcels\nat 3: take in 0: 1 0 1 2 50\n",
                "line 2: an office that is not there: offices are numbered from 0, so the last of 3 is 2",
            ),
            (
                b"3 offices, 8 parcels\nletter 0 comes\n",
                "line 2: a letter that was never sent: offices send none yet",
            ),
            (
                b"3 offices, 8 parcels\nat 0: pay 4294967296\n",
                "line 2: a number that is too large: expected at most 4294967295",
            ),
            (
                b"3 offices, 8 parcels\n\n# more\nat 0: sums 1\n",
                "line 4: expected the end of the line, as in 'at 2: sums'",
            ),
        ],
    )
}

// Each parcel's last step, where the file ends, stops, or has a bad line.
#[test]
fn located(rt: HostRuntime) -> Result<(), Fail> {
    check(
        &rt,
        |heap, file| locate(heap, file, 4),
        &[
            (b"at 0: sums", NOT_OPENED),
            (b"3 offices, 8 parcels\nat 0: sums\nat 0: hand out 0\n", ""),
            (
                b"3 offices, 8 parcels\nat 1: accept for 2, 50\nat 0: accept for 2, 7\nat 0: send 0 to 2\nat 2: take in 0: 1 0 2 2 7\n",
                "0: step 2, come in at 2\n65536: step 0, accepted at 1\n",
            ),
            (
                b"3 offices, 8 parcels\nat 0: accept for 0, 7\nat 0: bytes 4 0 0 0 0\nat 0: hand out 0\nat 1: tick\nat 1: accept for 2, 50\n",
                "0: step 1, handed out at 0\nstopped: more than 4 things happened\n(stopped)",
            ),
            (
                b"3 offices, 8 parcels\nall clocks tick\nat 1: accept for 0, 7\nall clocks tick\n",
                "65536: step 0, accepted at 1\nstopped: more than 4 things happened\n(stopped)",
            ),
            (
                b"3 offices, 8 parcels\nat 0: accept for 2, 50\nat 0: send 0 to 1\nat 1: take in 0: 1 0 1 2 51\nat 1: take in 0: 1 0 1 2 50\n",
                "0: step 1, sent on at 0\nline 4: a slip that was never given out: an answer 'slip 0: 1 0 1 2 50' is taken in by 'take in 0: 1 0 1 2 50'",
            ),
            (
                b"3 offices, 8 parcels\nat 0: accept for 2, 50\nat 0: sends 0 to 1\n",
                "0: step 0, accepted at 0\nline 3: expected accept, send, slip, take in, hand out, pay, where is, here, sums, bytes or tick, as in 'at 0: sums'",
            ),
        ],
    )
}
