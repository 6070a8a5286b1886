// What the programs say of themselves, and what their arguments ask for.
use crate::shown::check;
use player::{locate, play};
use programs::{BUDGET, Locate, Play, Program, Request, read_arguments};
use std::alloc::{AllocError, Global};
use std::test::Fail;

const PLAY_HELP: &str = "\
usage: out/play FILE..

Plays worlds, and prints the answer to each call as a line. \
A FILE says what happens at a few post offices, line by line; '-' is standard input.

To get started, type in

    (echo 3 offices, 8 parcels; echo at 0: accept for 2, 50; echo at 0: send 0 to 1) | out/play -

It prints

    0
    slip 0: 1 0 1 2 50

docs/FORMATS.md has each line that a FILE can have, docs/NUMBERS.md why a call is refused.";

const LOCATE_HELP: &str = "\
usage: locate FILE..

Plays worlds, and prints where each parcel is in the end, as a line. \
A FILE says what happens at a few post offices, line by line; '-' is standard input.

To get started, type in

    (echo 3 offices, 8 parcels; echo at 0: accept for 2, 50; echo at 0: send 0 to 1) | locate -

It prints

    0: step 1, sent on at 0

docs/FORMATS.md has each line that a FILE can have, docs/NUMBERS.md why a call is refused.";

#[test]
fn helps(rt: HostRuntime) -> Result<(), Fail> {
    let heap = rt.alloc();
    let help = Play.help(String::from_str(heap, "out/play")?);
    assert_eq!(rt; help.to_string(heap)?.as_str(), PLAY_HELP);
    let help = Locate.help(String::from_str(heap, "locate")?);
    assert_eq!(rt; help.to_string(heap)?.as_str(), LOCATE_HELP);
    Ok(())
}

// The example of the help prints what the help says.
#[test]
fn example(rt: HostRuntime) -> Result<(), Fail> {
    let world = b"3 offices, 8 parcels\nat 0: accept for 2, 50\nat 0: send 0 to 1\n";
    check(
        &rt,
        |heap, file| play(heap, file, BUDGET),
        &[(world, "0\nslip 0: 1 0 1 2 50\n")],
    )?;
    check(
        &rt,
        |heap, file| locate(heap, file, BUDGET),
        &[(world, "0: step 1, sent on at 0\n")],
    )
}

fn requested(heap: Global, arguments: &[&str]) -> Result<Request, AllocError> {
    let mut owned = Vec::new(heap);
    for argument in arguments {
        owned.push(String::from_str(heap, argument)?)?;
    }
    Ok(read_arguments(owned.as_slice()))
}

#[test]
fn arguments(rt: HostRuntime) -> Result<(), Fail> {
    let table: [(&[&str], Request); 14] = [
        (&[], Request::Nothing),
        (&[""], Request::Worlds),
        (&["-"], Request::Worlds),
        (&["a.world", "-", "b-h"], Request::Worlds),
        (&["-h"], Request::Help),
        (&["--help"], Request::Help),
        (&["a.world", "--help", "--foo"], Request::Help),
        (&["--foo", "-h"], Request::UnknownOption(0)),
        (&["a.world", "--foo"], Request::UnknownOption(1)),
        (&["-H"], Request::UnknownOption(0)),
        (&["--"], Request::UnknownOption(0)),
        (&["--h"], Request::UnknownOption(0)),
        (&["-help"], Request::UnknownOption(0)),
        (&["--helps"], Request::UnknownOption(0)),
    ];
    for (arguments, expected) in table {
        assert_eq!(rt; requested(rt.alloc(), arguments)?, expected);
    }
    Ok(())
}
