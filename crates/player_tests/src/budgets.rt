// How many things happen at most.
use crate::shown::check;
use player::play;
use programs::BUDGET;
use std::test::Fail;

#[test]
fn each_thing_is_counted(rt: HostRuntime) -> Result<(), Fail> {
    check(
        &rt,
        |heap, file| play(heap, file, 3),
        &[
            (
                b"3 offices, 8 parcels\nall clocks tick\n# all is spent now\nall letters come",
                "",
            ),
            (
                b"3 offices, 8 parcels\nat 0: sums\nat 0: tick\nat 0: bytes 1\n",
                "0 0\nrefused 1 at 1\n",
            ),
            (
                b"3 offices, 8 parcels\nat 0: sums\nat 0: tick\nat 0: bytes 1\nat 0: sums\nat 0: sums\n",
                "0 0\nrefused 1 at 1\nstopped: more than 3 things happened\n(stopped)",
            ),
            (
                b"3 offices, 8 parcels\nat 0: sums\nall clocks tick\nat 0: sums\n",
                "0 0\nstopped: more than 3 things happened\n(stopped)",
            ),
            (
                b"3 offices, 8 parcels\nall clocks tick\nletter 0 comes\n",
                "stopped: more than 3 things happened\n(stopped)",
            ),
            (
                b"3 offices, 8 parcels\nall clocks tick\nat 9: sums\n",
                "stopped: more than 3 things happened\n(stopped)",
            ),
        ],
    )
}

#[test]
fn the_programs_budget(rt: HostRuntime) -> Result<(), Fail> {
    let mut file = Vec::new(rt.alloc());
    file.extend_from_slice(b"2 offices, 1 parcels\n")?;
    for _ in 0..65_536 {
        file.extend_from_slice(b"at 0: tick\n")?;
    }
    check(
        &rt,
        |heap, file| play(heap, file, BUDGET),
        &[(file.as_slice(), "")],
    )?;
    file.extend_from_slice(b"at 1: tick\n")?;
    check(
        &rt,
        |heap, file| play(heap, file, BUDGET),
        &[(
            file.as_slice(),
            "stopped: more than 65536 things happened\n(stopped)",
        )],
    )
}
