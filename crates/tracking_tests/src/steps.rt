// Calls at the offices of a world, and the last step of each parcel by them.
use crate::said::{answer, refused, slip, take_in};
use parcels::{Answer, Call, Kind, Reason, Step};
use std::process::Abort;
use std::test::Fail;
use tracking::last_steps;
use world::World;

fn step(number: u64, kind: Kind, office: u32) -> Step {
    Step {
        number,
        kind,
        office,
    }
}

fn accept(dest: u32, amount: u32) -> Call {
    Call::Accept { dest, amount }
}

// Checks that these parcels took these steps last, and no others took any.
fn check(
    rt: &(impl Abort + AllocGlobal),
    world: &World,
    expected: &[(u32, Step)],
) -> Result<(), Fail> {
    let steps = last_steps(rt.alloc(), world)?;
    assert_eq!(rt; steps.len(), expected.len());
    for (key, step) in expected {
        assert!(rt; steps.get(key).copied() == Some(*step));
    }
    Ok(())
}

// Three offices. Beside each call and its answer: the last step of each parcel then.
fn check_way(
    rt: &(impl Abort + AllocGlobal),
    way: &[(u32, Call, Answer, &[(u32, Step)])],
) -> Result<(), Fail> {
    let Ok(mut world) = World::open(rt.alloc(), 3, 8) else {
        panic!(rt; "no world");
    };
    check(rt, &world, &[])?;
    for (at, call, answered, last) in way {
        assert!(rt; answer(rt, &mut world, *at, *call) == *answered);
        check(rt, &world, last)?;
    }
    Ok(())
}

#[test]
fn each_kind_of_step(rt: HostRuntime) -> Result<(), Fail> {
    let first = slip(0, 1, 0, 1, 2, 50);
    let onward = slip(0, 3, 1, 2, 2, 50);
    check_way(
        &rt,
        &[
            (
                0,
                accept(2, 50),
                Answer::Number(0),
                &[(0, step(0, Kind::Accepted, 0))],
            ),
            (
                0,
                Call::Send { key: 0, to: 1 },
                Answer::Given(first),
                &[(0, step(1, Kind::SentOn, 0))],
            ),
            (
                1,
                take_in(first),
                Answer::Number(2),
                &[(0, step(2, Kind::ComeIn, 1))],
            ),
            (
                1,
                Call::Send { key: 0, to: 2 },
                Answer::Given(onward),
                &[(0, step(3, Kind::SentOn, 1))],
            ),
            (
                2,
                take_in(onward),
                Answer::Number(2),
                &[(0, step(4, Kind::ComeIn, 2))],
            ),
            (
                2,
                Call::HandOut { key: 0 },
                Answer::Number(50),
                &[(0, step(5, Kind::HandedOut, 2))],
            ),
        ],
    )
}

// Each parcel's steps are counted by themselves. The second one comes back to where it was accepted.
#[test]
fn two_parcels(rt: HostRuntime) -> Result<(), Fail> {
    let away = slip(65_536, 1, 1, 0, 1, 7);
    let back = slip(65_536, 3, 0, 1, 1, 7);
    let here = (0, step(0, Kind::Accepted, 0));
    check_way(
        &rt,
        &[
            (0, accept(1, 50), Answer::Number(0), &[here]),
            (
                1,
                accept(1, 7),
                Answer::Number(65_536),
                &[here, (65_536, step(0, Kind::Accepted, 1))],
            ),
            (
                1,
                Call::Send { key: 65_536, to: 0 },
                Answer::Given(away),
                &[here, (65_536, step(1, Kind::SentOn, 1))],
            ),
            (
                0,
                take_in(away),
                Answer::Number(1),
                &[here, (65_536, step(2, Kind::ComeIn, 0))],
            ),
            (
                0,
                Call::Send { key: 65_536, to: 1 },
                Answer::Given(back),
                &[here, (65_536, step(3, Kind::SentOn, 0))],
            ),
            (
                1,
                take_in(back),
                Answer::Number(1),
                &[here, (65_536, step(4, Kind::ComeIn, 1))],
            ),
        ],
    )
}

// What is turned away and what only tells lies between.
#[test]
fn no_step_between(rt: HostRuntime) -> Result<(), Fail> {
    let given = slip(0, 1, 0, 1, 1, 50);
    let here = &[(0, step(0, Kind::Accepted, 0))];
    let sent = &[(0, step(1, Kind::SentOn, 0))];
    let come = &[(0, step(2, Kind::ComeIn, 1))];
    check_way(
        &rt,
        &[
            (0, accept(3, 50), refused(Reason::OutOfRange), &[]),
            (0, Call::HandOut { key: 0 }, refused(Reason::NotHere), &[]),
            (0, accept(1, 50), Answer::Number(0), here),
            (
                0,
                Call::HandOut { key: 0 },
                refused(Reason::OtherOffice),
                here,
            ),
            (
                0,
                Call::Send { key: 1, to: 1 },
                refused(Reason::NotHere),
                here,
            ),
            (
                0,
                Call::SlipAgain { key: 0 },
                refused(Reason::NotHere),
                here,
            ),
            (0, Call::Send { key: 0, to: 1 }, Answer::Given(given), sent),
            (0, Call::SlipAgain { key: 0 }, Answer::Given(given), sent),
            (
                0,
                Call::Send { key: 0, to: 1 },
                refused(Reason::NotHere),
                sent,
            ),
            (0, take_in(given), refused(Reason::WrongSlip), sent),
            (1, take_in(given), Answer::Number(1), come),
            (1, take_in(given), refused(Reason::WrongSlip), come),
            (1, Call::Here { from: 0 }, Answer::Two(1, 1), come),
            (1, Call::Sums, Answer::Two(0, 0), come),
        ],
    )
}
