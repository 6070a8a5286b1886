// A world in which parcels move, what each office tells to be there, and what is tracked.
use crate::said::{answer, refused, slip, take_in};
use parcels::{Answer, Call, Kind, Reason};
use std::alloc::{AllocError, Global};
use std::process::Abort;
use std::test::Fail;
use tracking::last_steps;
use world::World;

// The parcels that are at an office by what is tracked, in the order of keys: it made their last steps, which left them there.
fn tracked(heap: Global, world: &World, office: u32) -> Result<Vec<u32>, AllocError> {
    let mut keys = Vec::new(heap);
    let steps = last_steps(heap, world)?;
    for (key, step) in &steps {
        if step.office == office && matches!(step.kind, Kind::Accepted | Kind::ComeIn) {
            keys.push(*key)?;
        }
    }
    Ok(keys)
}

// Whoever asks on from each answer is told of these parcels, of no others, and each time how many they are.
fn check_shelf(rt: &impl Abort, world: &mut World, office: u32, keys: &[u32]) -> Result<(), Fail> {
    let count = keys.len() as u64;
    let mut from = 0;
    for key in keys {
        let next = u64::from(*key) + 1;
        assert!(rt; answer(rt, world, office, Call::Here { from }) == Answer::Two(count, next));
        from = u32::try_from(next)?;
    }
    assert!(rt; answer(rt, world, office, Call::Here { from }) == Answer::Two(count, 0));
    Ok(())
}

// Each office tells of the parcels that are tracked to be there.
fn check_shelves(rt: &(impl Abort + AllocGlobal), world: &mut World) -> Result<(), Fail> {
    for office in 0..world.offices() {
        let there = tracked(rt.alloc(), world, office)?;
        check_shelf(rt, world, office, there.as_slice())?;
    }
    Ok(())
}

// Four offices. Beside each call and its answer: the parcels that are at that office then.
fn check_way(
    rt: &(impl Abort + AllocGlobal),
    way: &[(u32, Call, Answer, &[u32])],
) -> Result<(), Fail> {
    let Ok(mut world) = World::open(rt.alloc(), 4, 8) else {
        panic!(rt; "no world");
    };
    for (at, call, answered, keys) in way {
        assert!(rt; answer(rt, &mut world, *at, *call) == *answered);
        assert_eq!(rt; tracked(rt.alloc(), &world, *at)?.as_slice(), *keys);
        check_shelves(rt, &mut world)?;
    }
    Ok(())
}

// Parcels come to an office in another order than that of their keys, and one comes back to where it was accepted.
#[test]
fn told_as_tracked(rt: HostRuntime) -> Result<(), Fail> {
    let first = slip(0, 1, 0, 1, 2, 50);
    let onward = slip(0, 3, 1, 2, 2, 50);
    let away = slip(131_072, 1, 2, 1, 0, 20);
    let back = slip(131_072, 3, 1, 2, 0, 20);
    let dear = slip(65_536, 1, 1, 3, 3, 1_000_000);
    check_way(
        &rt,
        &[
            (
                2,
                Call::Accept {
                    dest: 0,
                    amount: 20,
                },
                Answer::Number(131_072),
                &[131_072],
            ),
            (
                0,
                Call::Accept {
                    dest: 2,
                    amount: 50,
                },
                Answer::Number(0),
                &[0],
            ),
            (
                0,
                Call::Accept { dest: 0, amount: 7 },
                Answer::Number(1),
                &[0, 1],
            ),
            (0, Call::Send { key: 0, to: 1 }, Answer::Given(first), &[1]),
            (
                2,
                Call::Send {
                    key: 131_072,
                    to: 1,
                },
                Answer::Given(away),
                &[],
            ),
            (1, take_in(away), Answer::Number(0), &[131_072]),
            (1, take_in(first), Answer::Number(2), &[0, 131_072]),
            (
                1,
                Call::Accept {
                    dest: 3,
                    amount: 1_000_000,
                },
                Answer::Number(65_536),
                &[0, 65_536, 131_072],
            ),
            (0, Call::HandOut { key: 1 }, Answer::Number(7), &[]),
            (
                1,
                Call::HandOut { key: 0 },
                refused(Reason::OtherOffice),
                &[0, 65_536, 131_072],
            ),
            (
                1,
                Call::Send { key: 0, to: 2 },
                Answer::Given(onward),
                &[65_536, 131_072],
            ),
            (2, take_in(onward), Answer::Number(2), &[0]),
            (
                1,
                Call::Send {
                    key: 131_072,
                    to: 2,
                },
                Answer::Given(back),
                &[65_536],
            ),
            (2, take_in(back), Answer::Number(0), &[0, 131_072]),
            (2, Call::HandOut { key: 0 }, Answer::Number(50), &[131_072]),
            (
                1,
                Call::Send { key: 65_536, to: 3 },
                Answer::Given(dear),
                &[],
            ),
            (
                3,
                Call::Accept { dest: 0, amount: 5 },
                Answer::Number(196_608),
                &[196_608],
            ),
            (3, take_in(dear), Answer::Number(3), &[65_536, 196_608]),
            (
                3,
                Call::HandOut { key: 65_536 },
                Answer::Number(1_000_000),
                &[196_608],
            ),
            (3, take_in(dear), refused(Reason::WrongSlip), &[196_608]),
        ],
    )
}
