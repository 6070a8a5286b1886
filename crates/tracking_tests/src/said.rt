// What is said at the offices of a world.
use parcels::{Answer, Call, Reason, Refusal, Slip};
use std::process::Abort;
use world::{Happening, World};

// What an office answers to a call that can happen.
pub(crate) fn answer(rt: &impl Abort, world: &mut World, at: u32, call: Call) -> Answer {
    let Ok(Some(answer)) = world.happen(Happening::Call { at, call }) else {
        panic!(rt; "a call at {at} that can't happen");
    };
    answer
}

pub(crate) fn slip(key: u32, step: u64, from: u32, to: u32, dest: u32, amount: u32) -> Slip {
    Slip {
        key,
        step,
        from,
        to,
        dest,
        amount,
    }
}

pub(crate) fn take_in(slip: Slip) -> Call {
    Call::TakeIn { slip }
}

pub(crate) fn refused(reason: Reason) -> Answer {
    Answer::Refused(Refusal { reason, place: 0 })
}
