// Where each parcel is, by what was taken everywhere.
#![tactic(auto)]

ghost use Rattle.std.specs.Prelude.{◌≡◌, ℕ, ◌+◌, ◌^◌, ◌<◌, IfOk, MatchOption, Some};
ghost use Rattle.std.specs.Option.{ForSome};
ghost use Rattle.std.specs.Ordering.{nat_cmp};
ghost use Rattle.std.specs.BTreeMap.{get};
ghost use Rattle.world.specs.View.{limits_of, journal_of};
ghost use Rattle.tracking.specs.Steps.{Tells, last_step, last_told, IsHeld};

use parcels::{Answer, Call, Kind, Step};
use std::alloc::{AllocError, Global};
use std::collections::BTreeMap;
use world::{Exchange, World};

// A step that an exchange tells of: which parcel took it, of which kind it is, and which office made it.
#[derive(Clone, Copy)]
struct Told {
    key: u32,
    kind: Kind,
    office: u32,
}

// The step that an exchange tells of, if the call was taken and makes one.
fn told_by(said: Exchange) -> Option<Told>
    ensures { Tells said result }
{
    let (key, kind) = match (said.reading.ok()?, said.answer) {
        (Call::Accept { .. }, Answer::Number(key)) => (u32::try_from(key).ok()?, Kind::Accepted),
        (Call::Send { key, .. }, Answer::Given(_)) => (key, Kind::SentOn),
        (Call::TakeIn { slip }, Answer::Number(_)) => (slip.key, Kind::ComeIn),
        (Call::HandOut { key }, Answer::Number(_)) => (key, Kind::HandedOut),
        _ => return None,
    };
    Some(Told {
        key,
        kind,
        office: said.at,
    })
}

// The number of a parcel's next step, by its last one.
fn next_number(last: Option<Step>) -> u64
    requires { ForSome last (λ step. step.number + 1 < 2 ^ 64) }
    ensures { MatchOption last (result ≡ 0) (λ step. result ≡ step.number + 1) }
{
    last.map_or(0, |step| step.number + 1)
}

// The last step of each parcel by what was said everywhere.
fn steps_by(heap: Global, journal: &[Exchange]) -> Result<BTreeMap<u32, Step>, AllocError>
    ensures { IfOk result (λ steps. (key : ℕ) → get nat_cmp steps key ≡ last_told journal.now key) }
{
    let mut steps = BTreeMap::new(heap);
    for said in journal {
        if let Some(Told { key, kind, office }) = told_by(*said) {
            let number = next_number(steps.get(&key).copied());
            steps.insert(
                key,
                Step {
                    number,
                    kind,
                    office,
                },
            )?;
        }
    }
    Ok(steps)
}

// The last step of each parcel that took one in a world, by the parcel's key. The office that made it has the parcel by it in
// its memory.
#[tactic(auto, using(crate::proofs::Truth::told_last, crate::proofs::Truth::told_held))]
pub fn last_steps(heap: Global, world: &World) -> Result<BTreeMap<u32, Step>, AllocError>
    ensures value { IfOk result (λ steps. (key : ℕ) → get nat_cmp steps key ≡ last_step (limits_of world.now) (journal_of world.now) key) }
    ensures held { IfOk result (λ steps. (key : ℕ) (step : Step) → get nat_cmp steps key ≡ Some step → IsHeld world.now key step) }
{
    steps_by(heap, world.journal())
}
