// What is so of everything that was taken at all offices, where each answer was right: theorems that speak of no
// office's program. Each function does nothing: its contract is the theorem, and its proof is what the check asks for.
#![tactic(auto)]

ghost use Rattle.promises.specs.Promise.{SlipOnlyOnce};
ghost use Rattle.promises.specs.Beside.{StepsTold, NoKeyTwice, SlipsFit, ShelvesAndSums};

// No key is given out twice, over all offices; each tells the office that gave it out; no slip brings one that its office has
// yet to give out; and each key in a book tells an office that is there.
pub fn no_key_is_given_twice()
    ensures { NoKeyTwice }
{}

// No step in a book goes further than steps of its kind go, and no slip is given out with one above 4,294,967,297.
pub fn slips_fit()
    ensures { SlipsFit }
{}

// Once a parcel was taken in with a slip, that slip is turned away for ever, at all offices, as one that doesn't work.
pub fn slips_are_spent()
    ensures { SlipOnlyOnce }
{}

// At each office eight bytes hold what was collected and what was paid out, and who asks on finds all parcels that are
// there, in the order of their keys, each once. A call's field holds each number that is asked on from.
pub fn shelves_and_sums_are_told()
    ensures { ShelvesAndSums }
{}

// The steps of parcels that answers tell of are those that they took in truth.
pub fn steps_are_told()
    ensures { StepsTold }
{}
