// Theorems about books and calls on them. Each function does nothing: its contract is the theorem, and its
// proof is what the check asks for.
#![tactic(auto)]

ghost use Rattle.parcels.specs.Laws.{BookLaws, SlipOnce, TurnedAway, StepsStayFit, SumsStayFit, KeysOnce};
ghost use Rattle.parcels.specs.Shelf.{ShelvesListed};
ghost use Rattle.parcels.specs.Example.{WayIsAnswered};

// Looking up gives what was put in last.
pub fn books_are_lawful()
    ensures { BookLaws }
{}

// A slip works once; then it is turned away as one that doesn't work.
pub fn slip_works_once()
    ensures { SlipOnce }
{}

// A call that is turned away changes no book.
pub fn turned_away_changes_nothing()
    ensures { TurnedAway }
{}

// No two parcels that were accepted get one key, where no slip brings a key that its office has yet to give out.
pub fn keys_are_given_once()
    ensures { KeysOnce }
{}

// How far steps go: no further than two words hold, so none has to be turned away.
pub fn steps_stay_fit()
    ensures { StepsStayFit }
{}

// No amount goes above the largest, and no parcel gets two entries: so a sum is at most 65,536,000,000, and there is a book
// whose sums are that. Four bytes may be too few for one, and eight are enough.
pub fn sums_stay_fit()
    ensures { SumsStayFit }
{}

// The parcel that is told is the first one at the office from the key that was asked from. Who asks on from what was answered
// finds all parcels there, in the order of their keys, each once, and then 0.
pub fn shelves_are_listed()
    ensures { ShelvesListed }
{}

// One parcel's way, from the office that accepts it to the one that hands it out, and what is told then: one lemma computes
// all answers.
pub fn way_is_answered()
    ensures { WayIsAnswered }
{}
