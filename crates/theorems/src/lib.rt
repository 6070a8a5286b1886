// What is promised, for the office that runs, over everything that can happen at all offices. Each function
// does nothing: its contract is the theorem, and its proof is what the check asks for. In this stage paying, and
// where a parcel is, are turned away.
#![tactic(auto)]

ghost use Rattle.parcels.specs.Calls.{thin};
ghost use Rattle.promises.specs.Promise.{Right, RefusalKeeps, NewsComes, StaysSmall, LivedHappened, NeverBack, OldLetters, EightStatements};
ghost use Rattle.theorems.specs.Ours.{ours};

// Each answer is right, whatever happened before.
pub fn answers_are_right()
    ensures { Right thin ours }
{}

// A call that is turned away changes nothing and sends nothing.
pub fn refusals_keep()
    ensures { RefusalKeeps thin ours }
{}

// News comes, even if all letters until now are lost. No office sends any yet: in this stage both calls that
// need news are turned away.
pub fn news_comes()
    ensures { NewsComes thin ours }
{}

// Memory and letters stay small.
pub fn stays_small()
    ensures { StaysSmall thin ours }
{}

// What an office tells of a parcel never goes back: in this stage it tells nothing.
pub fn never_back()
    ensures { NeverBack thin ours }
{}

// A letter that comes again, or late, changes no answer that an office can give by itself.
pub fn old_letters_change_nothing()
    ensures { OldLetters thin ours }
{}

// What offices live through happened: so what is true of all that happened (crates truths and ways) is true of theirs.
pub fn what_is_lived_happened()
    ensures { LivedHappened thin ours }
{}

// The eight statements on parcels, of offices that run this: parcels' steps come in turn, at one office at a time; no more is paid
// out than is collected; each is handed out where it was for; what was told never goes back; old letters change nothing that an
// office knows by itself; a slip works once; and a call that is turned away changes no book.
pub fn eight_statements_hold()
    ensures { EightStatements thin ours }
{}
