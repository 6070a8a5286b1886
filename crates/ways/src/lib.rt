// What is so of each parcel, by what was taken at all offices, where each answer was right: theorems that speak of no
// office's program, or of every one whose answers are right. Each function does nothing: its contract is the theorem, and its
// proof is what the check asks for.
#![tactic(auto)]

ghost use Rattle.promises.specs.Promise.{StepsInTurn, NotAtTwo, NoMorePaid, WhereItWasFor, RefusedMoves, RightPrograms};
ghost use Rattle.promises.specs.Way.{EachWay};
ghost use Rattle.promises.specs.Beside.{StepsStay, HandedOutStays, OneHasLast, CanGoFurther};
ghost use Rattle.promises.specs.Told.{GoodsTold, MoneyTold};

// What books have of each parcel, and what slips tell of it, agrees with the steps that it took: the invariant by which all
// that follows is so.
pub fn ways_are_true()
    ensures { EachWay }
{}

// A parcel is accepted first, at its origin; then sent on and taken in by turns; and handed out at most once, at the end.
pub fn steps_come_in_turn()
    ensures { StepsInTurn }
{}

// What is here at one office is at no other.
pub fn parcels_are_at_one_office()
    ensures { NotAtTwo }
{}

// No more was paid out than was collected, all offices together.
pub fn no_more_is_paid()
    ensures { NoMorePaid }
{}

// A parcel is handed out where it was for, with its amount.
pub fn parcels_get_where_they_were_for()
    ensures { WhereItWasFor }
{}

// A call that is turned away changes no book, and makes no step.
pub fn refusals_move_nothing()
    ensures { RefusedMoves }
{}

// All eight statements on parcels are so of any program whose every answer is right, in any stage: also that what it tells of
// a parcel never goes back, that no letter changes what it can answer by itself, and that a slip works once.
pub fn right_programs_keep_all_eight()
    ensures { RightPrograms }
{}

// Steps that a parcel took stay as they are, and others come behind them: they never grow shorter.
pub fn steps_stay()
    ensures { StepsStay }
{}

// A parcel that was handed out makes no step more.
pub fn nothing_follows_handing_out()
    ensures { HandedOutStays }
{}

// Of a parcel's offices exactly one has its last step, and its book shows it.
pub fn one_office_has_the_last_step()
    ensures { OneHasLast }
{}

// By the rules a parcel that wasn't handed out can go on from its last step, if there is room where it was sent.
pub fn parcels_can_go_further()
    ensures { CanGoFurther }
{}

// By what was answered: where a parcel is handed out, it was accepted at its origin, for that office and with that amount; it is
// paid for only at its origin, and the same amount was answered where it was handed out; and each slip is of a parcel that was
// accepted as the slip tells.
pub fn goods_are_as_said()
    ensures { GoodsTold }
{}

// Each office's sums are what was answered there where parcels were handed out and paid for; no parcel is paid for twice; and no
// more is paid out than is collected, all offices together.
pub fn money_is_as_answered()
    ensures { MoneyTold }
{}
