// A world that is played.
ghost use Rattle.std.specs.Prelude.{◌≡◌, ◌-◌, [], Ok, length, nat_le};
ghost use Rattle.std.specs.Iterator.{IsFinite, UpTo};
ghost use Rattle.world.specs.Outcome.{Happens, Nothing, Comes, AtOffice};
ghost use Rattle.world.specs.View.{limits_of, letters_of, journal_of};
ghost use Rattle.player.specs.Limits.{most_played_letters};
ghost use Rattle.player.specs.Happen.{spent, counted, Spends, SameLetters, unanswered, TicksAll, Plays};

use crate::trouble::{Stop, Trouble};
use lines::Line;
use parcels::Answer;
use world::{Happening, World};

// The most letters that are sent in a world that is played.
pub const MAX_PLAYED_LETTERS: usize = 256;

// Whether so many letters leave a world to be played on.
fn few_enough(letters: usize) -> bool
    ensures { result ≡ nat_le letters most_played_letters }
{
    letters <= MAX_PLAYED_LETTERS
}

// A world, and how many more things may happen in it. What each function leaves of both stands in its contract: it is
// no fact about a player that its type could hold.
#[derive(Drop)]
pub struct Player {
    world: World,
    budget: u32,
}

impl Player {
    pub fn new(world: World, budget: u32) -> Player
        ensures { (result.world ≡ world) × (result.budget ≡ budget) }
    {
        Player { world, budget }
    }

    // The world as it stands.
    pub fn world(&self) -> &World
        ensures { result.now ≡ self.now.world }
    {
        &self.world
    }

    // Counts down one thing that is about to happen.
    fn spend(&mut self) -> Result<(), Stop>
        ensures value { result ≡ spent self.old.budget }
        ensures after { self.new.budget ≡ self.old.budget - 1 }
        ensures same { self.new.world ≡ self.old.world }
    {
        if self.budget == 0 {
            return Err(Stop::BudgetSpent);
        }
        self.budget -= 1;
        Ok(())
    }

    // Lets one thing happen, which is counted down.
    fn once(&mut self, thing: Happening) -> Result<Option<Answer>, Stop>
        ensures value { Spends self.old.budget (journal_of self.old.world) (Happens (limits_of self.old.world) (letters_of self.old.world) (journal_of self.old.world) thing.entry) result (journal_of self.new.world) }
        ensures after { self.new.budget ≡ self.old.budget - 1 }
        ensures same { SameLetters self.old.world self.new.world }
    {
        self.spend()?;
        Ok(self.world.happen(thing)?)
    }

    // What happened may have sent letters: whether they are few enough to go on. In this stage they are: there are none.
    pub fn count_letters(&self) -> Result<(), Stop>
        ensures value { result ≡ counted (length (letters_of self.now.world)) }
        ensures few { result ≡ Ok tt }
    {
        if !few_enough(self.world.letters()) {
            return Err(Stop::TooManyLetters);
        }
        Ok(())
    }

    // (Not one function with `hear`: what comes of each is another clause.)
    fn tick(&mut self, at: u32) -> Result<(), Stop>
        ensures value { Spends self.old.budget (journal_of self.old.world) (λ a ys. Nothing (AtOffice (limits_of self.old.world).offices at) a × (ys ≡ journal_of self.old.world)) (unanswered result) (journal_of self.new.world) }
        ensures after { self.new.budget ≡ self.old.budget - 1 }
        ensures same { SameLetters self.old.world self.new.world }
    {
        self.once(Happening::Tick { at })?;
        self.count_letters()
    }

    fn hear(&mut self, number: usize) -> Result<(), Stop>
        ensures value { Spends self.old.budget (journal_of self.old.world) (λ a ys. Nothing (Comes (limits_of self.old.world).offices (letters_of self.old.world) number) a × (ys ≡ journal_of self.old.world)) (unanswered result) (journal_of self.new.world) }
        ensures after { self.new.budget ≡ self.old.budget - 1 }
        ensures same { SameLetters self.old.world self.new.world }
    {
        self.once(Happening::Letter { number })?;
        self.count_letters()
    }

    // All clocks tick, from office 0 up: by number, which is what says whose clock it is.
    fn all_tick(&mut self) -> Result<(), Stop>
        ensures value { TicksAll self.old.budget (limits_of self.old.world).offices (unanswered result) self.new.budget }
        ensures after { journal_of self.new.world ≡ journal_of self.old.world }
        ensures same { SameLetters self.old.world self.new.world }
    {
        for at in 0..self.world.offices() {
            self.tick(at)?;
        }
        Ok(())
    }

    // These letters come once more, one after the other. In this stage none was sent, and so there are none.
    fn hear_all<I: Iterator<Item = usize>>(&mut self, letters: I) -> Result<(), Stop>
        requires can { I.can_next letters }
        requires ends { IsFinite (I.remaining letters) }
        requires none { letters_of self.old.world ≡ [] }
        ensures none { UpTo (I.remaining letters) 0 → (result ≡ Ok tt) × (self.new ≡ self.old) }
    {
        for letter in letters {
            self.hear(letter)?;
        }
        Ok(())
    }

    // Lets happen what a line says, and gives its answer, if it has one. (Blank lines first: a file may have very many.)
    pub fn happen(&mut self, line: Line) -> Result<Option<Answer>, Stop>
        ensures value { Plays self.old.budget (limits_of self.old.world) (journal_of self.old.world) line result self.new.budget (journal_of self.new.world) }
        ensures same { limits_of self.new.world ≡ limits_of self.old.world }
    {
        match line {
            Line::Blank => Ok(None),
            line => self.carry_out(line),
        }
    }

    // The same of any line. It begins by making room for all that may happen, which a blank line doesn't need.
    fn carry_out(&mut self, line: Line) -> Result<Option<Answer>, Stop>
        ensures value { Plays self.old.budget (limits_of self.old.world) (journal_of self.old.world) line result self.new.budget (journal_of self.new.world) }
        ensures same { limits_of self.new.world ≡ limits_of self.old.world }
    {
        // all letters that were sent so far, in the order in which they were sent
        let sent = 0..self.world.letters();
        match line {
            Line::Blank => {}
            Line::Opening { .. } => return Err(Trouble::OpenedAgain.into()),
            Line::Call { at, call } => return self.once(Happening::Call { at, call }),
            Line::Bytes { at, bytes } => {
                return self.once(Happening::Bytes {
                    at,
                    row: bytes.as_slice(),
                });
            }
            Line::Tick { at } => self.tick(at)?,
            Line::AllTick => self.all_tick()?,
            Line::Letter { number } => self.hear(number as usize)?,
            Line::AllLetters => self.hear_all(sent)?,
            Line::AllLettersLastFirst => self.hear_all(sent.rev())?,
        }
        Ok(None)
    }
}
