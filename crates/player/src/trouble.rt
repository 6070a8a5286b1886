// What ends the playing of a world before its file does.
ghost use Rattle.std.specs.Prelude.{◌≡◌, Some};
ghost use Rattle.world.specs.declared.CannotHappen.TheVariants.{NoMemory};
ghost use Rattle.player.specs.declared.trouble.Stop.TheVariants.{Bad};
ghost use Rattle.player.specs.declared.trouble.Trouble.TheVariants.{Impossible, Unread};
ghost use Rattle.player.specs.Texts.{impossible_text, trouble_text, line_at_fault};

use lines::Fault;
use std::alloc::AllocError;
use std::fmt;
use world::CannotHappen;

// What is wrong with a line.
#[derive(Drop)]
pub enum Trouble {
    Unread(Fault),
    NotOpened,
    OpenedAgain,
    // The file ends without the line that opens the offices.
    NeverOpened,
    Impossible(CannotHappen),
}

// Why playing stops.
#[derive(Drop)]
pub enum Stop {
    BudgetSpent,
    TooManyLetters,
    Bad(Trouble),
}

impl Trouble {
    // The number of the line that is at fault, where so many were taken: of the last one, but where the line is
    // missing, of the one that would come next.
    pub fn line(&self, taken: u64) -> u64
        ensures { result ≡ line_at_fault self.now taken }
    {
        match self {
            Trouble::NeverOpened => taken.saturating_add(1),
            _ => taken,
        }
    }
}

impl From<CannotHappen> for Trouble {
    ghost from_gives = { λ e r. r ≡ Impossible e };

    fn from(e: CannotHappen) -> Trouble {
        Trouble::Impossible(e)
    }
}

impl From<Fault> for Trouble {
    ghost from_gives = { λ e r. r ≡ Unread e };

    fn from(e: Fault) -> Trouble {
        Trouble::Unread(e)
    }
}

impl From<CannotHappen> for Stop {
    ghost from_gives = { λ e r. r ≡ Bad (Impossible e) };

    fn from(e: CannotHappen) -> Stop {
        Stop::Bad(Trouble::Impossible(e))
    }
}

impl From<Fault> for Stop {
    ghost from_gives = { λ e r. r ≡ Bad (Unread e) };

    fn from(e: Fault) -> Stop {
        Stop::Bad(Trouble::Unread(e))
    }
}

impl From<Trouble> for Stop {
    ghost from_gives = { λ e r. r ≡ Bad e };

    fn from(e: Trouble) -> Stop {
        Stop::Bad(e)
    }
}

impl From<AllocError> for Trouble {
    ghost from_gives = { λ _ r. r ≡ Impossible NoMemory };

    fn from(_e: AllocError) -> Trouble {
        Trouble::Impossible(CannotHappen::NoMemory)
    }
}

// Why something can't happen, to be written: in the words of a world that is played, which is small. (Its Display is by
// hand, as that of `Trouble`.)
#[derive(Clone, Copy)]
struct ImpossibleText(CannotHappen);

impl fmt::Display for ImpossibleText {
    ghost output = { λ x. Some (impossible_text x.0) };

    fn fmt<W: fmt::Write>(&self, f: &mut fmt::Formatter<W>) -> fmt::Result {
        f.write_str(match self.0 {
            CannotHappen::BadLimits =>
                "expected 2 to 4 offices and at most 64 parcels, as in '3 offices, 8 parcels'",
            CannotHappen::NoOffice =>
                "an office that is not there: offices are numbered from 0, so the last of 3 is 2",
            CannotHappen::NoSuchCall => "a call that no bytes can carry",
            CannotHappen::NeverGiven =>
                "a slip that was never given out: an answer 'slip 0: 1 0 1 2 50' is taken in by 'take in 0: 1 0 1 2 50'",
            CannotHappen::NeverSent => "a letter that was never sent: offices send none yet",
            CannotHappen::NoMemory => "no memory left",
        })
    }
}

// By hand, since the text is stated, and a derive states none.
impl fmt::Display for Trouble {
    ghost output = { λ x. Some (trouble_text x) };

    fn fmt<W: fmt::Write>(&self, f: &mut fmt::Formatter<W>) -> fmt::Result {
        match self {
            Trouble::Unread(fault) => write!(f, "{fault}"),
            Trouble::NotOpened => {
                write!(
                    f,
                    "the offices are not open yet: expected a line such as '3 offices, 8 parcels' first"
                )
            }
            Trouble::OpenedAgain => write!(
                f,
                "the offices are open already: another world has a file of its own"
            ),
            Trouble::NeverOpened => write!(
                f,
                "the file ends before the offices are open: expected a line such as '3 offices, 8 parcels'"
            ),
            Trouble::Impossible(e) => write!(f, "{}", ImpossibleText(*e)),
        }
    }
}
