// Why a line cannot be read.
ghost use Rattle.std.specs.Prelude.{◌≡◌, Some, cond};
ghost use Rattle.lines.specs.Tokens.{first_passes, is_foreign};
ghost use Rattle.lines.specs.declared.fault.Fault.TheVariants.{NotAscii, NoMemory};
ghost use Rattle.lines.specs.Faults.{fault_text};

use std::alloc::AllocFailed;
use std::fmt;

// What is wrong with a line. An `example` is a line of the form that this one had so far.
#[derive(Debug, Drop)]
pub enum Fault {
    // The line begins as none does.
    NoLine,
    // What should stand at the first place that does not fit.
    Expected {
        what: &'static str,
        example: &'static str,
    },
    // The word or mark that should stand there.
    ExpectedToken {
        token: &'static str,
        example: &'static str,
    },
    // A byte that is not ASCII stands there. An editor may not show it: a byte order mark, or another blank.
    NotAscii {
        example: &'static str,
    },
    TooLarge,
    NoMemory,
}

impl Fault {
    // What is said of a place where a line doesn't fit, with this left of it: a byte that is not ASCII comes first.
    pub fn at(self, rest: &[u8], example: &'static str) -> Fault
        ensures { result ≡ cond (first_passes is_foreign rest.now) (NotAscii example.entry) self }
    {
        match rest {
            [(128..), ..] => Fault::NotAscii { example },
            _ => self,
        }
    }
}

// By hand, since the text is stated, and a derive states none.
impl fmt::Display for Fault {
    ghost output = { λ x. Some (fault_text x) };

    fn fmt<W: fmt::Write>(&self, f: &mut fmt::Formatter<W>) -> fmt::Result {
        match self {
            Fault::NoLine => write!(
                f,
                "expected a line such as '3 offices, 8 parcels', 'at 0: sums', 'all clocks tick' or '# a comment'"
            ),
            Fault::Expected { what, example } => write!(f, "expected {what}, as in '{example}'"),
            Fault::ExpectedToken { token, example } => {
                write!(f, "expected '{token}', as in '{example}'")
            }
            Fault::NotAscii { example } => write!(
                f,
                "a byte order mark, or another byte that is not ASCII: expected plain text, as in '{example}'"
            ),
            Fault::TooLarge => write!(f, "a number that is too large: expected at most 4294967295"),
            Fault::NoMemory => write!(f, "no memory left"),
        }
    }
}

impl<T: Drop> From<AllocFailed<T>> for Fault {
    ghost from_gives = { λ _ r. r ≡ NoMemory };

    fn from(_e: AllocFailed<T>) -> Fault {
        Fault::NoMemory
    }
}
