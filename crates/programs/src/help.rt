// What a program says of itself.
ghost use Rattle.std.specs.Prelude.{Some};
ghost use Rattle.programs.specs.Help.{help_text};

use std::fmt;

// What a program is for, and how it is used.
#[derive(Drop)]
pub struct Help {
    // The name that it was called by.
    pub called: String,
    // What it does with the worlds that it is given.
    pub does: &'static str,
    // What it prints of the world that is shown.
    pub prints: &'static str,
}

// By hand, as that of `Trouble`.
impl fmt::Display for Help {
    ghost output = { λ x. Some (help_text x) };

    fn fmt<W: fmt::Write>(&self, f: &mut fmt::Formatter<W>) -> fmt::Result {
        let called = &self.called;
        let does = self.does;
        let prints = self.prints;
        write!(
            f,
            "usage: {called} FILE..\n\n\
             {does} A FILE says what happens at a few post offices, line by line; '-' is standard input.\n\n\
             To get started, type in\n\n    \
             (echo 3 offices, 8 parcels; echo at 0: accept for 2, 50; echo at 0: send 0 to 1) | {called} -\n\n\
             It prints\n\n\
             {prints}\n\n\
             docs/FORMATS.md has each line that a FILE can have, docs/NUMBERS.md why a call is refused.",
        )
    }
}
