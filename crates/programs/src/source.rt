// What a world is read from.
ghost use Rattle.std.specs.Prelude.{Some, string_bytes};
ghost use Rattle.programs.specs.Arguments.{IsSource, source_text};

use crate::arguments::Argument;
use std::io::Read;
use std::{fmt, fs, io};

#[derive(Drop)]
pub enum Source {
    StandardInput,
    File(String),
}

impl Source {
    // What an argument names that names a world.
    pub fn new(argument: String) -> Source
        ensures { IsSource (string_bytes argument) result }
    {
        match Argument::read(argument.as_str()) {
            Argument::StandardInput => Source::StandardInput,
            _ => Source::File(argument),
        }
    }

    pub fn read(&self, rt: &HostRuntime) -> io::Result<Vec<u8>> {
        match self {
            Source::StandardInput => {
                let mut bytes = Vec::new(rt.alloc());
                rt.reader().read_to_end(&mut bytes)?;
                Ok(bytes)
            }
            Source::File(path) => fs::read(rt, path.as_str()),
        }
    }
}

// By hand, as that of `Trouble`.
impl fmt::Display for Source {
    ghost output = { λ x. Some (source_text x) };

    fn fmt<W: fmt::Write>(&self, f: &mut fmt::Formatter<W>) -> fmt::Result {
        match self {
            Source::StandardInput => write!(f, "standard input"),
            Source::File(path) => write!(f, "{path}"),
        }
    }
}
