// The programs: what they do with the files that they are given.
ghost use Rattle.std.specs.Prelude.{◌≡◌, ℕ, List, codes, string_bytes};
ghost use Rattle.programs.specs.Help.{IsHelp};
ghost use Rattle.programs.specs.Program.{most_things, failure_text};
ghost use Rattle.player.specs.Report.{Reports, ReportsPlaces};
ghost use Rattle.player.specs.declared.report.Report.{Report};

use crate::arguments::{Request, read_arguments};
use crate::help::Help;
use crate::source::Source;
use player::{BadLine, End, Report, locate, play};
use std::alloc::Global;
use std::process::ExitCode;
use std::{env, fmt, io};

// How many things happen in a world at most.
pub const BUDGET: u32 = 65_536;

// Why a program ends with status 1.
#[derive(Drop)]
enum Failure {
    // No file is named: so it says what it is for.
    NoFile(Help),
    UnknownOption {
        called: String,
        option: String,
    },
    Arguments {
        program: &'static str,
        error: io::Error,
    },
    Output {
        program: &'static str,
        error: io::Error,
    },
    Unread {
        source: Source,
        error: io::Error,
    },
    Bad {
        source: Source,
        bad: BadLine,
    },
}

// By hand, as that of `Trouble`.
impl fmt::Display for Failure {
    ghost output = { failure_text };

    fn fmt<W: fmt::Write>(&self, f: &mut fmt::Formatter<W>) -> fmt::Result {
        match self {
            Failure::NoFile(help) => write!(f, "{help}"),
            Failure::UnknownOption { called, option } => {
                write!(
                    f,
                    "no option '{option}': try '{called} --help', or './{option}' for a file"
                )
            }
            Failure::Arguments { program, error } => write!(
                f,
                "{program}: the arguments can't be read (are they UTF-8?): {error}"
            ),
            Failure::Output { program, error } => {
                write!(f, "{program}: the output can't be written: {error}")
            }
            Failure::Unread { source, error } => write!(f, "{source}: {error}"),
            Failure::Bad { source, bad } => write!(f, "{source}:{bad}"),
        }
    }
}

// A program that shows a report of each world file that it is given.
pub trait Program {
    // what it is called
    ghost called: { List ℕ };

    // what it does with its files
    ghost does: { List ℕ };

    // what it prints of the example that its help shows
    ghost prints: { List ℕ };

    // what is true of the report of each file
    ghost reports: { List ℕ → Report → Type 0 };

    fn name(&self) -> &'static str
        ensures { result.now ≡ called };

    fn does(&self) -> &'static str
        ensures { result.now ≡ does };

    fn prints(&self) -> &'static str
        ensures { result.now ≡ prints };

    fn report(&self, heap: Global, file: &[u8]) -> Report
        ensures { reports file.now result };

    // Its help, where it was called by this name.
    final fn help(&self, called_by: String) -> Help
        ensures { IsHelp (string_bytes called_by) does prints result }
    {
        Help {
            called: called_by,
            does: self.does(),
            prints: self.prints(),
        }
    }

    // Runs the program on its arguments. What is wrong goes to standard error.
    final fn run(&self, rt: &HostRuntime) -> ExitCode {
        let Err(failure) = run_arguments(self, rt) else {
            return ExitCode::SUCCESS;
        };
        // where not even this can be written, the status alone says so
        let _ = eprintln!(rt; "{failure}");
        ExitCode::FAILURE
    }
}

// Shows an answer for each call.
#[derive(Clone, Copy)]
pub struct Play;

impl Program for Play {
    ghost called = { codes "play" };

    ghost does = { codes "Plays worlds, and prints the answer to each call as a line." };

    ghost prints = { codes "    0\n    slip 0: 1 0 1 2 50" };

    ghost reports = { λ file r. Reports file most_things r };

    fn name(&self) -> &'static str {
        "play"
    }

    fn does(&self) -> &'static str {
        "Plays worlds, and prints the answer to each call as a line."
    }

    fn prints(&self) -> &'static str {
        "    0\n    slip 0: 1 0 1 2 50"
    }

    fn report(&self, heap: Global, file: &[u8]) -> Report {
        play(heap, file, BUDGET)
    }
}

// Shows where each parcel is.
#[derive(Clone, Copy)]
pub struct Locate;

impl Program for Locate {
    ghost called = { codes "locate" };

    ghost does = { codes "Plays worlds, and prints where each parcel is in the end, as a line." };

    ghost prints = { codes "    0: step 1, sent on at 0" };

    ghost reports = { λ file r. ReportsPlaces file most_things r };

    fn name(&self) -> &'static str {
        "locate"
    }

    fn does(&self) -> &'static str {
        "Plays worlds, and prints where each parcel is in the end, as a line."
    }

    fn prints(&self) -> &'static str {
        "    0: step 1, sent on at 0"
    }

    fn report(&self, heap: Global, file: &[u8]) -> Report {
        locate(heap, file, BUDGET)
    }
}

// A world of its own, which an argument names.
fn run_world<P: Program>(program: &P, rt: &HostRuntime, argument: String) -> Result<End, Failure> {
    let source = Source::new(argument);
    // no map_err: the source goes into the error
    let file = match source.read(rt) {
        Ok(file) => file,
        Err(error) => return Err(Failure::Unread { source, error }),
    };
    let report = program.report(rt.alloc(), file.as_slice());
    let name = program.name();
    print!(rt; "{}", report.shown).map_err(|error| Failure::Output {
        program: name,
        error,
    })?;
    report.end.map_err(|bad| Failure::Bad { source, bad })
}

// The worlds, one after the other, up to the first that stops or is bad.
fn run_worlds<P: Program>(
    program: &P,
    rt: &HostRuntime,
    arguments: Vec<String>,
) -> Result<(), Failure> {
    for argument in arguments {
        if run_world(program, rt, argument)? == End::Stopped {
            break;
        }
    }
    Ok(())
}

// The name that the program was called by, and its arguments behind that.
fn given(rt: &HostRuntime) -> io::Result<(String, Vec<String>)> {
    let mut args = env::args(rt)?;
    let called = args.next().unwrap_or(String::new(rt.alloc()));
    let arguments = args.collect(rt.alloc())?;
    Ok((called, arguments))
}

// What the arguments ask for.
fn run_arguments<P: Program>(program: &P, rt: &HostRuntime) -> Result<(), Failure> {
    let name = program.name();
    let (called, mut arguments) = given(rt).map_err(|error| Failure::Arguments {
        program: name,
        error,
    })?;
    match read_arguments(arguments.as_slice()) {
        Request::Nothing => Err(Failure::NoFile(program.help(called))),
        Request::Help => {
            println!(rt; "{}", program.help(called)).map_err(|error| Failure::Output {
                program: name,
                error,
            })
        }
        Request::UnknownOption(place) => Err(Failure::UnknownOption {
            called,
            option: arguments.swap_remove(place),
        }),
        Request::Worlds => run_worlds(program, rt, arguments),
    }
}
