// Plays the world files that it is given, and prints where each parcel is.
#![tactic(auto)]

use programs::{Locate, Program};
use std::process::ExitCode;

fn main(rt: HostRuntime) -> ExitCode {
    Locate.run(&rt)
}
