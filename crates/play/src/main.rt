// Plays the world files that it is given, and prints an answer for each call.
#![tactic(auto)]

use programs::{Play, Program};
use std::process::ExitCode;

fn main(rt: HostRuntime) -> ExitCode {
    Play.run(&rt)
}
