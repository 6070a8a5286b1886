// Prints the report of each world file that it is given, with its bad line, and ends with status 0. So files at
// which `play` ends with status 1 are run, and what is said of them is compared.
#![tactic(auto)]

use player::play;
use programs::BUDGET;
use std::{env, fs};

fn show(rt: &HostRuntime, path: &str) -> anyhow::Result<()> {
    let file = fs::read(rt, path)?;
    let report = play(rt.alloc(), file.as_slice(), BUDGET);
    print!(rt; "{}", report.shown)?;
    if let Err(bad) = report.end {
        println!(rt; "{path}:{bad}")?;
    }
    Ok(())
}

fn main(rt: HostRuntime) -> anyhow::Result<()> {
    for path in env::args(&rt)?.skip(1) {
        show(&rt, path.as_str())?;
    }
    Ok(())
}
