// Programs that play worlds: what they are asked for by their arguments, and what they do with the worlds that these name.
#![tactic(auto)]

mod arguments;
mod help;
mod program;
mod source;

pub use arguments::{Request, read_arguments};
pub use help::Help;
pub use program::{BUDGET, Locate, Play, Program};
