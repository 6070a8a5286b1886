// Plays a world file: reads its lines, lets happen what they say, and shows the answers.
#![tactic(auto)]

mod happen;
mod report;
mod split;
mod trouble;

pub use report::{BadLine, End, Report, locate, play};
pub use trouble::Trouble;
