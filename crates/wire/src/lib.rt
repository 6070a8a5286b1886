// Calls and answers as bytes: how each is written, and what a row of bytes is read as.
#![tactic(auto)]

pub use answer::{ANSWER_BYTES, read_answer, write_answer};
pub use call::{MAX_CALL_BYTES, UnreadableCall, read_call, write_call};

mod answer;
mod call;
mod carried;
mod number;
