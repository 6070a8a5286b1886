// Calls and answers beside their bytes, which are written out by hand, and rows of bytes that are neither.
#![tactic(auto)]

#[cfg(test)]
mod answers;
#[cfg(test)]
mod calls;
#[cfg(test)]
mod lent;
#[cfg(test)]
mod no_answers;
#[cfg(test)]
mod no_calls;
#[cfg(test)]
mod vectors;
