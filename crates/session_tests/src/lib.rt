// An office in lent memory, asked by bytes: how it is opened, what it answers, which words change, and letters in lent bytes.
#![tactic(auto)]

#[cfg(test)]
mod envelopes;
#[cfg(test)]
mod lent;
#[cfg(test)]
mod news;
#[cfg(test)]
mod openings;
#[cfg(test)]
mod refusals;
#[cfg(test)]
mod steps;
#[cfg(test)]
mod told;
