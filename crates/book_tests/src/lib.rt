// An office's book in lent memory: how it is opened, what is put in and found, what is told of it, and a full one.
#![tactic(auto)]

#[cfg(test)]
mod full;
#[cfg(test)]
mod keys;
#[cfg(test)]
mod lent;
#[cfg(test)]
mod openings;
#[cfg(test)]
mod small;
#[cfg(test)]
mod told;
