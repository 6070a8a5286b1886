// Worlds, and where each parcel is in them; and what their offices tell to be there.
#![tactic(auto)]

#[cfg(test)]
mod said;
#[cfg(test)]
mod shelves;
#[cfg(test)]
mod steps;
