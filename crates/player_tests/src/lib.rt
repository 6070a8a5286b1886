// Whole world files: what is shown of each, and how it ends.
#![tactic(auto)]

#[cfg(test)]
mod arguments;
#[cfg(test)]
mod budgets;
#[cfg(test)]
mod files;
#[cfg(test)]
mod shown;
