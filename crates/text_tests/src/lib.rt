// What each form of line is read as and written as, how each bad line is refused, and how answers are written.
#![tactic(auto)]

#[cfg(test)]
mod answer_texts;
#[cfg(test)]
mod bad_lines;
#[cfg(test)]
mod good_lines;
#[cfg(test)]
mod shown;
#[cfg(test)]
mod written_lines;
