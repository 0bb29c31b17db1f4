// What the program `round` prints: a line for each input line, as a function of that line, the cutting of bytes into lines, and the summary.
#![tactic(auto)]

pub mod answers;
pub mod cuts;
pub mod fields;
pub mod lines;
pub mod tallies;
