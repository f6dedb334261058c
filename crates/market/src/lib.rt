// A session of one symbol's book, over any order table.
#![tactic(auto)]

mod advances;
mod alters;
mod curve;
mod day;
mod entries;
mod fills;
pub mod journal;
mod marks;
mod rows;
pub mod session;
mod strikes;
#[cfg(test)]
mod tests;
