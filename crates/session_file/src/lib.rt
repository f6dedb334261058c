// The session file: its lines read and written, and the text that a whole file is answered with.
#![tactic(auto)]

pub mod answer;
mod cut;
pub mod fault;
mod fields;
pub mod lines;
pub mod number;
pub mod output;
pub mod put;
pub mod reader;
#[cfg(test)]
mod tests;
pub mod theorems;
