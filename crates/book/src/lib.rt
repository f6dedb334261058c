// The law of one symbol's book, of any engine, and the rules that uphold it.
#![tactic(auto)]

pub mod answer;
pub mod call;
pub mod flaws;
pub mod slip;
pub mod stage;
pub mod theorems;
