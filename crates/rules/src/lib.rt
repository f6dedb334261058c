// The rules that one symbol's book rests on: values and slices of orders, and no table.
#![tactic(auto)]

pub mod candidate;
pub mod curve;
pub mod entry;
pub mod fixing;
pub mod order;
pub mod queued;
pub mod rank;
pub mod reference;
pub mod refusal;
pub mod side;
pub mod terms;
#[cfg(test)]
mod tests;
pub mod theorems;
