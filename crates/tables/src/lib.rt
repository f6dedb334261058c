// Tables of orders: what a table means, and tables that show just that.
#![tactic(auto)]

mod both;
pub mod calls;
mod place;
pub mod queue;
mod ranks;
mod rows;
pub mod slots;
mod store;
pub mod table;
mod unsorted;
