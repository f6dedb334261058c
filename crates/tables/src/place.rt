// Where an order stands: its side, and its index there.
use rules::order::Direction;

/// A side, and an index of its row from 0.
#[derive(Clone, Copy)]
pub struct Place {
    pub direction: Direction,
    pub index: usize,
}
