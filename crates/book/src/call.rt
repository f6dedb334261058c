// What a member or the clock asks of the book.
use rules::order::Direction;

/// An order that is to enter: a limit order at its price in bani, or a market order, which names none; volume in shares.
#[derive(Clone, Copy, Debug, PartialEq, Eq)]
pub struct NewOrder {
    pub member: u32,
    pub direction: Direction,
    pub limit: Option<u32>,
    pub volume: u32,
}

/// What an order of the member is to be: its price in bani, and the volume that is to be left of it, in shares.
#[derive(Clone, Copy, Debug, PartialEq, Eq)]
pub struct Alteration {
    pub member: u32,
    pub number: u32,
    pub price: u32,
    pub volume: u32,
}

/// An order of the member that is to be taken out.
#[derive(Clone, Copy, Debug, PartialEq, Eq)]
pub struct Withdrawal {
    pub member: u32,
    pub number: u32,
}

/// Any call as a value.
#[derive(Clone, Copy, Debug, PartialEq, Eq)]
pub enum Call {
    Enter(NewOrder),
    Alter(Alteration),
    Withdraw(Withdrawal),
    Advance,
}
