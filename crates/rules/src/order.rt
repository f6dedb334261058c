// An order, and its side as a value.
ghost use Rattle.std.specs.Prelude.{◌≡◌};
ghost use Rattle.rules.specs.Book.{limit};
ghost use Rattle.rules.specs.Side.{opposite, called};

use std::fmt;

/// The side of an order.
#[derive(Clone, Copy, Debug, PartialEq, Eq)]
pub enum Direction {
    Buy,
    Sell,
}

impl fmt::Display for Direction {
    ghost output = { called };

    fn fmt<W: fmt::Write>(&self, f: &mut fmt::Formatter<W>) -> fmt::Result {
        f.write_str(match self {
            Direction::Buy => "buy",
            Direction::Sell => "sell",
        })
    }
}

impl Direction {
    /// The direction that it trades against.
    pub fn opposite(self) -> Direction
        ensures { result ≡ opposite self }
    {
        match self {
            Direction::Buy => Direction::Sell,
            Direction::Sell => Direction::Buy,
        }
    }
}

/// An order: price in bani, volume in shares. A market order carries its mark and, as its price, the limit of the band
/// that it is willing up to. Mark and price are two fields, since both always count: it ranks and trades by that price.
#[derive(Clone, Copy)]
pub struct Order {
    pub number: u32,
    pub member: u32,
    pub direction: Direction,
    pub price: u32,
    pub market: bool,
    pub volume: u32,
    pub arrival: u32,
}

impl Order {
    /// A limit order that enters now: its number is its arrival.
    pub fn limit(number: u32, member: u32, direction: Direction, price: u32, volume: u32) -> Order
        ensures { result ≡ limit number member direction price volume }
    {
        Order {
            number,
            member,
            direction,
            price,
            market: false,
            volume,
            arrival: number,
        }
    }
}
