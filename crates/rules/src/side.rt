// A side as a type: which of two prices is better, at which prices an order is willing, and the side it trades against.
ghost use Rattle.std.specs.Prelude.{◌≡◌, ℕ, true, false, not};
ghost use Rattle.rules.specs.declared.order.Direction.{Direction};
ghost use Rattle.rules.specs.Side.{better as better_at, willing as willing_at, opposite as opposite_of};
ghost use Rattle.std.proofs.Common.{rules};

use crate::order::Direction;

/// What a side says of prices. `way` is its direction as a value.
pub trait Quotes {
    ghost way: { Direction };

    fn direction() -> Direction
        ensures { result ≡ way };

    fn better(p: u32, q: u32) -> bool
        ensures { result ≡ better_at way p q };

    fn willing(price: u32, p: u32) -> bool
        ensures { result ≡ willing_at way price p };

    // a price is not better than itself
    ghost strict: { (p : ℕ) → better_at way p p ≡ false };

    ghost chain: { (p q s : ℕ) → better_at way p q ≡ true → better_at way q s ≡ true
        → better_at way p s ≡ true };

    // of two prices, one is better or they are the same
    ghost total: { (p q : ℕ) → better_at way p q ≡ false → better_at way q p ≡ false → p ≡ q };

    // an order is willing at p exactly where p is not better than its price
    ghost exact: { (price p : ℕ) → willing_at way price p ≡ not (better_at way p price) };
}

/// A side with the side it trades against.
pub trait Side: Quotes {
    type Opposite: Quotes;

    ghost across: { Self.Opposite.Quotes.way ≡ opposite_of Self.Quotes.way };

    // the opposite of the opposite is the side itself
    ghost back: { opposite_of Self.Opposite.Quotes.way ≡ Self.Quotes.way };
}

/// The buys, as a type. The two sides differ in direction, comparison and opposite: each impl says those, and the check shows its laws.
#[derive(Clone, Copy)]
pub struct Buys;

/// The sells, as a type.
#[derive(Clone, Copy)]
pub struct Sells;

impl Quotes for Buys {
    ghost way = { Direction.Buy };

    ghost strict = { Prim.search rules };

    ghost chain = { Prim.search rules };

    ghost total = { Prim.search rules };

    ghost exact = { Prim.search rules };

    fn direction() -> Direction {
        Direction::Buy
    }

    fn better(p: u32, q: u32) -> bool {
        p > q
    }

    fn willing(price: u32, p: u32) -> bool {
        price >= p
    }
}

impl Quotes for Sells {
    ghost way = { Direction.Sell };

    ghost strict = { Prim.search rules };

    ghost chain = { Prim.search rules };

    ghost total = { Prim.search rules };

    ghost exact = { Prim.search rules };

    fn direction() -> Direction {
        Direction::Sell
    }

    fn better(p: u32, q: u32) -> bool {
        p < q
    }

    fn willing(price: u32, p: u32) -> bool {
        price <= p
    }
}

impl Side for Buys {
    type Opposite = Sells;

    ghost across = { Prim.search rules };

    ghost back = { Prim.search rules };
}

impl Side for Sells {
    type Opposite = Buys;

    ghost across = { Prim.search rules };

    ghost back = { Prim.search rules };
}

/// Whether an order that rests at `resting` on the other side is willing at the limit of an order that enters on S.
pub fn meets<S: Side>(limit: u32, resting: u32) -> bool
    ensures { result ≡ willing_at (opposite_of S.Quotes.way) resting limit }
{
    S::Opposite::willing(resting, limit)
}
