// Demand and supply. The curve of a fixing comes from a slice of orders, or from whatever else holds orders.
ghost use Rattle.std.specs.Prelude.{◌≡◌, List, length};
ghost use Rattle.std.specs.List.{slice_get};
ghost use Rattle.rules.specs.Book.{Book, side, of_side, split};
ghost use Rattle.rules.specs.Covering.{split_covers};
ghost use Rattle.rules.specs.declared.order.Order.{Order};
ghost use Rattle.rules.specs.Curve.{share as share_at, depth as depth_at, Covers};

use crate::order::{Direction, Order};
use crate::side::{Buys, Quotes, Sells};

/// Where the curve comes from.
pub trait Curve {
    ghost book: { Self → Book };

    // its orders, of both sides and in any sequence
    ghost orders: { Self → List Order };

    /// The volume of the side's orders that are willing at p.
    fn depth(&self, d: Direction, p: u32) -> u128
        ensures { result ≡ depth_at d p (side d (book self.now)) };

    /// How many orders there are: the counts of two sides together may pass 64 bits.
    fn count(&self) -> u128
        ensures { result ≡ length (orders self.now) };

    fn at(&self, i: u128) -> Option<Order>
        ensures { result ≡ slice_get (orders self.now) i };

    // every order of the book is one of these
    ghost covers: { (c : Self) → Covers (orders c) (book c) };
}

// What an order offers at p, if it is of the side S.
fn share<S: Quotes>(o: &Order, p: u32) -> u32
    ensures { result ≡ share_at S.Quotes.way p o.now }
{
    if o.direction == S::direction() && S::willing(o.price, p) {
        o.volume
    } else {
        0
    }
}

/// The volume of the orders of the side S that are willing at p: demand for the buys, supply for the sells.
pub fn depth_of<S: Quotes>(orders: &[Order], p: u32) -> u128
    ensures { result ≡ depth_at S.Quotes.way p (of_side S.Quotes.way orders.now) }
{
    // a loop over the elements that adds, by a choice of form (docs/DECISIONS.md)
    let mut sum: u128 = 0;
    for o in orders {
        sum += u128::from(share::<S>(o, p));
    }
    sum
}

impl<'a> Curve for &'a [Order] {
    ghost book = { λ s. split s.now };

    ghost orders = { λ s. s.now };

    ghost covers = { λ s. split_covers s.now };

    fn depth(&self, d: Direction, p: u32) -> u128 {
        // the one place where a slice's side goes from a value to a type
        match d {
            Direction::Buy => depth_of::<Buys>(*self, p),
            Direction::Sell => depth_of::<Sells>(*self, p),
        }
    }

    fn count(&self) -> u128 {
        // no From leads from usize to u128
        self.len() as u128
    }

    fn at(&self, i: u128) -> Option<Order> {
        self.get(usize::try_from(i).ok()?).copied()
    }
}
