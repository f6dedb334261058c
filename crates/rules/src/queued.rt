// An order in the queue of the side S. It is there that an order has a rank.
ghost use Rattle.std.specs.Prelude.{◌≡◌};
ghost use Rattle.rules.specs.Rank.{before as order_before};
ghost use Rattle.rules.specs.Keys;

use crate::order::Order;
use crate::rank::Ranked;
use crate::side::Quotes;
use std::marker::PhantomData;

/// An order that is ranked on the side S.
#[derive_where(Clone, Copy)]
pub struct Queued<S> {
    pub order: Order,
    side: PhantomData<S>,
}

impl<S: Quotes> Queued<S> {
    /// Ranks an order on this side whichever its own is.
    pub fn new(order: Order) -> Queued<S>
        ensures { result.order ≡ order }
    {
        Queued {
            order,
            side: PhantomData,
        }
    }
}

// Better price first, then smaller arrival, then smaller number.
impl<S: Quotes> Ranked for Queued<S> {
    ghost identity = { λ q. q.order.number };

    ghost precedes = { λ a b. order_before S.Quotes.way a.order b.order };

    ghost oneway = { λ a b. (Keys.orders S.Quotes.way).ranks.one_way a.order b.order };

    ghost chain = { λ a b c. (Keys.orders S.Quotes.way).ranks.chain a.order b.order c.order };

    ghost level = { λ a b h k. ((Keys.orders S.Quotes.way).same a.order b.order h k).1.1.0 };

    fn before(&self, other: &Queued<S>) -> bool {
        if self.order.price != other.order.price {
            S::better(self.order.price, other.order.price)
        } else {
            (self.order.arrival, self.order.number) < (other.order.arrival, other.order.number)
        }
    }
}
