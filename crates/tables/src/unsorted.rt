// The orders of both sides, each side in no order.
ghost use Rattle.std.specs.Borrow.{LendsIf, sem};
ghost use Rattle.std.specs.List.{ItemMut};
ghost use Rattle.std.specs.Prelude.{vec_items};
ghost use Rattle.rules.specs.contracts.order.Order.{the_row as order_row};
ghost use Rattle.tables.specs.contracts.unsorted.Unsorted.{the_row};
ghost use Rattle.tables.specs.Both.{of};
ghost use Rattle.tables.specs.Slots.{overwritten};

use crate::both::Both;
use crate::place::Place;
use rules::order::Order;

/// A struct of its own, since a clause on what is lent has to name the type that it is lent from.
#[derive(Drop)]
pub struct Unsorted {
    pub orders: Both<Vec<Order>>,
}

impl Unsorted {
    /// Lends the order at a place, if there is one: what is written to it then stands there.
    pub fn lend(&mut self, place: Place) -> Option<&mut Order>
        ensures* lends { sem 𝓛
            (LendsIf the_row order_row self.entry result
            (λ o. overwritten place o self.old) self.old) }
        ensures item { ItemMut
            (vec_items (of place.direction self.old.orders)) place.index place.index result }
    {
        self.orders.of_mut(place.direction).get_mut(place.index)
    }
}
