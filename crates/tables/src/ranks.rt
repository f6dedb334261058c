// The order at a rank, among orders in no order. Direction and row are parameters as in rows.rt.
ghost use Rattle.std.specs.Prelude.{◌≡◌};
ghost use Rattle.std.specs.List.{slice_get};
ghost use Rattle.rules.specs.Rank.{before as order_before};
ghost use Rattle.tables.specs.Listing.{Distinct, arranged, ahead as ahead_of};

use crate::rows::ranks_before;
use rules::order::{Direction, Order};

// How many orders of a side rank before the one given.
fn ahead(direction: Direction, row: &[Order], order: &Order) -> usize
    ensures { result ≡ ahead_of (order_before direction) order.now row.now }
{
    let mut count = 0;
    for other in row {
        if ranks_before(direction, other, order) {
            count += 1;
        }
    }
    count
}

/// The order at a rank of a side: the one with just so many ahead of it.
pub fn at_rank(direction: Direction, row: &[Order], rank: usize) -> Option<Order>
    requires { Distinct row.now }
    ensures { result ≡ slice_get (arranged (order_before direction) row.now) rank }
{
    for order in row {
        if ahead(direction, row, order) == rank {
            return Some(*order);
        }
    }
    None
}
