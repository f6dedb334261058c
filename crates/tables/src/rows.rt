// Rows of orders: searching one by number or rank, and opening and closing a place in it. Either half of a run is passed
// to the same insertion as a slice, so a row, its direction and its count are parameters.
ghost use Rattle.std.specs.Prelude.{◌≡◌, ◌+◌, ◌-◌, ◌<◌, ◌≤◌, true, length, take, slice_index_or, slice_set};
ghost use Rattle.std.specs.List.{insert, remove};
ghost use Rattle.rules.specs.Book.{no_order};
ghost use Rattle.rules.specs.Rank.{before as order_before};
ghost use Rattle.tables.specs.Listing.{in_rank, insert as insert_ranked, with_volume};
ghost use Rattle.tables.specs.Stored.{rank_of as rank_in, Located};

use rules::order::{Direction, Order};
use rules::queued::Queued;
use rules::rank::Ranked;
use rules::side::{Buys, Quotes, Sells};

fn ranks_on<S: Quotes>(a: &Order, b: &Order) -> bool
    ensures { result ≡ order_before S.Quotes.way a.now b.now }
{
    Queued::<S>::new(*a).before(&Queued::new(*b))
}

/// Whether the first of two orders ranks before the second on a side.
pub fn ranks_before(direction: Direction, a: &Order, b: &Order) -> bool
    ensures { result ≡ order_before direction a.now b.now }
{
    // the one place where a table's side goes from a value to a type
    match direction {
        Direction::Buy => ranks_on::<Buys>(a, b),
        Direction::Sell => ranks_on::<Sells>(a, b),
    }
}

// Up to so many orders are searched and moved one by one, which costs less than halving and a call of the library.
const FEW: usize = 16;

// The index at which an order belongs in a row: before the first that it ranks before.
fn rank_from_front(direction: Direction, row: &[Order], order: &Order) -> usize
    ensures place { result ≡ rank_in (order_before direction) order.now row.now }
    ensures within { result ≤ length row.now }
{
    for (i, held) in row.iter().enumerate() {
        if ranks_before(direction, order, held) {
            return i;
        }
    }
    row.len()
}

// The same of a row in rank order: behind all that it does not rank before.
fn rank_of(direction: Direction, row: &[Order], order: &Order) -> usize
    requires { in_rank (order_before direction) row.now ≡ true }
    ensures place { result ≡ rank_in (order_before direction) order.now row.now }
    ensures within { result ≤ length row.now }
{
    if row.len() <= FEW {
        return rank_from_front(direction, row, order);
    }
    row.partition_point(|held| !ranks_before(direction, order, held))
}

/// The index of the order with a number.
pub fn index_of(row: &[Order], number: u32) -> Option<usize>
    ensures { Located number row.now result }
{
    for (i, held) in row.iter().enumerate() {
        if held.number == number {
            return Some(i);
        }
    }
    None
}

// Puts an order at `at` among the first `count` of a row, and moves those behind it one by one.
fn insert_stepwise(row: &mut [Order], count: usize, at: usize, order: Order)
    requires { (at ≤ count) × (count < length row.old) }
    ensures { take (count + 1) row.new ≡ insert (take count row.old) at order }
{
    for i in (at..count).rev() {
        row[i + 1] = row[i];
    }
    row[at] = order;
}

// Puts an order at `at` among the first `count` of a row; each order behind it moves once.
fn insert_at(row: &mut [Order], count: usize, at: usize, order: Order)
    requires { (at ≤ count) × (count < length row.old) }
    ensures { take (count + 1) row.new ≡ insert (take count row.old) at order }
{
    if count - at <= FEW {
        insert_stepwise(row, count, at, order);
        return;
    }
    row[at..count + 1].rotate_right(1);
    row[at] = order;
}

/// Puts an order at its rank among the first `count` of a row, which are in rank order; each order behind it moves once.
pub fn insert_into(direction: Direction, row: &mut [Order], count: usize, order: Order)
    requires room { count < length row.old }
    requires ranked { in_rank (order_before direction) (take count row.old) ≡ true }
    ensures { take (count + 1) row.new
        ≡ insert_ranked (order_before direction) order (take count row.old) }
{
    let at = rank_of(direction, &row[..count], &order);
    insert_at(row, count, at, order);
}

/// Takes the order at `at` out of the first `count` of a row; each order behind it moves once.
pub fn remove_at(row: &mut [Order], count: usize, at: usize)
    requires { (at < count) × (count ≤ length row.old) }
    ensures { take (count - 1) row.new ≡ remove (take count row.old) at }
{
    for i in at..count - 1 {
        row[i] = row[i + 1];
    }
}
