// What stands behind a table here: rows of orders, in rank order or in none. What such tables do alike is written once,
// over any store; each hands its calls on to it.
ghost use Rattle.std.specs.Prelude.{◌≡◌, ◌<◌, true, length};
ghost use Rattle.std.specs.List.{slice_get};
ghost use Rattle.tables.specs.Meaning.{Contents, Sound, listed, cleared, takes as takes_order, lookup, sets_volume, said, held, added, volume_set, removed, ordered, put_in};
ghost use Rattle.tables.specs.Stored.{Placed, PlacedOn, without_at, with_volume_at};

use crate::place::Place;
use crate::rows::index_of;
use crate::table::No;
use rules::order::{Direction, Order};

/// What a table is made of. What it means is this, put in rank order.
pub trait Store {
    // what it has room for, and its orders as they stand, in rank order or in none
    ghost stored: { Self → Contents };

    /// Takes out every order.
    fn clear(&mut self)
        ensures { stored self.new ≡ cleared (stored self.old) };

    /// How many orders a side has room for.
    fn places(&self) -> usize
        ensures { result ≡ (stored self.now).capacity.places };

    /// The orders of a side as they stand.
    fn row(&self, direction: Direction) -> &[Order]
        ensures { result.now ≡ listed direction (stored self.now) };

    /// The order at a rank of a side.
    fn at(&self, direction: Direction, rank: usize) -> Option<Order>
        ensures { result ≡ slice_get (listed direction (ordered (stored self.now))) rank };

    /// Puts in an order that is taken, anywhere that keeps its rank.
    fn put(&mut self, order: Order)
        requires { takes_order (stored self.old) order ≡ true }
        ensures { ordered (stored self.new) ≡ put_in order (ordered (stored self.old)) };

    /// Takes out the order at a place.
    fn take_out(&mut self, place: Place)
        requires { place.index < length (listed place.direction (stored self.old)) }
        ensures { stored self.new ≡ without_at place (stored self.old) };

    /// Gives the order at a place another volume.
    fn set_volume_at(&mut self, place: Place, volume: u32)
        requires { place.index < length (listed place.direction (stored self.old)) }
        ensures { stored self.new ≡ with_volume_at place volume (stored self.old) };

    ghost sound: { (s : Self) → Sound (ordered (stored s)) };
}

// Where the order with a number stands on a side.
fn place_on<S: Store>(store: &S, direction: Direction, number: u32) -> Option<Place>
    ensures { PlacedOn direction number (S.Store.stored store.now) result }
{
    let index = index_of(store.row(direction), number)?;
    Some(Place { direction, index })
}

// Where the order with a number stands, on either side.
fn place_of<S: Store>(store: &S, number: u32) -> Option<Place>
    ensures { Placed number (S.Store.stored store.now) result }
{
    place_on(store, Direction::Buy, number).or_else(|| place_on(store, Direction::Sell, number))
}

// Whether an order is taken.
fn takes<S: Store>(store: &S, order: &Order) -> bool
    ensures stored { result ≡ takes_order (S.Store.stored store.now) order.now }
    ensures meant { result ≡ takes_order (ordered (S.Store.stored store.now)) order.now }
{
    store.row(order.direction).len() < store.places() && place_of(store, order.number).is_none()
}

/// How many orders a side holds.
pub fn count<S: Store>(store: &S, direction: Direction) -> usize
    ensures { result ≡ length (listed direction (ordered (S.Store.stored store.now))) }
{
    store.row(direction).len()
}

/// The order with a number, on either side.
pub fn find<S: Store>(store: &S, number: u32) -> Option<Order>
    ensures { result ≡ lookup number (ordered (S.Store.stored store.now)).book }
{
    // by `?` the order that is found would be copied out twice
    match place_of(store, number) {
        Some(place) => Some(store.row(place.direction)[place.index]),
        None => None,
    }
}

/// Puts in an order. Errors: its side is full, or its number is held on either side. The store is then unchanged.
pub fn add<S: Store>(store: &mut S, order: Order) -> Result<(), No>
    ensures answer { result ≡ said (takes_order (ordered (S.Store.stored store.old)) order) }
    ensures after { ordered (S.Store.stored store.new)
        ≡ added order (ordered (S.Store.stored store.old)) }
{
    if !takes(store, &order) {
        return Err(No);
    }
    store.put(order);
    Ok(())
}

/// Gives a held order this volume, in shares. Errors: the number is not held, or the volume is 0. The store is then
/// unchanged.
pub fn set_volume<S: Store>(store: &mut S, number: u32, volume: u32) -> Result<(), No>
    ensures answer { result
        ≡ said (sets_volume number volume (ordered (S.Store.stored store.old))) }
    ensures after { ordered (S.Store.stored store.new)
        ≡ volume_set number volume (ordered (S.Store.stored store.old)) }
{
    if volume == 0 {
        return Err(No);
    }
    let place = place_of(store, number).ok_or(No)?;
    store.set_volume_at(place, volume);
    Ok(())
}

/// Takes out a held order. Errors: the number is not held. The store is then unchanged.
pub fn remove<S: Store>(store: &mut S, number: u32) -> Result<(), No>
    ensures answer { result ≡ said (held number (ordered (S.Store.stored store.old)).book) }
    ensures after { ordered (S.Store.stored store.new)
        ≡ removed number (ordered (S.Store.stored store.old)) }
{
    let place = place_of(store, number).ok_or(No)?;
    store.take_out(place);
    Ok(())
}
