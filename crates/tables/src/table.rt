// A table of orders, by its meaning: the buys and the sells that it holds, each in rank order, and its places.
ghost use Rattle.std.specs.Prelude.{◌≡◌, length};
ghost use Rattle.std.specs.List.{slice_get};
ghost use Rattle.tables.specs.Meaning.{Contents, Sound, listed, cleared, lookup, takes, sets_volume, said, held, added, volume_set, removed};

use rules::order::{Direction, Order};

/// A table's refusal, which says nothing more.
#[derive(Clone, Copy, Debug, PartialEq, Eq)]
pub struct No;

/// A table of orders. What a call refuses leaves it unchanged.
pub trait Table {
    // what it has room for, and the orders that it holds
    ghost contents: { Self → Contents };

    /// Takes out every order.
    fn clear(&mut self)
        ensures { contents self.new ≡ cleared (contents self.old) };

    /// The order at a rank of a side, from 0.
    fn at(&self, direction: Direction, rank: usize) -> Option<Order>
        ensures { result ≡ slice_get (listed direction (contents self.now)) rank };

    /// How many orders a side holds.
    fn count(&self, direction: Direction) -> usize
        ensures { result ≡ length (listed direction (contents self.now)) };

    /// How many orders a side has room for.
    fn places(&self) -> usize
        ensures { result ≡ (contents self.now).capacity.places };

    /// The order with a number, on either side.
    fn find(&self, number: u32) -> Option<Order>
        ensures { result ≡ lookup number (contents self.now).book };

    /// Puts an order at its rank. Errors: its side is full, or its number is held on either side.
    fn add(&mut self, order: Order) -> Result<(), No>
        ensures answer { result ≡ said (takes (contents self.old) order) }
        ensures after { contents self.new ≡ added order (contents self.old) };

    /// Gives a held order this volume, in shares. Errors: the number is not held, or the volume is 0.
    fn set_volume(&mut self, number: u32, volume: u32) -> Result<(), No>
        ensures answer { result ≡ said (sets_volume number volume (contents self.old)) }
        ensures after { contents self.new ≡ volume_set number volume (contents self.old) };

    /// Takes out a held order. Errors: the number is not held.
    fn remove(&mut self, number: u32) -> Result<(), No>
        ensures answer { result ≡ said (held number (contents self.old).book) }
        ensures after { contents self.new ≡ removed number (contents self.old) };

    // what every table keeps
    ghost sound: { (t : Self) → Sound (contents t) };
}

/// What every table keeps, at hand where a proof about any table wants it.
pub fn keeps<T: Table>(table: &T)
    ensures { Sound (T.Table.contents table.now) }
{}
