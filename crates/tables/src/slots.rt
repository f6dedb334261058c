// A table of 32 places for each side, in no order, which it searches.
ghost use Rattle.std.specs.Prelude.{◌≡◌, IfOk};
ghost use Rattle.tables.specs.Meaning.{ordered};
ghost use Rattle.tables.specs.Slots.{Kept, stored as stored_in, empty_slots};

use crate::both::Both;
use crate::place::Place;
use crate::ranks::at_rank;
use crate::store::{self, Store};
use crate::table::{No, Table};
use crate::unsorted::Unsorted;
use rules::order::{Direction, Order};
use std::alloc::{AllocError, Global};

const PLACES: usize = 32;

/// A table of 32 places for each side, which needs no run.
#[derive(Drop)]
pub struct Slots {
    inner: Unsorted,
    ghost kept: { Kept inner },
}

impl Slots {
    /// Empty slots. Their memory is reserved here, and no later call wants any.
    pub fn new(heap: Global) -> Result<Slots, AllocError>
        ensures { IfOk result (λ s. stored_in s.inner ≡ empty_slots) }
    {
        let buys = Vec::with_capacity(heap, PLACES)?;
        let sells = Vec::with_capacity(heap, PLACES)?;
        Ok(Slots {
            inner: Unsorted {
                orders: Both { buys, sells },
            },
        })
    }
}

impl Store for Slots {
    ghost stored = { λ s. stored_in s.inner };

    ghost sound = { λ s. s.kept.sound };

    fn clear(&mut self) {
        self.inner.orders.buys.clear();
        self.inner.orders.sells.clear();
    }

    fn places(&self) -> usize {
        PLACES
    }

    fn row(&self, direction: Direction) -> &[Order] {
        self.inner.orders.of(direction).as_slice()
    }

    fn at(&self, direction: Direction, rank: usize) -> Option<Order> {
        at_rank(direction, self.row(direction), rank)
    }

    // Behind the others of its side.
    fn put(&mut self, order: Order) {
        self.inner
            .orders
            .of_mut(order.direction)
            .push_reserved(order)
    }

    fn take_out(&mut self, place: Place) {
        let _ = self
            .inner
            .orders
            .of_mut(place.direction)
            .remove(place.index);
    }

    fn set_volume_at(&mut self, place: Place, volume: u32) {
        if let Some(order) = self.inner.lend(place) {
            order.volume = volume;
        }
    }
}

// What a table's calls do is written once for any store; clear, the order at a rank and the places are the store's own.
impl Table for Slots {
    ghost contents = { λ s. ordered (⟦<Slots as Store>⟧.stored s) };

    ghost sound = { λ s. s.kept.sound };

    fn clear(&mut self) {
        Store::clear(self)
    }

    fn at(&self, direction: Direction, rank: usize) -> Option<Order> {
        Store::at(self, direction, rank)
    }

    fn count(&self, direction: Direction) -> usize {
        store::count(self, direction)
    }

    fn places(&self) -> usize {
        Store::places(self)
    }

    fn find(&self, number: u32) -> Option<Order> {
        store::find(self, number)
    }

    fn add(&mut self, order: Order) -> Result<(), No> {
        store::add(self, order)
    }

    fn set_volume(&mut self, number: u32, volume: u32) -> Result<(), No> {
        store::set_volume(self, number, volume)
    }

    fn remove(&mut self, number: u32) -> Result<(), No> {
        store::remove(self, number)
    }
}
