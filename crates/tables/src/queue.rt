// A table in a run of places that is lent to it: buys in its first half, sells in its second, each in rank order.
ghost use Rattle.std.specs.Prelude.{◌≡◌, length};
ghost use Rattle.tables.specs.Meaning.{ordered};
ghost use Rattle.tables.specs.Run.{Kept, half as half_of, start as start_of, stored as stored_in, empty_in};

use crate::both::Both;
use crate::place::Place;
use crate::rows::{insert_into, remove_at};
use crate::store::{self, Store};
use crate::table::{No, Table};
use rules::order::{Direction, Order};

// The most orders that a side of a queue holds.
const MOST: usize = 512;

/// A table over a lent run; docs/RULES.md says how many places it gives each side.
#[derive(Drop)]
pub struct Queue<'a> {
    // the caller's, so no vector
    run: &'a mut [Order],
    // how many orders each side holds
    counts: Both<usize>,
    ghost kept: { Kept run.now counts },
}

impl<'a> Queue<'a> {
    /// An empty queue over a run, which it holds as long as it lasts.
    pub fn new(run: &'a mut [Order]) -> Self
        ensures { stored_in result.run.now result.counts ≡ empty_in (length run.old) }
    {
        Queue {
            run,
            counts: Both { buys: 0, sells: 0 },
        }
    }

    // How many places each half has.
    fn half(&self) -> usize
        ensures { result ≡ half_of self.now.run.now }
    {
        self.run.len() / 2
    }

    // Where the half of a side begins.
    fn start(&self, direction: Direction) -> usize
        ensures { result ≡ start_of direction self.now.run.now }
    {
        match direction {
            Direction::Buy => 0,
            Direction::Sell => self.half(),
        }
    }
}

impl<'a> Store for Queue<'a> {
    ghost stored = { λ q. stored_in q.run.now q.counts };

    ghost sound = { λ q. q.kept.sound };

    fn clear(&mut self) {
        self.counts.buys = 0;
        self.counts.sells = 0;
    }

    fn places(&self) -> usize {
        self.half().min(MOST)
    }

    fn row(&self, direction: Direction) -> &[Order] {
        let start = self.start(direction);
        &self.run[start..start + *self.counts.of(direction)]
    }

    fn at(&self, direction: Direction, rank: usize) -> Option<Order> {
        // by `copied` the order would be copied out twice
        match self.row(direction).get(rank) {
            Some(order) => Some(*order),
            None => None,
        }
    }

    fn put(&mut self, order: Order) {
        let direction = order.direction;
        let start = self.start(direction);
        let end = start + self.half();
        let count = *self.counts.of(direction);
        insert_into(direction, &mut self.run[start..end], count, order);
        *self.counts.of_mut(direction) = count + 1;
    }

    fn take_out(&mut self, place: Place) {
        let start = self.start(place.direction);
        let end = start + self.half();
        let count = *self.counts.of(place.direction);
        remove_at(&mut self.run[start..end], count, place.index);
        *self.counts.of_mut(place.direction) = count - 1;
    }

    fn set_volume_at(&mut self, place: Place, volume: u32) {
        let start = self.start(place.direction);
        self.run[start + place.index].volume = volume;
    }
}

// What a table's calls do is written once for any store; clear, the order at a rank and the places are the store's own.
impl<'a> Table for Queue<'a> {
    ghost contents = { λ q. ordered (⟦<Queue<'a> as Store>⟧.stored q) };

    ghost sound = { λ q. q.kept.sound };

    fn clear(&mut self) {
        Store::clear(self)
    }

    fn at(&self, direction: Direction, rank: usize) -> Option<Order> {
        Store::at(self, direction, rank)
    }

    fn count(&self, direction: Direction) -> usize {
        store::count(self, direction)
    }

    fn places(&self) -> usize {
        Store::places(self)
    }

    fn find(&self, number: u32) -> Option<Order> {
        store::find(self, number)
    }

    fn add(&mut self, order: Order) -> Result<(), No> {
        store::add(self, order)
    }

    fn set_volume(&mut self, number: u32, volume: u32) -> Result<(), No> {
        store::set_volume(self, number, volume)
    }

    fn remove(&mut self, number: u32) -> Result<(), No> {
        store::remove(self, number)
    }
}
