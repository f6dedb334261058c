// Orders that are altered, and orders that are withdrawn.
ghost use Rattle.std.specs.Prelude.{◌≡◌, ℕ, ◌+◌, ◌<◌, ◌≤◌, true, List, Some, length, Ok};
ghost use Rattle.rules.specs.Side.{opposite};
ghost use Rattle.rules.specs.declared.order.Order.{Order};
ghost use Rattle.rules.specs.declared.terms.Terms.{Terms};
ghost use Rattle.tables.specs.Listing.{with_volume};
ghost use Rattle.tables.specs.Meaning.{listed, lookup, added, removed};
ghost use Rattle.book.specs.declared.call.Call.TheVariants.{Alter, Withdraw};
ghost use Rattle.book.specs.Stages.{is_open};
ghost use Rattle.book.specs.Calls.{entry_of, entry_again, alter as altering, step};
ghost use Rattle.book.specs.Model.{day_after};
ghost use Rattle.book.specs.declared.slip.Slip.{Slip};
ghost use Rattle.market.specs.Fills.{fill_of};
ghost use Rattle.market.specs.Outcome.{by_number, told_as, answer_of, run_after, written_into};

use crate::day::Day;
use crate::entries::{Fill, enter_order};
use book::answer::{Altered, Answer, Told, Withdrawn};
use book::call::{Alteration, Withdrawal};
use book::slip::Slip;
use rules::order::Order;
use rules::refusal::Refusal;
use rules::terms::Terms;
use tables::table::Table;

// An order leaves its place and enters again; it trades first, if it is to.
fn enter_again<T: Table>(
    table: &mut T,
    order: Order,
    trades: bool,
    run: &mut [Slip],
) -> Result<Fill, Refusal>
    requires stands { ((o : Order)
        × (lookup order.number (T.Table.contents table.old).book ≡ Some o)
        × (o.direction ≡ order.direction)) }
    requires long { trades ≡ true
        → length (listed (opposite order.direction) (T.Table.contents table.old))
        < length run.old }
    ensures fill { let out = removed order.number (T.Table.contents table.old) in
        by_number result ≡ Ok (fill_of (entry_of trades order out)) }
    ensures table { let out = removed order.number (T.Table.contents table.old) in
        T.Table.contents table.new ≡ (entry_of trades order out).table }
    ensures run { let out = removed order.number (T.Table.contents table.old) in
        run.new ≡ written_into run.old (entry_of trades order out).slips }
{
    table.remove(order.number).map_err(|_no| Refusal::NotHeld)?;
    enter_order(table, order, trades, run)
}

// The order as it is to be, with the next arrival.
fn renewed(tally: &mut u32, order: &Order, wanted: &Alteration) -> Order
    requires { tally.old < 1000000 }
    ensures tally { tally.new ≡ tally.old + 1 }
    ensures order { result ≡ record order.now {
      price = wanted.now.price;
      volume = wanted.now.volume;
      arrival = tally.old + 1;
    } }
{
    *tally += 1;
    Order {
        price: wanted.price,
        volume: wanted.volume,
        arrival: *tally,
        ..*order
    }
}

impl<T: Table> Day<T> {
    // Another price or a greater volume takes a new arrival, and another price trades in Open; a
    // smaller volume keeps its place; with neither changed the order stays as it is.
    fn change(
        &mut self,
        order: Order,
        wanted: Alteration,
        run: &mut [Slip],
    ) -> Result<Fill, Refusal>
        requires given { self.old.tally < 1000000 }
        requires some { 0 < wanted.volume }
        requires found { lookup order.number self.old.table.book ≡ Some order }
        requires long { is_open self.old.stage ≡ true
            → length (listed (opposite order.direction) self.old.table) < length run.old }
        ensures day { self.new ≡ (altering self.old wanted order).day }
        ensures fill { by_number result ≡ Ok (fill_of (entry_again self.old wanted order)) }
        ensures run { run.new ≡ written_into run.old (altering self.old wanted order).slips }
    {
        match (order, wanted) {
            (o, w) if w.price != o.price => {
                let again = renewed(&mut self.tally, &o, &w);
                enter_again(&mut self.table, again, self.stage.is_open(), run)
            }
            (o, w) if w.volume > o.volume => {
                let again = renewed(&mut self.tally, &o, &w);
                enter_again(&mut self.table, again, false, run)
            }
            (o, w) if w.volume < o.volume => {
                self.table
                    .set_volume(o.number, w.volume)
                    .map_err(|_no| Refusal::NotHeld)?;
                Ok(Fill {
                    traded: 0,
                    held: w.volume,
                    written: 0,
                })
            }
            (o, _) => {
                Ok(Fill {
                    traded: 0,
                    held: o.volume,
                    written: 0,
                })
            }
        }
    }

    /// Alters an order. Errors: the first of its rows that refuses; day and run are then unchanged.
    pub fn alter(
        &mut self,
        terms: &Terms,
        wanted: Alteration,
        run: &mut [Slip],
    ) -> Result<Answer<Altered>, Refusal>
        ensures answer { told_as Told.Altered result
            ≡ answer_of (step terms.now self.old (Alter wanted) (length run.old)) }
        ensures day { self.new
            ≡ day_after self.old (step terms.now self.old (Alter wanted) (length run.old)) }
        ensures run { run.new
            ≡ run_after run.old (step terms.now self.old (Alter wanted) (length run.old)) }
    {
        let order = self.check_alter(terms, wanted, run.len())?;
        let fill = self.change(order, wanted, run)?;
        let told = Altered {
            traded: fill.traded,
            held: fill.held,
        };
        Ok(Answer {
            told,
            slips: fill.written,
        })
    }

    /// Withdraws an order; this needs no terms, and writes no slip. Errors: the first of its rows that refuses; the day is
    /// then unchanged.
    pub fn withdraw(&mut self, named: Withdrawal) -> Result<Answer<Withdrawn>, Refusal>
        ensures answer { (terms : Terms) (room : ℕ) →
            told_as Told.Withdrawn result ≡ answer_of (step terms self.old (Withdraw named) room) }
        ensures day { (terms : Terms) (room : ℕ) →
            self.new ≡ day_after self.old (step terms self.old (Withdraw named) room) }
    {
        let order = self.check_withdraw(named)?;
        self.table
            .remove(named.number)
            .map_err(|_no| Refusal::NotHeld)?;
        let told = Withdrawn {
            volume: order.volume,
        };
        Ok(Answer { told, slips: 0 })
    }
}
