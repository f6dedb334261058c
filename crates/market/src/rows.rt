// The rows of each call, read from the top as the rules list them.
ghost use Rattle.std.specs.Prelude.{◌≡◌, ◌==◌, not, IfOk, Some};
ghost use Rattle.rules.specs.Entry.{refusal_of, row};
ghost use Rattle.book.specs.Rows.{first_row, beyond_band, all_arrivals_given, has_place};
ghost use Rattle.book.specs.Rows.{short_of_trades, order_count, short_of_strike, order_named};
ghost use Rattle.book.specs.Rows.{enter_rows, alter_rows, withdraw_rows, advance_rows};
ghost use Rattle.book.specs.Stages.{is_closed};

use crate::day::Day;
use book::call::{Alteration, NewOrder, Withdrawal};
use book::stage::Stage;
use rules::entry::{check_member, check_price, check_volume};
use rules::order::{Direction, Order};
use rules::refusal::Refusal;
use rules::terms::Terms;
use tables::table::Table;

fn check_stage(stage: Stage) -> Result<(), Refusal>
    ensures { refusal_of result ≡ row (is_closed stage) 3 }
{
    match stage {
        Stage::Closed => Err(Refusal::Closed),
        _ => Ok(()),
    }
}

// A market order names no price.
fn check_limit(terms: &Terms, limit: Option<u32>) -> Result<(), Refusal>
    ensures { refusal_of result ≡ row (beyond_band terms.now limit) 6 }
{
    match limit {
        Some(price) => check_price(terms, price),
        None => Ok(()),
    }
}

fn check_owner(order: &Order, member: u32) -> Result<(), Refusal>
    ensures { refusal_of result ≡ row (not (member == order.now.member)) 8 }
{
    if member != order.member {
        return Err(Refusal::NotOwner);
    }
    Ok(())
}

// A market order is not altered.
fn check_market(order: &Order) -> Result<(), Refusal>
    ensures { refusal_of result ≡ row order.now.market 9 }
{
    if order.market {
        return Err(Refusal::MarketOrder);
    }
    Ok(())
}

fn check_arrivals(tally: u32) -> Result<(), Refusal>
    ensures { refusal_of result ≡ row (all_arrivals_given tally) 10 }
{
    if tally >= 1_000_000 {
        return Err(Refusal::ArrivalsGiven);
    }
    Ok(())
}

impl<T: Table> Day<T> {
    fn check_side(&self, direction: Direction) -> Result<(), Refusal>
        ensures { refusal_of result ≡ row (not (has_place direction self.now.table)) 11 }
    {
        if self.table.count(direction) >= self.table.places() {
            return Err(Refusal::SideFull);
        }
        Ok(())
    }

    // Trading in Open may write a slip for each order of the other side, and one more.
    fn check_trades(&self, direction: Direction, room: usize) -> Result<(), Refusal>
        ensures { refusal_of result
            ≡ row (short_of_trades self.now.stage direction self.now.table room) 12 }
    {
        match self.stage {
            Stage::Open if room <= self.table.count(direction.opposite()) => {
                Err(Refusal::RunTooShort)
            }
            _ => Ok(()),
        }
    }

    // How many orders are held.
    fn order_count(&self) -> usize
        ensures { result ≡ order_count self.now.table }
    {
        self.table.count(Direction::Buy) + self.table.count(Direction::Sell)
    }

    // A strike may write a slip for each order held.
    fn check_strike(&self, room: usize) -> Result<(), Refusal>
        ensures { refusal_of result ≡ row (short_of_strike self.now.stage self.now.table room) 12 }
    {
        if self.stage.strikes() && room < self.order_count() {
            return Err(Refusal::RunTooShort);
        }
        Ok(())
    }

    /// The rows of an enter over a run of so many places, and so of each call below.
    pub fn check_enter(&self, terms: &Terms, new: NewOrder, room: usize) -> Result<(), Refusal>
        ensures { refusal_of result ≡ first_row (enter_rows terms.now self.now new room) }
    {
        check_stage(self.stage)?;
        check_member(new.member)?;
        check_volume(terms, new.volume)?;
        check_limit(terms, new.limit)?;
        check_arrivals(self.tally)?;
        self.check_side(new.direction)?;
        self.check_trades(new.direction, room)?;
        Ok(())
    }

    /// The rows of an alter; it hands on the order that is named.
    pub fn check_alter(
        &self,
        terms: &Terms,
        wanted: Alteration,
        room: usize,
    ) -> Result<Order, Refusal>
        ensures rows { let held = order_named wanted.number self.now in
            refusal_of result ≡ first_row (alter_rows terms.now self.now wanted room held) }
        ensures named { IfOk result (λ order. order_named wanted.number self.now ≡ Some order) }
    {
        check_stage(self.stage)?;
        check_member(wanted.member)?;
        check_volume(terms, wanted.volume)?;
        check_limit(terms, Some(wanted.price))?;
        let order = self.table.find(wanted.number).ok_or(Refusal::NotHeld)?;
        check_owner(&order, wanted.member)?;
        check_market(&order)?;
        check_arrivals(self.tally)?;
        self.check_trades(order.direction, room)?;
        Ok(order)
    }

    /// The rows of a withdraw; it hands on the order that is named.
    pub fn check_withdraw(&self, named: Withdrawal) -> Result<Order, Refusal>
        ensures rows { let held = order_named named.number self.now in
            refusal_of result ≡ first_row (withdraw_rows self.now named held) }
        ensures named { IfOk result (λ order. order_named named.number self.now ≡ Some order) }
    {
        check_stage(self.stage)?;
        check_member(named.member)?;
        let order = self.table.find(named.number).ok_or(Refusal::NotHeld)?;
        check_owner(&order, named.member)?;
        Ok(order)
    }

    /// The rows of an advance.
    pub fn check_advance(&self, room: usize) -> Result<(), Refusal>
        ensures { refusal_of result ≡ first_row (advance_rows self.now room) }
    {
        check_stage(self.stage)?;
        self.check_strike(room)?;
        Ok(())
    }
}
