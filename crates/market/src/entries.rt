// Orders that enter.
ghost use Rattle.std.specs.Prelude.{◌≡◌, ◌<◌, true, length, Ok};
ghost use Rattle.rules.specs.Side.{opposite};
ghost use Rattle.tables.specs.Meaning.{listed, takes};
ghost use Rattle.book.specs.declared.call.Call.TheVariants.{Enter};
ghost use Rattle.book.specs.Calls.{limit_price as price_for, order_of as order_made, lapse_left, held_left as held_of, stand_left, entry_trading, entry_of, step};
ghost use Rattle.book.specs.Model.{day_after};
ghost use Rattle.market.specs.Fills.{fill_of};
ghost use Rattle.market.specs.Outcome.{by_number, told_as, answer_of, run_after, written_into};

use crate::day::Day;
use crate::fills::sweep;
use book::answer::{Answer, Entered, Told};
use book::call::NewOrder;
use book::slip::Slip;
use rules::order::{Direction, Order};
use rules::refusal::Refusal;
use rules::side::{Buys, Sells, Side};
use rules::terms::Terms;
use tables::table::Table;

/// What an order comes to that was worked.
#[derive(Clone, Copy)]
pub struct Fill {
    pub traded: u128,
    pub held: u32,
    /// the slips written
    pub written: usize,
}

fn limit_price(terms: &Terms, direction: Direction, limit: Option<u32>) -> u32
    ensures { result ≡ price_for terms.now direction limit }
{
    let (lo, hi) = terms.band();
    match (limit, direction) {
        (Some(price), _) => price,
        (None, Direction::Buy) => hi,
        (None, Direction::Sell) => lo,
    }
}

// The order that an entry makes with the arrival, which is its number too.
fn order_of(terms: &Terms, arrival: u32, new: NewOrder) -> Order
    ensures { result ≡ order_made terms.now arrival new }
{
    Order {
        number: arrival,
        member: new.member,
        direction: new.direction,
        price: limit_price(terms, new.direction, new.limit),
        market: new.limit.is_none(),
        volume: new.volume,
        arrival,
    }
}

// What is held of an order of which so much is left.
fn held_left(order: &Order, left: u32) -> u32
    ensures { result ≡ held_of order.now left }
{
    if !order.market { left } else { 0 }
}

// What is left of an order after its sweep: a limit order stands, a market order lapses. The slips
// written.
fn place_left<T: Table>(table: &mut T, order: &Order, left: u32, run: &mut [Slip]) -> usize
    requires free { takes (T.Table.contents table.old) order.now ≡ true }
    requires place { 0 < length run.old }
    ensures written { result ≡ length (lapse_left order.now left) }
    ensures table { T.Table.contents table.new
        ≡ stand_left order.now left (T.Table.contents table.old) }
    ensures run { run.new ≡ written_into run.old (lapse_left order.now left) }
{
    if left == 0 {
        return 0;
    }
    if order.market {
        run[0] = Slip::Lapse {
            number: order.number,
            volume: left,
        };
        return 1;
    }
    let Ok(()) = table.add(Order {
        volume: left,
        ..*order
    }) else {
        unreachable!()
    };
    0
}

// An order of the side S enters in Open.
fn enter_trading_on<S: Side, T: Table>(table: &mut T, order: Order, run: &mut [Slip]) -> Fill
    requires side { order.direction ≡ S.Quotes.way }
    requires free { takes (T.Table.contents table.old) order ≡ true }
    requires long { length (listed (opposite order.direction) (T.Table.contents table.old))
        < length run.old }
    ensures fill { result ≡ fill_of (entry_trading order (T.Table.contents table.old)) }
    ensures table { T.Table.contents table.new
        ≡ (entry_trading order (T.Table.contents table.old)).table }
    ensures run { run.new
        ≡ written_into run.old (entry_trading order (T.Table.contents table.old)).slips }
{
    let swept = sweep::<S, T>(table, &order, run);
    let lapsed = place_left(table, &order, swept.left, &mut run[swept.written..]);
    Fill {
        traded: swept.traded,
        held: held_left(&order, swept.left),
        written: swept.written + lapsed,
    }
}

/// Here the side of an order goes from a value to a type.
pub fn enter_trading<T: Table>(table: &mut T, order: Order, run: &mut [Slip]) -> Fill
    requires free { takes (T.Table.contents table.old) order ≡ true }
    requires long { length (listed (opposite order.direction) (T.Table.contents table.old))
        < length run.old }
    ensures fill { result ≡ fill_of (entry_trading order (T.Table.contents table.old)) }
    ensures table { T.Table.contents table.new
        ≡ (entry_trading order (T.Table.contents table.old)).table }
    ensures run { run.new
        ≡ written_into run.old (entry_trading order (T.Table.contents table.old)).slips }
{
    match order.direction {
        Direction::Buy => enter_trading_on::<Buys, T>(table, order, run),
        Direction::Sell => enter_trading_on::<Sells, T>(table, order, run),
    }
}

/// An order enters: it trades first, if it is to. Where it does not, the table's no would be row 11.
pub fn enter_order<T: Table>(
    table: &mut T,
    order: Order,
    trades: bool,
    run: &mut [Slip],
) -> Result<Fill, Refusal>
    requires free { takes (T.Table.contents table.old) order ≡ true }
    requires long { trades ≡ true
        → length (listed (opposite order.direction) (T.Table.contents table.old))
        < length run.old }
    ensures fill { by_number result
        ≡ Ok (fill_of (entry_of trades order (T.Table.contents table.old))) }
    ensures table { T.Table.contents table.new
        ≡ (entry_of trades order (T.Table.contents table.old)).table }
    ensures run { run.new
        ≡ written_into run.old (entry_of trades order (T.Table.contents table.old)).slips }
{
    if trades {
        return Ok(enter_trading(table, order, run));
    }
    table.add(order).map_err(|_no| Refusal::SideFull)?;
    Ok(Fill {
        traded: 0,
        held: order.volume,
        written: 0,
    })
}

impl<T: Table> Day<T> {
    /// Enters an order. Errors: the first of its rows that refuses; day and run are then unchanged.
    pub fn enter(
        &mut self,
        terms: &Terms,
        new: NewOrder,
        run: &mut [Slip],
    ) -> Result<Answer<Entered>, Refusal>
        ensures answer { told_as Told.Entered result
            ≡ answer_of (step terms.now self.old (Enter new) (length run.old)) }
        ensures day { self.new
            ≡ day_after self.old (step terms.now self.old (Enter new) (length run.old)) }
        ensures run { run.new
            ≡ run_after run.old (step terms.now self.old (Enter new) (length run.old)) }
    {
        self.check_enter(terms, new, run.len())?;
        self.tally += 1;
        let order = order_of(terms, self.tally, new);
        let fill = enter_order(&mut self.table, order, self.stage.is_open(), run)?;
        let told = Entered {
            number: order.number,
            traded: fill.traded,
            held: fill.held,
        };
        Ok(Answer {
            told,
            slips: fill.written,
        })
    }
}
