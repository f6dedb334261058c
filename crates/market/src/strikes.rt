// Striking a fixing.
ghost use Rattle.std.specs.Prelude.{◌≡◌, ◌≤◌, ◌++◌, Bool, Some, length};
ghost use Rattle.rules.specs.declared.order.Order.{Order};
ghost use Rattle.book.specs.declared.slip.Slip.{Slip};
ghost use Rattle.tables.specs.Meaning.{listed, with_listed, holding, book_of, each_side};
ghost use Rattle.book.specs.Rows.{order_count};
ghost use Rattle.book.specs.Calls.{fixing_price, fixing_trades, match_at, turnover, going_slips, staying_orders, lapse_of, lapses, limit_orders, strike_slips, book_after_strike};
ghost use Rattle.market.specs.Outcome.{written_into};

use crate::curve::TableCurve;
use crate::fills::take;
use book::slip::Slip;
use rules::fixing::fixing_on;
use rules::order::{Direction, Order};
use rules::side::{Buys, Quotes, Sells};
use rules::terms::Terms;
use tables::table::Table;

/// What a strike comes to beside the table and the run.
#[derive(Clone, Copy)]
pub struct Struck {
    pub price: Option<u32>,
    pub traded: u128,
    /// the slips written
    pub written: usize,
}

// The price at which the orders of a table fix.
fn price_of<T: Table>(terms: &Terms, table: &T) -> Option<u32>
    ensures { result ≡ fixing_price terms.now (T.Table.contents table.now).book }
{
    fixing_on(terms, &TableCurve { table }).map(|best| best.price)
}

// The first buy trades with the first sell while both are willing at the price.
fn pair<T: Table>(table: &mut T, price: u32, run: &mut [Slip]) -> (u128, usize)
    requires room { order_count (T.Table.contents table.old) ≤ length run.old }
    requires few { order_count (T.Table.contents table.old) ≤ 1000000 }
    ensures traded { let old = (T.Table.contents table.old).book in
        result.0 ≡ turnover (match_at (Some price) old.buys old.sells).slips }
    ensures written { let old = (T.Table.contents table.old).book in
        result.1 ≡ length (match_at (Some price) old.buys old.sells).slips }
    ensures table { let old = T.Table.contents table.old in
        let paired = match_at (Some price) old.book.buys old.book.sells in
        T.Table.contents table.new ≡ holding old (book_of paired.buys paired.sells) }
    ensures run { let old = (T.Table.contents table.old).book in
        run.new ≡ written_into run.old (match_at (Some price) old.buys old.sells).slips }
{
    let mut traded: u128 = 0;
    let mut written = 0;
    'pairs: loop {
        let (Some(buy), Some(sell)) = (table.at(Direction::Buy, 0), table.at(Direction::Sell, 0))
        else {
            break (traded, written);
        };
        if !Buys::willing(buy.price, price) || !Sells::willing(sell.price, price) {
            break (traded, written);
        }
        let volume = buy.volume.min(sell.volume);
        run[written] = Slip::Trade {
            buy: buy.number,
            sell: sell.number,
            price,
            volume,
        };
        written += 1;
        traded += u128::from(volume);
        take(table, &buy, volume);
        take(table, &sell, volume);
    }
}

// What goes from a table, and the slip for each.
trait Leaving {
    ghost goes: { Self → Order → Bool };

    ghost slip: { Self → Order → Slip };

    fn is_to_go(&self, order: &Order) -> bool
        ensures { result ≡ goes self.now order.now };

    fn slip_of(&self, order: &Order) -> Slip
        ensures { result ≡ slip self.now order.now };
}

// Market orders lapse.
struct Lapsing {}

impl Leaving for Lapsing {
    ghost goes = { λ l o. o.market };

    ghost slip = { λ l o. lapse_of o };

    fn is_to_go(&self, order: &Order) -> bool {
        order.market
    }

    fn slip_of(&self, order: &Order) -> Slip {
        Slip::Lapse {
            number: order.number,
            volume: order.volume,
        }
    }
}

// The orders of a side that are to go leave it, in rank order. The slips written.
fn let_go<L: Leaving, T: Table>(
    leaving: &L,
    table: &mut T,
    direction: Direction,
    run: &mut [Slip],
) -> usize
    requires room { length (listed direction (T.Table.contents table.old)) ≤ length run.old }
    requires few { length (listed direction (T.Table.contents table.old)) ≤ 1000000 }
    ensures written { let goes = L.Leaving.goes leaving.now in
        let slip = L.Leaving.slip leaving.now in
        result ≡ length (going_slips goes slip (listed direction (T.Table.contents table.old))) }
    ensures table { let goes = L.Leaving.goes leaving.now in
        let old = T.Table.contents table.old in
        T.Table.contents table.new
        ≡ with_listed direction (staying_orders goes (listed direction old)) old }
    ensures run { let goes = L.Leaving.goes leaving.now in
        let slip = L.Leaving.slip leaving.now in
        let old = listed direction (T.Table.contents table.old) in
        run.new ≡ written_into run.old (going_slips goes slip old) }
{
    let mut written = 0;
    let mut rank = 0;
    'orders: while let Some(order) = table.at(direction, rank) {
        if !leaving.is_to_go(&order) {
            rank += 1;
            continue;
        }
        run[written] = leaving.slip_of(&order);
        written += 1;
        let Ok(()) = table.remove(order.number) else {
            unreachable!()
        };
    }
    written
}

// The market orders of a side lapse, in rank order. The slips written.
fn lapse<T: Table>(table: &mut T, direction: Direction, run: &mut [Slip]) -> usize
    requires room { length (listed direction (T.Table.contents table.old)) ≤ length run.old }
    requires few { length (listed direction (T.Table.contents table.old)) ≤ 1000000 }
    ensures written { result ≡ length (lapses (listed direction (T.Table.contents table.old))) }
    ensures table { let old = T.Table.contents table.old in
        T.Table.contents table.new
        ≡ with_listed direction (limit_orders (listed direction old)) old }
    ensures run { run.new
        ≡ written_into run.old (lapses (listed direction (T.Table.contents table.old))) }
{
    let_go(&Lapsing {}, table, direction, run)
}

// The trades of a strike: none without a price.
fn pair_at<T: Table>(table: &mut T, price: Option<u32>, run: &mut [Slip]) -> (u128, usize)
    requires room { order_count (T.Table.contents table.old) ≤ length run.old }
    requires few { order_count (T.Table.contents table.old) ≤ 1000000 }
    ensures traded { let old = (T.Table.contents table.old).book in
        result.0 ≡ turnover (match_at price old.buys old.sells).slips }
    ensures written { let old = (T.Table.contents table.old).book in
        result.1 ≡ length (match_at price old.buys old.sells).slips }
    ensures table { let old = T.Table.contents table.old in
        let paired = match_at price old.book.buys old.book.sells in
        T.Table.contents table.new ≡ holding old (book_of paired.buys paired.sells) }
    ensures run { let old = (T.Table.contents table.old).book in
        run.new ≡ written_into run.old (match_at price old.buys old.sells).slips }
{
    match price {
        Some(p) => pair(table, p, run),
        None => (0, 0),
    }
}

// The market orders of both sides lapse, buys first. The slips written.
fn lapse_both<T: Table>(table: &mut T, run: &mut [Slip]) -> usize
    requires room { order_count (T.Table.contents table.old) ≤ length run.old }
    requires few { order_count (T.Table.contents table.old) ≤ 1000000 }
    ensures written { let old = (T.Table.contents table.old).book in
        result ≡ length (lapses old.buys ++ lapses old.sells) }
    ensures table { let old = T.Table.contents table.old in
        T.Table.contents table.new ≡ holding old (each_side limit_orders old.book) }
    ensures run { let old = (T.Table.contents table.old).book in
        run.new ≡ written_into run.old (lapses old.buys ++ lapses old.sells) }
{
    let buys = lapse(table, Direction::Buy, run);
    buys + lapse(table, Direction::Sell, &mut run[buys..])
}

/// Trades at the fixing price, if there is one, and then lets the market orders lapse.
pub fn strike<T: Table>(terms: &Terms, table: &mut T, run: &mut [Slip]) -> Struck
    requires room { order_count (T.Table.contents table.old) ≤ length run.old }
    requires few { order_count (T.Table.contents table.old) ≤ 1000000 }
    ensures price { result.price ≡ fixing_price terms.now (T.Table.contents table.old).book }
    ensures traded { let trades = fixing_trades terms.now (T.Table.contents table.old).book in
        result.traded ≡ turnover (strike_slips trades) }
    ensures written { let trades = fixing_trades terms.now (T.Table.contents table.old).book in
        result.written ≡ length (strike_slips trades) }
    ensures table { let old = T.Table.contents table.old in
        T.Table.contents table.new
        ≡ holding old (book_after_strike (fixing_trades terms.now old.book)) }
    ensures run { let trades = fixing_trades terms.now (T.Table.contents table.old).book in
        run.new ≡ written_into run.old (strike_slips trades) }
{
    let price = price_of(terms, table);
    let (traded, trades) = pair_at(table, price, run);
    let lapsed = lapse_both(table, &mut run[trades..]);
    Struck {
        price,
        traded,
        written: trades + lapsed,
    }
}
