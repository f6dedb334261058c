// Trading of an entering order with the other side.
ghost use Rattle.std.specs.Prelude.{◌≡◌, ◌-◌, ◌≤◌, Some, length};
ghost use Rattle.std.specs.List.{slice_get};
ghost use Rattle.rules.specs.Side.{opposite};
ghost use Rattle.tables.specs.Meaning.{listed};
ghost use Rattle.book.specs.Calls.{trade as trade_of, sweep_of, with_rest};
ghost use Rattle.market.specs.Fills.{first_taken_on};
ghost use Rattle.market.specs.Outcome.{written_into};

use book::slip::Slip;
use rules::order::{Direction, Order};
use rules::side::{Quotes, Side, meets};
use tables::table::Table;

/// What a sweep comes to beside the table and the run.
#[derive(Clone, Copy)]
pub struct Swept {
    pub traded: u128,
    /// of the volume wanted
    pub left: u32,
    /// the slips written
    pub written: usize,
}

/// Takes a volume out of the order that ranks first on its side; with its last share the order is
/// out.
pub fn take<T: Table>(table: &mut T, first: &Order, volume: u32)
    requires first { slice_get (listed first.now.direction (T.Table.contents table.old)) 0
        ≡ Some first.now }
    requires within { volume ≤ first.now.volume }
    ensures { T.Table.contents table.new
        ≡ first_taken_on first.now.direction volume (T.Table.contents table.old) }
{
    if volume == first.volume {
        let Ok(()) = table.remove(first.number) else {
            unreachable!()
        };
    } else {
        let Ok(()) = table.set_volume(first.number, first.volume - volume) else {
            unreachable!()
        };
    }
}

// A trade of an order of the side S with the first of the other side, at the price of the one that
// rests.
fn trade<S: Quotes>(number: u32, resting: &Order, volume: u32) -> Slip
    ensures { result ≡ trade_of S.Quotes.way number resting.now.number resting.now.price volume }
{
    let (buy, sell) = match S::direction() {
        Direction::Buy => (number, resting.number),
        Direction::Sell => (resting.number, number),
    };
    Slip::Trade {
        buy,
        sell,
        price: resting.price,
        volume,
    }
}

/// An order of the side S trades with the other side, first to last, while that is willing.
pub fn sweep<S: Side, T: Table>(table: &mut T, order: &Order, run: &mut [Slip]) -> Swept
    requires side { order.now.direction ≡ S.Quotes.way }
    requires room { length (listed (opposite S.Quotes.way) (T.Table.contents table.old))
        ≤ length run.old }
    ensures traded { result.traded ≡ order.now.volume - result.left }
    ensures left { result.left ≡ (sweep_of order.now (T.Table.contents table.old)).left }
    ensures written { result.written
        ≡ length (sweep_of order.now (T.Table.contents table.old)).slips }
    ensures table { let old = T.Table.contents table.old in
        T.Table.contents table.new ≡ with_rest S.Quotes.way (sweep_of order.now old).rest old }
    ensures run { run.new
        ≡ written_into run.old (sweep_of order.now (T.Table.contents table.old)).slips }
{
    let mut traded: u32 = 0;
    let mut left = order.volume;
    let mut written = 0;
    let (traded, left) = 'orders: loop {
        let Some(first) = table.at(S::Opposite::direction(), 0) else {
            break (traded, left);
        };
        if left == 0 || !meets::<S>(order.price, first.price) {
            break (traded, left);
        }
        let volume = left.min(first.volume);
        run[written] = trade::<S>(order.number, &first, volume);
        written += 1;
        traded += volume;
        left -= volume;
        take(table, &first, volume);
    };
    Swept {
        traded: u128::from(traded),
        left,
        written,
    }
}
