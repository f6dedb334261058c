// What the next reference price needs of a session, after each call.
ghost use Rattle.std.specs.Prelude.{◌≡◌, [], ◌∷◌};
ghost use Rattle.tables.specs.Meaning.{listed};
ghost use Rattle.book.specs.Marks.{first_at as stands_at, last_price};
ghost use Rattle.book.specs.Marks.{mark_on as goes_on, marks_after as marks_by};

use crate::day::Day;
use book::call::Call;
use book::slip::Slip;
use book::stage::Stage;
use rules::order::Direction;
use rules::reference::DayRecord;
use rules::terms::Terms;
use tables::table::Table;

// Whether the first order of a side stands at a price.
fn first_at<T: Table>(table: &T, direction: Direction, price: u32) -> bool
    ensures { result ≡ stands_at price (listed direction (T.Table.contents table.now)) }
{
    match table.at(direction, 0) {
        Some(order) => order.price == price,
        None => false,
    }
}

// The price of the last trade, after one more slip.
fn price_after(last: Option<u32>, slip: &Slip) -> Option<u32>
    ensures { result ≡ last_price last (slip.now ∷ []) }
{
    match *slip {
        Slip::Trade { price, .. } => Some(price),
        Slip::Lapse { .. } => last,
    }
}

// The same after these slips.
fn last_trade(before: Option<u32>, slips: &[Slip]) -> Option<u32>
    ensures { result ≡ last_price before slips.now }
{
    let mut last = before;
    for slip in slips {
        last = price_after(last, slip);
    }
    last
}

// A mark begins right after the opening strike, and goes on or ends after each call in Open but the advance.
fn mark_on(stage: Stage, call: &Call, old: bool, now: bool) -> bool
    ensures { result ≡ goes_on stage call.now old now }
{
    match (stage, call) {
        (Stage::PreOpen, Call::Advance) => now,
        (Stage::Open, Call::Advance) => old,
        (Stage::Open, _) => old && now,
        _ => old,
    }
}

/// The marks after an accepted call: the stage that it was made in, its slips, and the day after it.
pub fn marks_after<T: Table>(
    terms: &Terms,
    stage: Stage,
    call: &Call,
    marks: DayRecord,
    slips: &[Slip],
    day: &Day<T>,
) -> DayRecord
    ensures { result ≡ marks_by terms.now stage call.now marks slips.now day.now.table.book }
{
    let (lo, hi) = terms.band();
    let top = first_at(&day.table, Direction::Buy, hi);
    let bottom = first_at(&day.table, Direction::Sell, lo);
    DayRecord {
        last_trade: last_trade(marks.last_trade, slips),
        buy_at_high: mark_on(stage, call, marks.buy_at_high, top),
        sell_at_low: mark_on(stage, call, marks.sell_at_low, bottom),
    }
}
