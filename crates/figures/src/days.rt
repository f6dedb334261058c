// What a published day leaves for the next reference price.
ghost use Rattle.std.specs.Prelude.{◌≡◌};
ghost use Rattle.figures.specs.Days.{at_limits as limits_of, left};

use crate::published::{Best, Course, Stood};
use crate::shown::Limits;
use rules::reference::DayRecord;
use rules::terms::Terms;

// Whether a buy, and whether a sell, stands at its limit. A lone price without its side is a buy at the highest price
// and a sell at the lowest; anywhere else nothing hangs on its side.
fn at_limits(band: Limits, best: Best) -> (bool, bool)
    ensures { result ≡ limits_of band.lowest band.highest best }
{
    let Limits { lowest, highest } = band;
    match best {
        Best::Pair { buy, sell } => (buy == highest, sell == lowest),
        Best::Lone(price) => (price == highest, price == lowest),
    }
}

/// A closed session of this course.
pub fn left_by(terms: &Terms, course: &Course) -> DayRecord
    ensures { let t = terms.now in let c = course.now in
        result ≡ left t.lo t.hi c.best c.stood c.last_trade }
{
    let (high, low) = at_limits(Limits::from(terms.band()), course.best);
    let throughout = course.stood == Stood::Throughout;
    DayRecord {
        last_trade: course.last_trade,
        buy_at_high: throughout && high,
        sell_at_low: throughout && low,
    }
}
