// The reference price of the next day, and the ended day that holds it.
ghost use Rattle.std.specs.Prelude.{◌≡◌};
ghost use Rattle.rules.specs.Reference.{next_reference_under, drawn, next_terms_of};

use crate::refusal::Refusal;
use crate::terms::Terms;

/// What a session that reached Closed leaves for the next reference price: the price of its last trade, and whether the
/// best buy stood at the highest price, and the best sell at the lowest, throughout continuous trading.
#[derive(Clone, Copy)]
pub struct DayRecord {
    pub last_trade: Option<u32>,
    pub buy_at_high: bool,
    pub sell_at_low: bool,
}

/// A day that is over. It is spent to draw the next day's terms, so one day has one successor.
#[derive(Drop)]
pub struct EndedDay {
    // the next day's
    reference: u32,
}

/// A day that gave no terms, handed back with the reason.
#[derive(Drop)]
pub struct NoTerms {
    pub refusal: Refusal,
    pub day: EndedDay,
}

/// A session that was ended before Closed leaves nothing, and keeps its reference price.
pub fn next_reference(terms: &Terms, left: Option<DayRecord>) -> u32
    ensures { result ≡ next_reference_under terms.now left }
{
    let (lo, hi) = terms.band();
    let Some(day) = left else {
        return terms.reference();
    };
    match day.last_trade {
        Some(price) => price,
        None if day.buy_at_high => hi,
        None if day.sell_at_low => lo,
        None => terms.reference(),
    }
}

impl EndedDay {
    /// The day that a session of these terms leaves with its record, or with none before Closed.
    pub fn new(terms: &Terms, left: Option<DayRecord>) -> EndedDay
        ensures { result.reference ≡ next_reference_under terms.now left }
    {
        EndedDay {
            reference: next_reference(terms, left),
        }
    }

    /// The reference price of the next day, in bani.
    pub fn next_reference(&self) -> u32
        ensures { result ≡ self.now.reference }
    {
        self.reference
    }

    /// The terms of the next day, with this block in shares. Errors: the refusal of `Terms::new`, and the day with it.
    pub fn next_terms(self, block: u32) -> Result<Terms, NoTerms>
        ensures { drawn result ≡ next_terms_of self block }
    {
        Terms::new(self.next_reference(), block).map_err(|refusal| NoTerms { refusal, day: self })
    }
}
