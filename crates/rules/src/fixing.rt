// The fixing price of a band of prices.
ghost use Rattle.std.specs.Prelude.{◌≡◌};
ghost use Rattle.std.specs.List.{slice_get};
ghost use Rattle.rules.specs.Allotment.{GreatestUnder};
ghost use Rattle.rules.specs.Book.{split};
ghost use Rattle.rules.specs.Curve.{candidate as candidate_at};
ghost use Rattle.rules.specs.Fixing.{fixing_under, best_price_under};
ghost use Rattle.rules.specs.Search.{tried_beside_under, tried_at_under};

use crate::candidate::Candidate;
use crate::curve::Curve;
use crate::order::{Direction, Order};
use crate::rank::pick;
use crate::terms::Terms;

/// The price p as a candidate of the fixing around the reference price r.
pub fn candidate<C: Curve>(curve: &C, r: u32, p: u32) -> Candidate
    ensures { result ≡ candidate_at r (C.Curve.book curve.now) p }
{
    let demand = curve.depth(Direction::Buy, p);
    let supply = curve.depth(Direction::Sell, p);
    Candidate {
        price: p,
        volume: demand.min(supply),
        surplus: demand.abs_diff(supply),
        distance: p.abs_diff(r),
    }
}

// The search for the best price of a curve's orders, under the terms of a day.
#[derive_where(Clone, Copy)]
struct Search<'a, C> {
    terms: &'a Terms,
    curve: &'a C,
}

impl<C: Curve> Search<'_, C> {
    fn at_price(&self, p: u32) -> Candidate
        ensures { result ≡ candidate_at self.now.terms.now.reference
            (C.Curve.book self.now.curve.now) p }
    {
        candidate(self.curve, self.terms.reference(), p)
    }

    // The best of what is held, the price q and the prices below and above it, each moved into the band.
    fn try_beside(&self, held: Candidate, q: u32) -> Candidate
        ensures { result ≡ tried_beside_under self.now.terms.now
            (C.Curve.book self.now.curve.now) held q }
    {
        let (lo, hi) = self.terms.band();
        let q = q.clamp(lo, hi);
        let held = pick(held, self.at_price(q));
        let held = pick(held, self.at_price(q.saturating_sub(1).clamp(lo, hi)));
        pick(held, self.at_price((q + 1).clamp(lo, hi)))
    }

    // The same at the price of the order i, if there is one.
    fn try_order(&self, held: Candidate, i: u128) -> Candidate
        ensures { result ≡ tried_at_under self.now.terms.now
            (C.Curve.book self.now.curve.now) held
            (slice_get (C.Curve.orders self.now.curve.now) i) }
    {
        match self.curve.at(i) {
            Some(o) => self.try_beside(held, o.price),
            None => held,
        }
    }

    // The best price of the band. The curve changes only beside an order's price, so the reference price and the prices
    // at and beside the orders' are enough to try, however wide the band.
    #[tactic(auto, using(crate::proofs::Finds::searched_more, crate::proofs::Finds::searched_all))]
    fn best_price(&self) -> Candidate
        ensures { result ≡ best_price_under self.now.terms.now (C.Curve.book self.now.curve.now) }
    {
        let mut held = self.at_price(self.terms.reference());
        // by index, since a curve gives its orders one by one, as a table gives them by rank; a fold over the indexes
        // would say the same in as many lines
        for i in 0..self.curve.count() {
            held = self.try_order(held, i);
        }
        held
    }
}

/// The fixing price of a curve's orders, none where nothing can trade at any price of the band.
#[tactic(auto, using(crate::proofs::Steps::greatest_under))]
pub fn fixing_on<C: Curve>(terms: &Terms, curve: &C) -> Option<Candidate>
    ensures value { result ≡ fixing_under terms.now (C.Curve.book curve.now) }
    ensures greatest { GreatestUnder terms.now (C.Curve.book curve.now) result }
{
    let best = Search { terms, curve }.best_price();
    (best.volume != 0).then_some(best)
}

/// The fixing price of the orders of a slice.
pub fn fixing(terms: &Terms, orders: &[Order]) -> Option<Candidate>
    ensures value { result ≡ fixing_under terms.now (split orders.now) }
    ensures greatest { GreatestUnder terms.now (split orders.now) result }
{
    fixing_on(terms, &orders)
}
