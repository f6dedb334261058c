// A price that a fixing may take, with what it is ranked by.
ghost use Rattle.rules.specs.Rank.{preferable};
ghost use Rattle.rules.specs.Keys.{candidates};

use crate::rank::Ranked;
use std::cmp::Reverse;

/// Prices in bani, volumes in shares; distance is that of the price to the reference price.
#[derive(Clone, Copy)]
pub struct Candidate {
    pub price: u32,
    pub volume: u128,
    pub surplus: u128,
    pub distance: u32,
}

// Greater volume first, then smaller surplus, then nearer to the reference price, then lower price.
impl Ranked for Candidate {
    ghost identity = { λ c. c.price };

    ghost precedes = { preferable };

    ghost oneway = { candidates.ranks.one_way };

    ghost chain = { candidates.ranks.chain };

    ghost level = { λ a b h k. (candidates.same a b h k).1.1.1.0 };

    fn before(&self, other: &Candidate) -> bool {
        let keys = |c: &Candidate| (Reverse(c.volume), c.surplus, c.distance, c.price);
        keys(self) < keys(other)
    }
}
