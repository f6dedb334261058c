// A table's orders as the curve of a fixing.
ghost use Rattle.std.specs.Prelude.{◌≡◌, ◌++◌};
ghost use Rattle.std.specs.List.{slice_get};
ghost use Rattle.rules.specs.Curve.{depth};
ghost use Rattle.tables.specs.Meaning.{listed};
ghost use Rattle.market.specs.Covering.{both_cover, offered_by};

use rules::curve::Curve;
use rules::order::{Direction, Order};
use rules::side::{Buys, Quotes, Sells};
use tables::table::Table;

/// The orders that a table holds, as a curve.
#[derive(Drop)]
pub struct TableCurve<'a, T: Table> {
    pub table: &'a T,
}

// What the order at a rank of a side offers at p; past the last order nothing.
fn offered_on<S: Quotes, T: Table>(table: &T, rank: usize, p: u32) -> u32
    ensures { let orders = listed S.Quotes.way (T.Table.contents table.now) in
        result ≡ offered_by S.Quotes.way p (slice_get orders rank) }
{
    match table.at(S::direction(), rank) {
        Some(o) if S::willing(o.price, p) => o.volume,
        _ => 0,
    }
}

// The volume of a side's orders that are willing at p, by rank.
fn depth_on<S: Quotes, T: Table>(table: &T, p: u32) -> u128
    ensures { result ≡ depth S.Quotes.way p (listed S.Quotes.way (T.Table.contents table.now)) }
{
    let mut sum: u128 = 0;
    for rank in 0..table.count(S::direction()) {
        sum += u128::from(offered_on::<S, T>(table, rank, p));
    }
    sum
}

impl<'a, T: Table> Curve for TableCurve<'a, T> {
    ghost book = { λ h. (T.Table.contents h.table.now).book };

    ghost orders = { λ h. let b = (T.Table.contents h.table.now).book in b.buys ++ b.sells };

    ghost covers = { λ h. both_cover (T.Table.contents h.table.now).book };

    fn depth(&self, d: Direction, p: u32) -> u128 {
        match d {
            Direction::Buy => depth_on::<Buys, T>(self.table, p),
            Direction::Sell => depth_on::<Sells, T>(self.table, p),
        }
    }

    fn count(&self) -> u128 {
        self.table.count(Direction::Buy) as u128 + self.table.count(Direction::Sell) as u128
    }

    // The buys and then the sells, each side by rank.
    fn at(&self, i: u128) -> Option<Order> {
        let buys = self.table.count(Direction::Buy) as u128;
        let sells = self.table.count(Direction::Sell) as u128;
        if i < buys {
            self.table.at(Direction::Buy, i as usize)
        } else if i - buys < sells {
            self.table.at(Direction::Sell, (i - buys) as usize)
        } else {
            None
        }
    }
}
