// The day of a session, which means the rules' day.
ghost use Rattle.std.specs.Prelude.{◌≡◌};
ghost use Rattle.book.specs.Day.{new_day};

use book::stage::Stage;
use std::marker::Model;
use tables::table::Table;

/// A day without its terms and marks: the stage, the arrivals given and the table.
#[derive(Drop)]
pub struct Day<T: Table> {
    pub stage: Stage,
    /// arrivals given
    pub tally: u32,
    pub table: T,
}

// Its invariant is what lets a new number be free, and the orders be counted.
impl<T: Table> Model for Day<T> {
    ghost use Rattle.book.specs.Day.{Day as RulesDay};
    ghost use Rattle.market.specs.Kept.{Kept};

    ghost Value = { RulesDay };

    ghost view = { λ d.
        record { stage = d.stage; tally = d.tally; table = T.Table.contents d.table } };

    ghost invariant = { λ d.
        Kept (record { stage = d.stage; tally = d.tally; table = T.Table.contents d.table }) };
}

impl<T: Table> Day<T> {
    /// A day owns its table, and clears it.
    pub fn new(table: T) -> Day<T>
        ensures { result ≡ new_day (T.Table.contents table).capacity }
    {
        let mut table = table;
        table.clear();
        Day {
            stage: Stage::PreOpen,
            tally: 0,
            table,
        }
    }

    /// The part of the day that it is.
    pub fn stage(&self) -> Stage
        ensures { result ≡ self.now.stage }
    {
        self.stage
    }
}
