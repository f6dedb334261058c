// Advancing to the next stage.
ghost use Rattle.std.specs.Prelude.{◌≡◌, length};
ghost use Rattle.book.specs.declared.call.Call.TheVariants.{Advance};
ghost use Rattle.book.specs.Calls.{step};
ghost use Rattle.book.specs.Model.{day_after};
ghost use Rattle.market.specs.Outcome.{told_as, answer_of, run_after};

use crate::day::Day;
use crate::strikes::{Struck, strike};
use book::answer::{Advanced, Answer, Told};
use book::call::Call;
use book::slip::Slip;
use rules::refusal::Refusal;
use rules::terms::Terms;
use tables::table::Table;

impl<T: Table> Day<T> {
    /// Moves to the next stage; leaving Pre-open or Pre-close strikes a fixing. Errors: the first of its rows that refuses;
    /// day and run are then unchanged.
    pub fn advance(&mut self, terms: &Terms, run: &mut [Slip]) -> Result<Answer<Advanced>, Refusal>
        ensures answer { told_as Told.Advanced result
            ≡ answer_of (step terms.now self.old Advance (length run.old)) }
        ensures day { self.new
            ≡ day_after self.old (step terms.now self.old Advance (length run.old)) }
        ensures run { run.new
            ≡ run_after run.old (step terms.now self.old Advance (length run.old)) }
    {
        self.check_advance(run.len())?;
        let struck = if self.stage.strikes() {
            strike(terms, &mut self.table, run)
        } else {
            Struck {
                price: None,
                traded: 0,
                written: 0,
            }
        };
        self.stage.follow(&Call::Advance);
        let told = Advanced {
            stage: self.stage,
            price: struck.price,
            traded: struck.traded,
        };
        Ok(Answer {
            told,
            slips: struck.written,
        })
    }
}
