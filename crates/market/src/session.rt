// The session: from start, call after call, to its end.
ghost use Rattle.std.specs.Prelude.{◌≡◌, length};
ghost use Rattle.book.specs.Marks.{marks_after as marks_by, reference_left};
ghost use Rattle.book.specs.declared.call.Call.TheVariants.{Enter, Alter, Withdraw, Advance};
ghost use Rattle.market.specs.Outcome.{by_number, told_as};
ghost use Rattle.market.specs.Works.{session_start, came_to, by_the_rules, Lawfully, EndsAs};

use crate::day::Day;
use crate::marks::marks_after;
use book::answer::{Advanced, Altered, Answer, Entered, Told, Withdrawn};
use book::call::{Alteration, Call, NewOrder, Withdrawal};
use book::slip::Slip;
use book::stage::Stage;
use rules::reference::{DayRecord, EndedDay};
use rules::refusal::Refusal;
use rules::terms::Terms;
use std::marker::Model;
use tables::table::Table;

/// A session of one symbol, over a table that it owns.
#[derive(Drop)]
pub struct Session<T: Table> {
    terms: Terms,
    day: Day<T>,
    marks: DayRecord,
}

// A session means its terms, and its day with what the next reference price needs.
impl<T: Table> Model for Session<T> {
    ghost use Rattle.market.specs.Works.{Seen};

    ghost Value = { Seen };

    ghost view = { λ s.
        record { terms = s.terms; session = record { day = s.day; marks = s.marks } } };
}

impl<T: Table> Session<T> {
    /// A new session in Pre-open. It owns its table, and clears it.
    pub fn start(terms: Terms, table: T) -> Session<T>
        ensures { result ≡ session_start terms (T.Table.contents table).capacity }
    {
        Session {
            terms,
            day: Day::new(table),
            marks: DayRecord {
                last_trade: None,
                buy_at_high: false,
                sell_at_low: false,
            },
        }
    }

    /// Ends the session, and the table with it. The day that it gives has the next reference price; before Closed that is
    /// the one of the terms.
    #[tactic(auto, using(book::proofs::Endings::ends_by_journal))]
    pub fn end(self) -> EndedDay
    where
        T: Drop,
        ensures marks { result.reference ≡ reference_left self.terms self.session }
        ensures journal { EndsAs self result.reference }
    {
        let Session { terms, day, marks } = self;
        let left = match day.stage() {
            Stage::Closed => Some(marks),
            _ => None,
        };
        EndedDay::new(&terms, left)
    }

    // The marks after an accepted call that was made in this stage and wrote these slips.
    fn marks_then(&self, stage: Stage, call: Call, slips: &[Slip]) -> DayRecord
        ensures { let s = self.now.session in
            result ≡ marks_by self.now.terms stage call s.marks slips.now s.day.table.book }
    {
        marks_after(&self.terms, stage, &call, self.marks, slips, &self.day)
    }

    /// Enters an order, which in Open trades first. Its slips stand in the run from the first place on; the places behind
    /// them are unchanged.
    ///
    /// Errors: the first of the refusals 3 to 6 and 10 to 12 that holds. Session and run are then unchanged.
    pub fn enter(&mut self, new: NewOrder, run: &mut [Slip]) -> Result<Answer<Entered>, Refusal>
        ensures outcome { came_to (told_as Told.Entered result) self.new run.new
            ≡ by_the_rules self.old (Enter new) run.old }
        ensures lawful { Lawfully self.old (Enter new) (length run.old)
            (came_to (told_as Told.Entered result) self.new run.new) }
    {
        let stage = self.day.stage();
        let answer = self.day.enter(&self.terms, new, run)?;
        self.marks = self.marks_then(stage, Call::Enter(new), &run[..answer.slips]);
        Ok(answer)
    }

    /// Changes price and volume of an order, which in Open trades as one that enters if the price changes. Its slips stand in
    /// the run as those of an enter.
    ///
    /// Errors: the first of the refusals 3 to 10 and 12 that holds. Session and run are then unchanged.
    pub fn alter(
        &mut self,
        wanted: Alteration,
        run: &mut [Slip],
    ) -> Result<Answer<Altered>, Refusal>
        ensures outcome { came_to (told_as Told.Altered result) self.new run.new
            ≡ by_the_rules self.old (Alter wanted) run.old }
        ensures lawful { Lawfully self.old (Alter wanted) (length run.old)
            (came_to (told_as Told.Altered result) self.new run.new) }
    {
        let stage = self.day.stage();
        let answer = self.day.alter(&self.terms, wanted, run)?;
        self.marks = self.marks_then(stage, Call::Alter(wanted), &run[..answer.slips]);
        Ok(answer)
    }

    /// Takes an order out. It writes no slip, so the run is unchanged.
    ///
    /// Errors: the first of the refusals 3, 4, 7 and 8 that holds. The session is then unchanged.
    pub fn withdraw(
        &mut self,
        named: Withdrawal,
        run: &mut [Slip],
    ) -> Result<Answer<Withdrawn>, Refusal>
        ensures outcome { came_to (told_as Told.Withdrawn result) self.new run.new
            ≡ by_the_rules self.old (Withdraw named) run.old }
        ensures lawful { Lawfully self.old (Withdraw named) (length run.old)
            (came_to (told_as Told.Withdrawn result) self.new run.new) }
    {
        let stage = self.day.stage();
        let answer = self.day.withdraw(named)?;
        self.marks = self.marks_then(stage, Call::Withdraw(named), &run[..answer.slips]);
        Ok(answer)
    }

    /// Moves to the next stage; leaving Pre-open or Pre-close strikes a fixing, with its trades and lapses as slips in the run.
    ///
    /// Errors: the first of the refusals 3 and 12 that holds. Session and run are then unchanged.
    pub fn advance(&mut self, run: &mut [Slip]) -> Result<Answer<Advanced>, Refusal>
        ensures outcome { came_to (told_as Told.Advanced result) self.new run.new
            ≡ by_the_rules self.old Advance run.old }
        ensures lawful { Lawfully self.old Advance (length run.old)
            (came_to (told_as Told.Advanced result) self.new run.new) }
    {
        let stage = self.day.stage();
        let answer = self.day.advance(&self.terms, run)?;
        self.marks = self.marks_then(stage, Call::Advance, &run[..answer.slips]);
        Ok(answer)
    }

    /// Works any call as its own function does, with the same errors.
    pub fn work(&mut self, call: Call, run: &mut [Slip]) -> Result<Answer<Told>, Refusal>
        ensures outcome { came_to (by_number result) self.new run.new
            ≡ by_the_rules self.old call run.old }
        ensures lawful { Lawfully self.old call (length run.old)
            (came_to (by_number result) self.new run.new) }
    {
        match call {
            Call::Enter(new) => {
                let Answer { told, slips } = self.enter(new, run)?;
                Ok(Answer {
                    told: Told::Entered(told),
                    slips,
                })
            }
            Call::Alter(wanted) => {
                let Answer { told, slips } = self.alter(wanted, run)?;
                Ok(Answer {
                    told: Told::Altered(told),
                    slips,
                })
            }
            Call::Withdraw(named) => {
                let Answer { told, slips } = self.withdraw(named, run)?;
                Ok(Answer {
                    told: Told::Withdrawn(told),
                    slips,
                })
            }
            Call::Advance => {
                let Answer { told, slips } = self.advance(run)?;
                Ok(Answer {
                    told: Told::Advanced(told),
                    slips,
                })
            }
        }
    }
}
