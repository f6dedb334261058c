// A report: what is compared is printed with its verdict, and the verdicts are counted.
#![tactic(auto)]

pub mod verdict;

ghost use Rattle.std.specs.Prelude.{◌≡◌, OnOk};
ghost use Rattle.report.specs.Verdicts.{plain, tally_after};

use anyhow::ensure;
use std::fmt::Display;
use verdict::{Tally, Verdict, agreement};

/// A report that is printed to a runtime as it is told.
#[derive(Drop)]
pub struct Report<R> {
    rt: R,
    pub tally: Tally,
}

impl<R: Print> Report<R> {
    /// A report on nothing yet.
    pub fn new(rt: R) -> Self
        ensures { result.tally ≡ record { agree = 0; known = 0; differ = 0 } }
    {
        Report {
            rt,
            tally: Tally::default(),
        }
    }

    /// Counts a verdict, and prints it after what it is on.
    pub fn tell(&mut self, what: impl Display + Drop, v: Verdict) -> anyhow::Result<()>
        ensures { self.new.tally ≡ tally_after v self.old.tally }
    {
        self.tally.count(v);
        println!(self.rt; "{what}: {v}")?;
        Ok(())
    }

    /// Tells of a figure whether what the rules give is what is published.
    pub fn compare<T: PartialEq + Display>(
        &mut self,
        what: impl Display + Drop,
        given: &T,
        published: &T,
    ) -> anyhow::Result<()>
        ensures { self.new.tally
            ≡ tally_after (plain (T.eq given.now published.now)) self.old.tally }
    {
        let v = agreement(given, published);
        self.tell(
            format_args!("{what}: rules {given}, published {published}"),
            v,
        )
    }

    /// Prints how often which verdict came on the things of a kind, and fails if any differs.
    pub fn close(&self, kind: &str) -> anyhow::Result<()>
        ensures { OnOk result (self.now.tally.differ ≡ 0) }
    {
        let Tally {
            agree,
            known,
            differ,
        } = self.tally;
        let all = agree.wrapping_add(known).wrapping_add(differ);
        println!(self.rt;
            "{all} {kind}: {agree} agree, {known} with a known difference, {differ} differ"
        )?;
        ensure!(differ == 0, "of the {kind}, {differ} differ");
        Ok(())
    }
}
