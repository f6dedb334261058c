// Whether what is given is what is wanted, and how often it is.
ghost use Rattle.std.specs.Prelude.{◌≡◌};
ghost use Rattle.report.specs.Verdicts.{plain, tally_after};

use std::fmt;

/// Whether what is given is what is wanted. A known difference is one that was expected.
#[derive(Clone, Copy)]
pub enum Verdict {
    Agrees,
    KnownDifference,
    Differs,
}

impl fmt::Display for Verdict {
    fn fmt<W: fmt::Write>(&self, f: &mut fmt::Formatter<W>) -> fmt::Result {
        f.write_str(match self {
            Verdict::Agrees => "agrees",
            Verdict::KnownDifference => "known difference",
            Verdict::Differs => "DIFFERS",
        })
    }
}

/// The verdict on two values, by their own comparison.
pub fn agreement<T: PartialEq>(given: &T, wanted: &T) -> Verdict
    ensures { result ≡ plain (T.eq given.now wanted.now) }
{
    if given == wanted {
        Verdict::Agrees
    } else {
        Verdict::Differs
    }
}

/// How often each verdict came, modulo 2^64.
#[derive(Clone, Copy, Default)]
pub struct Tally {
    pub agree: u64,
    pub known: u64,
    pub differ: u64,
}

impl Tally {
    /// Counts a verdict.
    pub fn count(&mut self, v: Verdict)
        ensures { self.new ≡ tally_after v self.old }
    {
        match v {
            Verdict::Agrees => self.agree = self.agree.wrapping_add(1),
            Verdict::KnownDifference => self.known = self.known.wrapping_add(1),
            Verdict::Differs => self.differ = self.differ.wrapping_add(1),
        }
    }
}
