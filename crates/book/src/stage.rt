// The part of the day, its number, and the one after a call.
ghost use Rattle.std.specs.Prelude.{◌≡◌};
ghost use Rattle.book.specs.Stages.{is_open, stage_after, stage_number, strikes};

use crate::call::Call;

/// The parts of a day, in their order, each with its number.
#[derive(Clone, Copy, Debug, PartialEq, Eq)]
pub enum Stage {
    PreOpen = 1,
    Open = 2,
    PreClose = 3,
    Closed = 4,
}

impl Stage {
    /// After an accepted call: an advance moves to the next stage, any other call stays.
    pub fn follow(&mut self, call: &Call)
        ensures { self.new ≡ stage_after self.old call.now }
    {
        match (self, call) {
            (stage @ Stage::PreOpen, Call::Advance) => *stage = Stage::Open,
            (stage @ Stage::Open, Call::Advance) => *stage = Stage::PreClose,
            (stage @ Stage::PreClose, Call::Advance) => *stage = Stage::Closed,
            _ => {}
        }
    }

    /// Orders that enter trade in Open alone.
    pub fn is_open(self) -> bool
        ensures { result ≡ is_open self }
    {
        matches!(self, Stage::Open)
    }

    /// Out of Pre-open and Pre-close there is a strike.
    pub fn strikes(self) -> bool
        ensures { result ≡ strikes self }
    {
        matches!(self, Stage::PreOpen | Stage::PreClose)
    }

    /// The number that the stage is shown as.
    pub fn number(self) -> u32
        ensures { result ≡ stage_number self }
    {
        self as u32
    }
}
