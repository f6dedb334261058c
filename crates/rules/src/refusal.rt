// Why a call is refused. Each case has a number, and callers are told the number.
ghost use Rattle.std.specs.Prelude.{◌≡◌};
ghost use Rattle.rules.specs.Refusal.{number};

/// Why a call is refused, by number.
#[derive(Clone, Copy, Debug, PartialEq, Eq)]
pub enum Refusal {
    Reference = 1,
    Block = 2,
    Closed = 3,
    Member = 4,
    Volume = 5,
    Price = 6,
    NotHeld = 7,
    NotOwner = 8,
    MarketOrder = 9,
    ArrivalsGiven = 10,
    SideFull = 11,
    RunTooShort = 12,
    BrokenForm = 13,
}

impl Refusal {
    /// What a caller is told.
    pub fn number(self) -> u32
        ensures { result ≡ number self }
    {
        self as u32
    }
}
