// What is compared, and how it is printed.
ghost use Rattle.std.specs.Prelude.{◌≡◌};
ghost use Rattle.figures.specs.Shown.{found, limits};

use crate::published::{Asked, Best, Course, Stood};
use rules::candidate::Candidate;
use rules::order::Order;
use rules::refusal::Refusal;
use std::fmt;

/// The lowest and the highest price of a band.
#[derive(Clone, Copy, Debug, PartialEq, Eq)]
pub struct Limits {
    pub lowest: u32,
    pub highest: u32,
}

impl From<(u32, u32)> for Limits {
    ghost from_gives = { λ band l. l ≡ limits band };

    fn from((lowest, highest): (u32, u32)) -> Limits {
        Limits { lowest, highest }
    }
}

impl fmt::Display for Limits {
    fn fmt<W: fmt::Write>(&self, f: &mut fmt::Formatter<W>) -> fmt::Result {
        let Limits { lowest, highest } = self;
        write!(f, "{lowest} to {highest}")
    }
}

/// The figures of a day, one by one, since the lowest price alone may be known to differ.
#[derive(Clone, Copy, Debug, PartialEq, Eq)]
pub struct Day {
    pub reference: u32,
    pub lowest: u32,
    pub highest: u32,
    pub next: u32,
}

impl fmt::Display for Day {
    fn fmt<W: fmt::Write>(&self, f: &mut fmt::Formatter<W>) -> fmt::Result {
        let Day {
            reference,
            lowest,
            highest,
            next,
        } = self;
        write!(
            f,
            "reference {reference}, band {lowest} to {highest}, next {next}"
        )
    }
}

/// A price, and the volume that trades at it.
#[derive(Clone, Copy, Debug, PartialEq, Eq)]
pub struct Struck {
    pub price: u32,
    pub volume: u128,
}

/// What a fixing comes to, or none.
#[derive(Clone, Copy, Debug, PartialEq, Eq)]
pub struct Fixed(pub Option<Struck>);

impl From<Option<Candidate>> for Fixed {
    ghost from_gives = { λ c fixed. fixed.0 ≡ found c };

    fn from(c: Option<Candidate>) -> Fixed {
        Fixed(c.map(|c| Struck {
            price: c.price,
            volume: c.volume,
        }))
    }
}

impl fmt::Display for Fixed {
    fn fmt<W: fmt::Write>(&self, f: &mut fmt::Formatter<W>) -> fmt::Result {
        match self.0 {
            Some(Struck { price, volume }) => write!(f, "{price} for {volume}"),
            None => f.write_str("none"),
        }
    }
}

/// What a check on entry answers.
#[derive(Clone, Copy, Debug, PartialEq, Eq)]
pub struct Answer(pub Result<(), Refusal>);

impl fmt::Display for Answer {
    fn fmt<W: fmt::Write>(&self, f: &mut fmt::Formatter<W>) -> fmt::Result {
        match self.0 {
            Ok(()) => f.write_str("passes"),
            Err(refusal) => write!(f, "refused {}", refusal.number()),
        }
    }
}

impl fmt::Display for Asked {
    fn fmt<W: fmt::Write>(&self, f: &mut fmt::Formatter<W>) -> fmt::Result {
        match self {
            Asked::Price(price) => write!(f, "price {price}"),
            Asked::Volume(volume) => write!(f, "volume {volume}"),
        }
    }
}

/// Orders, each as side and price/volume.
#[derive(Clone, Copy)]
pub struct Lines<'a>(pub &'a [Order]);

impl fmt::Display for Lines<'_> {
    fn fmt<W: fmt::Write>(&self, f: &mut fmt::Formatter<W>) -> fmt::Result {
        for o in self.0 {
            write!(f, " {} {}/{}", o.direction, o.price, o.volume)?;
        }
        Ok(())
    }
}

impl fmt::Display for Best {
    fn fmt<W: fmt::Write>(&self, f: &mut fmt::Formatter<W>) -> fmt::Result {
        match self {
            Best::Pair { buy, sell } => write!(f, "best buy {buy} and sell {sell}"),
            Best::Lone(price) => write!(f, "best price {price}"),
        }
    }
}

impl fmt::Display for Stood {
    fn fmt<W: fmt::Write>(&self, f: &mut fmt::Formatter<W>) -> fmt::Result {
        f.write_str(match self {
            Stood::Throughout => " throughout",
            Stood::Part => " for a part",
            Stood::Unsaid => "",
        })
    }
}

impl fmt::Display for Course {
    fn fmt<W: fmt::Write>(&self, f: &mut fmt::Formatter<W>) -> fmt::Result {
        write!(f, "{}{}", self.best, self.stood)?;
        match self.last_trade {
            Some(price) => write!(f, ", last trade {price}"),
            None => f.write_str(", no trade"),
        }
    }
}
