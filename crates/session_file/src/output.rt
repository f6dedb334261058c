// The lines that a session file is answered with.
ghost use Rattle.std.specs.Prelude.{◌≡◌, Some};
ghost use Rattle.session_file.specs.Output.{told_line, line};
ghost use Rattle.std.specs.Fmt.{WritesOnOk};
ghost use Rattle.session_file.specs.declared.output.OutputLine.TheVariants.{Accepted, Slipped, Refused, Broken};

use crate::fault::Fault;
use book::answer::{Advanced, Altered, Answer, Entered, Told, Withdrawn};
use book::slip::Slip;
use rules::refusal::Refusal;
use std::fmt;

/// A line of the text that a file is answered with.
#[derive(Clone, Copy)]
pub enum OutputLine {
    Accepted(Answer<Told>),
    Slipped(Slip),
    Refused(Refusal),
    Broken(Fault),
    /// the next reference price
    NextReference(u32),
}

impl From<Answer<Told>> for OutputLine {
    ghost from_gives = { λ x r. r ≡ Accepted x };

    fn from(x: Answer<Told>) -> OutputLine {
        OutputLine::Accepted(x)
    }
}

impl From<Slip> for OutputLine {
    ghost from_gives = { λ x r. r ≡ Slipped x };

    fn from(x: Slip) -> OutputLine {
        OutputLine::Slipped(x)
    }
}

impl From<Refusal> for OutputLine {
    ghost from_gives = { λ x r. r ≡ Refused x };

    fn from(x: Refusal) -> OutputLine {
        OutputLine::Refused(x)
    }
}

impl From<Fault> for OutputLine {
    ghost from_gives = { λ x r. r ≡ Broken x };

    fn from(x: Fault) -> OutputLine {
        OutputLine::Broken(x)
    }
}

fn write_told<W: fmt::Write>(f: &mut fmt::Formatter<W>, told: Told) -> fmt::Result
    ensures { WritesOnOk W.write_str_gives f.old result (told_line told) f.new }
{
    match told {
        Told::Entered(
            Entered {
                number,
                traded,
                held,
            },
        ) => write!(f, "E {number} {traded} {held}"),
        Told::Altered(Altered { traded, held }) => write!(f, "A {traded} {held}"),
        Told::Withdrawn(Withdrawn { volume }) => write!(f, "W {volume}"),
        Told::Advanced(
            Advanced {
                stage,
                price: Some(price),
                traded,
            },
        ) => {
            let stage = stage.number();
            write!(f, "N {stage} {price} {traded}")
        }
        Told::Advanced(
            Advanced {
                stage,
                price: None,
                traded,
            },
        ) => {
            let stage = stage.number();
            write!(f, "N {stage} - {traded}")
        }
    }
}

impl fmt::Display for OutputLine {
    ghost output = { λ l. Some (line l) };

    fn fmt<W: fmt::Write>(&self, f: &mut fmt::Formatter<W>) -> fmt::Result {
        match *self {
            OutputLine::Accepted(answer) => write_told(f, answer.told),
            OutputLine::Slipped(
                Slip::Trade {
                    buy,
                    sell,
                    price,
                    volume,
                },
            ) => write!(f, "T {buy} {sell} {price} {volume}"),
            OutputLine::Slipped(Slip::Lapse { number, volume }) => write!(f, "L {number} {volume}"),
            OutputLine::Refused(refusal) => {
                let number = refusal.number();
                write!(f, "R {number}")
            }
            OutputLine::Broken(fault) => {
                let line = fault.line;
                write!(f, "X {line}")
            }
            OutputLine::NextReference(reference) => write!(f, "F {reference}"),
        }
    }
}
