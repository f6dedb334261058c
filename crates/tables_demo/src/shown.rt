// Calls and their answers as text, in this program's own words. Each is a struct round a reference, since a program
// prints a library's type only through a type of its own.
use rules::order::Order;
use std::fmt;
use tables::calls::{Call, Reply};
use tables::table::No;

#[derive(Drop)]
pub struct Line<'a>(pub &'a Order);

impl fmt::Display for Line<'_> {
    fn fmt<W: fmt::Write>(&self, f: &mut fmt::Formatter<W>) -> fmt::Result {
        let Order {
            number,
            direction,
            price,
            volume,
            arrival,
            ..
        } = self.0;
        write!(f, "{number} {direction} {price}/{volume} arrival {arrival}")
    }
}

#[derive(Drop)]
pub struct Asked<'a>(pub &'a Call);

impl fmt::Display for Asked<'_> {
    fn fmt<W: fmt::Write>(&self, f: &mut fmt::Formatter<W>) -> fmt::Result {
        match self.0 {
            Call::Clear => f.write_str("clear"),
            Call::At { direction, rank } => write!(f, "at {direction} {rank}"),
            Call::Count { direction } => write!(f, "count {direction}"),
            Call::Places => f.write_str("places"),
            Call::Find { number } => write!(f, "find {number}"),
            Call::Add { order } => write!(f, "add {}", Line(order)),
            Call::SetVolume { number, volume } => write!(f, "volume of {number} to {volume}"),
            Call::Remove { number } => write!(f, "remove {number}"),
        }
    }
}

#[derive(Drop)]
pub struct Answered<'a>(pub &'a Reply);

impl fmt::Display for Answered<'_> {
    fn fmt<W: fmt::Write>(&self, f: &mut fmt::Formatter<W>) -> fmt::Result {
        match self.0 {
            Reply::Answered(Ok(())) => f.write_str("done"),
            Reply::Answered(Err(No)) => f.write_str("refused"),
            Reply::Counted(n) => write!(f, "{n}"),
            Reply::Found(Some(order)) => write!(f, "{}", Line(order)),
            Reply::Found(None) => f.write_str("nothing"),
        }
    }
}
