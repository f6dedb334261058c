// Works session files whose texts were worked out by hand, and prints for each whether the two texts are equal.
#![tactic(auto)]

mod case;
mod reading;
mod sessions;
mod shown;
#[cfg(test)]
mod tests;
mod worked;

use reading::read_cases;
use report::Report;
use sessions::show_sessions;
use shown::show_all;
use std::io;

fn main(rt: HostRuntime) -> anyhow::Result<()> {
    let heap = rt.alloc();
    let input = io::read_to_string(heap, rt.reader())?;
    let cases = read_cases(heap, &input)?;
    let mut report = Report::new(rt);
    show_all(&mut report, heap, &cases)?;
    show_sessions(&mut report, heap)?;
    report.close("cases")
}
