// Days that no file can write: a run of its own for each call, and all arrivals of a day.
ghost use Rattle.std.specs.Prelude.{◌≡◌, ◌++◌, OnOk};
ghost use Rattle.std.specs.String.{string_bytes};
ghost use Rattle.session_cases.specs.Sessions.{text_of_call};

use crate::worked::{NO_SLIP, no_order};
use anyhow::Context;
use book::answer::{Answer, Told};
use book::call::{NewOrder, Withdrawal};
use book::slip::Slip;
use market::session::Session;
use report::Report;
use report::verdict::agreement;
use rules::order::Direction;
use rules::refusal::Refusal;
use rules::terms::Terms;
use session_file::put::put_call;
use session_file::reader::read_call;
use std::alloc::{AllocError, Global};
use tables::queue::Queue;
use tables::table::Table;

// A call as a file writes it, behind how many slips it may write.
type Step = (usize, &'static str);

fn put(
    out: &mut String,
    came: Result<Answer<Told>, Refusal>,
    run: &[Slip],
) -> Result<(), AllocError>
    ensures { OnOk result
        (string_bytes out.new ≡ string_bytes out.old ++ text_of_call came run.now) }
{
    match came {
        Ok(answer) => put_call(out, &came, &run[..run.len().min(answer.slips)]),
        Err(_) => put_call(out, &came, &[]),
    }
}

fn put_steps<T: Table>(
    session: &mut Session<T>,
    steps: &[Step],
    out: &mut String,
) -> anyhow::Result<()> {
    let mut run = [NO_SLIP; 8];
    for (room, line) in steps {
        let call = read_call(line.as_bytes()).context("a call is broken")?;
        let room = run.len().min(*room);
        let run = &mut run[..room];
        let came = session.work(call, run);
        put(out, came, run)?;
    }
    Ok(())
}

// An order that comes and goes, so many times.
fn pass_by<T: Table>(session: &mut Session<T>, times: u32) {
    let mut run = [NO_SLIP; 8];
    let new = NewOrder {
        member: 3,
        direction: Direction::Buy,
        limit: Some(800),
        volume: 10,
    };
    for _ in 0..times {
        if let Ok(entered) = session.enter(new, &mut run) {
            let named = Withdrawal {
                member: new.member,
                number: entered.told.number,
            };
            let _ = session.withdraw(named, &mut run);
        }
    }
}

// Calls, then so many passing orders, and calls after them.
struct Day {
    before: &'static [Step],
    passing: u32,
    after: &'static [Step],
    // what the calls are answered, the passing orders left out
    text: &'static str,
}

static ALL_ARRIVALS: Day = Day {
    before: &[
        (8, "E 1 B 1000 10"),
        (8, "E 2 B M 20"),
        (8, "E 2 S 1200 10"),
    ],
    passing: 999_996,
    after: &[
        (8, "E 1 B 990 10"),
        (8, "E 1 B 990 10"),
        (8, "E 2 S 1200 10"),
        (8, "E 1 S M 10"),
        (8, "A 1 1 1000 20"),
        (8, "A 1 1 1000 10"),
        (8, "A 1 1 1010 10"),
        (8, "A 2 2 1000 20"),
        (8, "A 2 1 1000 10"),
        (8, "A 1 4 1000 10"),
        (8, "A 1 1 1301 10"),
        (8, "E 1 B 1000 15"),
        (8, "E 17 B 1000 10"),
        (8, "W 1 1000000"),
        (8, "E 1 B 990 10"),
        (8, "N"),
        (0, "E 1 S 990 10"),
        (0, "A 1 1 1000 10"),
        (8, "N"),
        (8, "E 1 S 990 10"),
        (8, "N"),
        (8, "E 1 B 990 10"),
        (8, "A 1 1 1000 10"),
    ],
    text: "\
E 1 0 10
E 2 0 20
E 3 0 10
E 1000000 0 10
R 10
R 10
R 10
R 10
R 10
R 10
R 9
R 8
R 7
R 6
R 5
R 4
W 10
R 10
N 2 1200 10
T 2 3 1200 10
L 2 10
R 10
R 10
N 3 - 0
R 10
N 4 - 0
R 3
R 3
",
};

static LAST_ARRIVAL: Day = Day {
    before: &[(8, "E 1 B 1000 10"), (8, "E 2 B 1000 10")],
    passing: 999_997,
    after: &[
        (8, "A 2 2 1000 10"),
        (8, "A 1 1 1000 20"),
        (8, "A 1 1 1000 10"),
        (8, "E 1 B 1000 10"),
        (8, "W 1 1"),
        (8, "W 2 2"),
        (8, "N"),
    ],
    text: "\
E 1 0 10
E 2 0 10
A 0 10
A 0 20
R 10
R 10
W 20
W 10
N 2 - 0
",
};

static RUNS: Day = Day {
    before: &[(0, "E 1 B 1000 10"), (0, "E 2 S 1100 10")],
    passing: 0,
    after: &[
        (1, "N"),
        (2, "N"),
        (0, "E 1 B 1000 10"),
        (1, "E 1 B 1000 10"),
        (0, "A 1 1 1000 10"),
        (1, "A 1 1 1000 10"),
        (2, "A 1 1 1000 10"),
        (0, "W 1 1"),
        (1, "E 1 B 1000 10"),
        (2, "E 1 B 1000 10"),
        (0, "A 1 9 1000 10"),
        (0, "A 2 3 1000 10"),
        (0, "N"),
        (1, "N"),
        (2, "N"),
        (0, "N"),
    ],
    text: "\
E 1 0 10
E 2 0 10
R 12
N 2 - 0
R 11
R 11
R 12
R 12
A 0 10
W 10
R 12
E 3 0 10
R 7
R 8
N 3 - 0
R 12
N 4 - 0
R 3
",
};

fn answer<T: Table + Drop>(heap: Global, table: T, day: &Day) -> anyhow::Result<String> {
    let terms = Terms::new(1000, 10).ok().context("the terms are refused")?;
    let mut out = String::new(heap);
    let mut session = Session::start(terms, table);
    put_steps(&mut session, day.before, &mut out)?;
    pass_by(&mut session, day.passing);
    put_steps(&mut session, day.after, &mut out)?;
    Ok(out)
}

fn show_day<R: Print>(
    report: &mut Report<R>,
    heap: Global,
    name: &str,
    places: usize,
    day: &Day,
) -> anyhow::Result<()> {
    let mut orders = vec![in heap; no_order(); places]?;
    let given = answer(heap, Queue::new(&mut orders), day)?;
    report.tell(name, agreement(&given.as_str(), &day.text))
}

/// Works the days that no file can write, and tells of each.
pub fn show_sessions<R: Print>(report: &mut Report<R>, heap: Global) -> anyhow::Result<()> {
    show_day(report, heap, "a run of its own for each call", 2, &RUNS)?;
    show_day(report, heap, "a million arrivals", 6, &ALL_ARRIVALS)?;
    show_day(
        report,
        heap,
        "an alter takes the last of a million arrivals",
        6,
        &LAST_ARRIVAL,
    )
}
