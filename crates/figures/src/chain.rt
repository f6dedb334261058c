// A symbol's days, one after the other: the terms of each day are drawn from the day before it.
ghost use Rattle.std.specs.Prelude.{◌≡◌};
ghost use Rattle.figures.specs.Days.{day_of};

use crate::days::left_by;
use crate::published::Row;
use crate::shown::Day;
use crate::verdict::judge;
use anyhow::Context;
use report::Report;
use rules::reference::EndedDay;
use rules::terms::Terms;

// The rows say nothing of a block, and none of their figures hangs on it.
const BLOCK: u32 = 1;

fn figures_of(terms: &Terms, day: &EndedDay) -> Day
    ensures { result ≡ day_of terms.now day.now }
{
    let (lowest, highest) = terms.band();
    Day {
        reference: terms.reference(),
        lowest,
        highest,
        next: day.next_reference(),
    }
}

fn show_row<R: Print>(
    report: &mut Report<R>,
    symbol: char,
    row: &Row,
    given: Day,
) -> anyhow::Result<()> {
    let Row {
        day,
        course,
        figures,
        known_lowest,
    } = row;
    report.tell(
        format_args!("{symbol} {day}: {course}: rules {given}; published {figures}"),
        judge(given, *figures, *known_lowest),
    )
}

pub fn show_days<R: Print>(
    report: &mut Report<R>,
    symbol: char,
    rows: &[Row],
) -> anyhow::Result<()> {
    let first = rows.first().context("there is no row")?;
    // the texts alone, as of the program's other terms
    let mut terms = Terms::new(first.figures.reference, BLOCK)
        .ok()
        .context("the first terms are refused")?;
    for row in rows {
        let day = EndedDay::new(&terms, Some(left_by(&terms, &row.course)));
        show_row(report, symbol, row, figures_of(&terms, &day))?;
        terms = day
            .next_terms(BLOCK)
            .ok()
            .context("the next terms are refused")?;
    }
    Ok(())
}
