// Works every published figure by the rules, and prints it beside the published one.
#![tactic(auto)]

mod chain;
mod days;
mod published;
mod shown;
mod verdict;

use anyhow::Context;
use chain::show_days;
use days::left_by;
use published::{Asked, Band, Entry, Untraded};
use report::Report;
use rules::entry::{check_price, check_volume};
use rules::fixing::fixing;
use rules::order::{Direction, Order};
use rules::reference::next_reference;
use rules::terms::Terms;
use shown::{Answer, Fixed, Limits, Lines, Struck};

// The text alone: a refusal's number is no part of what this program says.
fn terms_of(reference: u32, block: u32) -> anyhow::Result<Terms> {
    Terms::new(reference, block)
        .ok()
        .context("the terms are refused")
}

fn show_band<R: Print>(report: &mut Report<R>, published: &Band) -> anyhow::Result<()> {
    let Band { reference, limits } = published;
    let given = Limits::from(terms_of(*reference, 1)?.band());
    report.compare(format_args!("band of {reference}"), &given, limits)
}

fn show_fixing<R: Print>(
    report: &mut Report<R>,
    terms: &Terms,
    orders: &[Order],
    published: Fixed,
) -> anyhow::Result<()> {
    report.compare(
        format_args!("fixing at {} of{}", terms.reference(), Lines(orders)),
        &Fixed::from(fixing(terms, orders)),
        &published,
    )
}

fn show_fixings<R: Print>(report: &mut Report<R>, terms: &Terms) -> anyhow::Result<()> {
    let apart = [
        Order::limit(1, 1, Direction::Buy, 1020, 20),
        Order::limit(2, 1, Direction::Sell, 1040, 20),
    ];
    show_fixing(report, terms, &apart, Fixed(None))?;
    let crossed = [
        Order::limit(1, 1, Direction::Buy, 1030, 50),
        Order::limit(2, 1, Direction::Buy, 1010, 30),
        Order::limit(3, 1, Direction::Sell, 1000, 40),
        Order::limit(4, 1, Direction::Sell, 1020, 40),
    ];
    show_fixing(
        report,
        terms,
        &crossed,
        Fixed(Some(Struck {
            price: 1020,
            volume: 50,
        })),
    )?;
    let beside = [
        Order::limit(1, 1, Direction::Buy, 1010, 40),
        Order::limit(2, 1, Direction::Buy, 1000, 20),
        Order::limit(3, 1, Direction::Sell, 990, 40),
    ];
    show_fixing(
        report,
        terms,
        &beside,
        Fixed(Some(Struck {
            price: 1001,
            volume: 40,
        })),
    )
}

fn show_untraded<R: Print>(report: &mut Report<R>, published: &Untraded) -> anyhow::Result<()> {
    let Untraded {
        reference,
        course,
        next,
    } = published;
    let terms = terms_of(*reference, 1)?;
    report.compare(
        format_args!("next reference of {reference}: {course}"),
        &next_reference(&terms, Some(left_by(&terms, course))),
        next,
    )
}

fn show_entry<R: Print>(
    report: &mut Report<R>,
    terms: &Terms,
    published: &Entry,
) -> anyhow::Result<()> {
    let Entry { asked, answer } = published;
    // one check for each thing that is asked: a table of checks could not print what was asked
    let given = match *asked {
        Asked::Price(price) => check_price(terms, price),
        Asked::Volume(volume) => check_volume(terms, volume),
    };
    report.compare(
        format_args!("{asked} at {}, block {}", terms.reference(), terms.block()),
        &Answer(given),
        &Answer(*answer),
    )
}

fn main(rt: HostRuntime) -> anyhow::Result<()> {
    let mut report = Report::new(rt);
    for b in &published::BANDS {
        show_band(&mut report, b)?;
    }
    let terms = terms_of(1000, 10)?;
    show_fixings(&mut report, &terms)?;
    for u in &published::UNTRADED {
        show_untraded(&mut report, u)?;
    }
    for e in &published::ENTRIES {
        show_entry(&mut report, &terms, e)?;
    }
    show_days(&mut report, 'A', &published::SYMBOL_A)?;
    show_days(&mut report, 'B', &published::SYMBOL_B)?;
    report.close("figures")
}
