// Fixes the price of a full book, 512 buys and 512 sells spread over the band, as often as it is asked to: the load that
// bench/fixing.sh times. Its arguments are a reference price and a number of rounds.
#![tactic(auto)]

use anyhow::Context;
use rules::fixing::fixing;
use rules::order::{Direction, Order};
use rules::terms::Terms;
use std::alloc::{AllocError, Global};
use std::env;

// 16 bits wide, so that an order's number never wraps.
const ORDERS_A_SIDE: u16 = 512;

// Buys from the highest price down and sells from the lowest up, a step apart, so that they meet at the reference price.
fn full_book(heap: Global, terms: &Terms) -> Result<Vec<Order>, AllocError> {
    let (lo, hi) = terms.band();
    let step = (hi - lo) / 600;
    (0..ORDERS_A_SIDE)
        .flat_map(|k| {
            let k = u32::from(k);
            let away = k.saturating_mul(step);
            [
                Order::limit(2 * k + 1, 1, Direction::Buy, hi.saturating_sub(away), 10),
                Order::limit(2 * k + 2, 1, Direction::Sell, lo.saturating_add(away), 10),
            ]
        })
        .collect(heap)
}

fn number(text: Option<String>) -> anyhow::Result<u32> {
    let text = text.context("usage: fixing_load REFERENCE ROUNDS")?;
    Ok(text.parse()?)
}

fn main(rt: HostRuntime) -> anyhow::Result<()> {
    let mut args = env::args(&rt)?.skip(1);
    let reference = number(args.next())?;
    let rounds = number(args.next())?;
    // the text alone, without the refusal's number
    let terms = Terms::new(reference, 10)
        .ok()
        .context("the terms are refused")?;
    let orders = full_book(rt.alloc(), &terms)?;
    for _ in 0..rounds {
        match fixing(&terms, &orders) {
            Some(c) => println!(rt; "{} {}", c.price, c.volume)?,
            None => println!(rt; "-")?,
        }
    }
    Ok(())
}
