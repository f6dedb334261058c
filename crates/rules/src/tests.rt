use crate::order::{Direction, Order};
use crate::queued::Queued;
use crate::rank::best;
use crate::reference::{DayRecord, EndedDay};
use crate::side::{Buys, Sells};
use crate::terms::Terms;
use std::test::Fail;

fn order(number: u32, price: u32, arrival: u32) -> Order {
    Order {
        arrival,
        ..Order::limit(number, 1, Direction::Buy, price, 10)
    }
}

// Price before arrival before number; the same orders rank otherwise among the sells.
#[test]
fn first_in_rank(rt: HostRuntime) -> Result<(), Fail> {
    let orders = [
        order(1, 990, 1),
        order(4, 1010, 7),
        order(3, 1010, 7),
        order(2, 1010, 8),
    ];
    let buys = orders.map(Queued::<Buys>::new);
    let sells = orders.map(Queued::<Sells>::new);
    let none: [Queued<Buys>; 0] = [];
    assert_eq!(rt; best(&buys).ok_or("no buy")?.order.number, 3);
    assert_eq!(rt; best(&sells).ok_or("no sell")?.order.number, 1);
    assert!(rt; best(&none).is_none());
    Ok(())
}

// A next reference above 1,000,000 gives no terms, and the day comes back with it.
#[test]
fn day_handed_back(rt: HostRuntime) -> Result<(), Fail> {
    let terms = Terms::new(1_000_000, 10).ok().ok_or("terms")?;
    let left = DayRecord {
        last_trade: None,
        buy_at_high: true,
        sell_at_low: false,
    };
    let back = EndedDay::new(&terms, Some(left))
        .next_terms(10)
        .err()
        .ok_or("terms above the greatest reference")?;
    assert_eq!(rt; back.refusal.number(), 1);
    assert_eq!(rt; back.day.next_reference(), 1_300_000);
    Ok(())
}
