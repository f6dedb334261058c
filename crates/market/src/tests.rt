use crate::session::Session;
use book::call::NewOrder;
use book::slip::Slip;
use rules::order::{Direction, Order};
use rules::terms::Terms;
use std::process::Abort;
use std::test::Fail;
use tables::queue::Queue;
use tables::table::Table;

fn lapse() -> Slip {
    Slip::Lapse {
        number: 0,
        volume: 0,
    }
}

fn new_order(member: u32, direction: Direction, limit: Option<u32>, volume: u32) -> NewOrder {
    NewOrder {
        member,
        direction,
        limit,
        volume,
    }
}

// A day with an opening fixing, a trade in Open and a lapse.
fn work_day<T: Table>(rt: &impl Abort, session: &mut Session<T>) -> Result<(), Fail> {
    let mut run = [lapse(); 16];
    let bid = new_order(1, Direction::Buy, Some(1050), 40);
    assert!(rt; session.enter(bid, &mut run).is_ok());
    let ask = new_order(2, Direction::Sell, Some(990), 30);
    assert!(rt; session.enter(ask, &mut run).is_ok());
    let outside = new_order(3, Direction::Buy, Some(1400), 10);
    match session.enter(outside, &mut run) {
        Err(refusal) => assert_eq!(rt; refusal.number(), 6),
        Ok(_) => return Err(Fail::new("a price outside the band")),
    }
    let Ok(opening) = session.advance(&mut run) else {
        return Err(Fail::new("opening"));
    };
    assert_eq!(rt; opening.told.price, Some(1000));
    assert_eq!(rt; opening.told.traded, 30);
    assert_eq!(rt; opening.slips, 1);
    assert!(rt;
        matches!(
            run[0],
            Slip::Trade {
                buy: 1,
                sell: 2,
                price: 1000,
                volume: 30
            }
        )
    );
    let market = new_order(4, Direction::Sell, None, 20);
    let Ok(sale) = session.enter(market, &mut run) else {
        return Err(Fail::new("market"));
    };
    assert_eq!(rt; sale.told.number, 3);
    assert_eq!(rt; sale.told.traded, 10);
    assert_eq!(rt; sale.told.held, 0);
    assert_eq!(rt; sale.slips, 2);
    assert!(rt;
        matches!(
            run[0],
            Slip::Trade {
                buy: 1,
                sell: 3,
                price: 1050,
                volume: 10
            }
        )
    );
    assert!(rt;
        matches!(
            run[1],
            Slip::Lapse {
                number: 3,
                volume: 10
            }
        )
    );
    assert!(rt; session.advance(&mut run).is_ok());
    assert!(rt; session.advance(&mut run).is_ok());
    Ok(())
}

#[test]
fn day_works(rt: HostRuntime) -> Result<(), Fail> {
    let mut places = [Order::limit(0, 0, Direction::Buy, 0, 0); 16];
    let Ok(terms) = Terms::new(1000, 10) else {
        return Err(Fail::new("terms"));
    };
    let mut session = Session::start(terms, Queue::new(&mut places));
    let worked = work_day(&rt, &mut session);
    let reference = session.end().next_reference();
    worked?;
    assert_eq!(rt; reference, 1050);
    Ok(())
}
