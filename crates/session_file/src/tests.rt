use crate::answer::answer_file;
use crate::fault::Fault;
use crate::lines::Lines;
use crate::number::read_number;
use crate::output::OutputLine;
use crate::reader::read_call;
use book::answer::{Advanced, Answer, Told};
use book::call::{Alteration, Call, NewOrder, Withdrawal};
use book::slip::Slip;
use book::stage::Stage;
use rules::order::{Direction, Order};
use std::test::Fail;
use tables::queue::Queue;

#[test]
fn numbers(rt: HostRuntime) {
    assert_eq!(rt; read_number(b"0"), Some(0));
    assert_eq!(rt; read_number(b"999999999"), Some(999_999_999));
    assert_eq!(rt; read_number(b"1000000000"), None);
    assert_eq!(rt; read_number(b"07"), None);
    assert_eq!(rt; read_number(b""), None);
    assert_eq!(rt; read_number(b"+1"), None);
}

#[test]
fn calls(rt: HostRuntime) {
    let enter = read_call(b"E 1 B 1050 40");
    assert!(rt;
        matches!(
            enter,
            Some(Call::Enter(NewOrder {
                member: 1,
                direction: Direction::Buy,
                limit: Some(1050),
                volume: 40
            }))
        )
    );
    let market = read_call(b"E 4 S M 20");
    assert!(rt;
        matches!(
            market,
            Some(Call::Enter(NewOrder {
                member: 4,
                direction: Direction::Sell,
                limit: None,
                volume: 20
            }))
        )
    );
    let alter = read_call(b"A 1 2 990 30");
    assert!(rt;
        matches!(
            alter,
            Some(Call::Alter(Alteration {
                member: 1,
                number: 2,
                price: 990,
                volume: 30
            }))
        )
    );
    assert!(rt;
        matches!(
            read_call(b"W 1 2"),
            Some(Call::Withdraw(Withdrawal {
                member: 1,
                number: 2
            }))
        )
    );
    assert!(rt; matches!(read_call(b"N"), Some(Call::Advance)));
    assert!(rt; read_call(b"N ").is_none());
    assert!(rt; read_call(b"W 1  2").is_none());
    assert!(rt; read_call(b"A 1 2 M 30").is_none());
}

#[test]
fn lines(rt: HostRuntime) -> Result<(), Fail> {
    let told = Told::Advanced(Advanced {
        stage: Stage::Open,
        price: Some(1000),
        traded: 30,
    });
    let advanced = Answer { told, slips: 1 };
    let alloc = rt.alloc();
    assert_eq!(rt;
        OutputLine::from(advanced).to_string(alloc)?.as_str(),
        "N 2 1000 30"
    );
    let lapse = Slip::Lapse {
        number: 3,
        volume: 10,
    };
    assert_eq!(rt;
        OutputLine::from(lapse).to_string(alloc)?.as_str(),
        "L 3 10"
    );
    assert_eq!(rt; Lines::new(b"").and_then(|lines| lines.end()), Ok(()));
    assert_eq!(rt;
        Lines::new(b"7").and_then(|lines| lines.end()),
        Err(Fault::in_line(1))
    );
    Ok(())
}

#[test]
fn files(rt: HostRuntime) -> Result<(), Fail> {
    let alloc = rt.alloc();
    let slip = Slip::Lapse {
        number: 0,
        volume: 0,
    };
    let mut places = [Order::limit(0, 0, Direction::Buy, 0, 0); 4];
    let worked = answer_file(
        alloc,
        b"2\n1000\n10\n1\nN\n",
        Queue::new(&mut places),
        vec![in alloc; slip; 4]?,
    )?;
    assert_eq!(rt; worked.as_str(), "N 2 - 0\nF 1000\n");
    let terms = answer_file(
        alloc,
        b"2\n0\n10\n",
        Queue::new(&mut places),
        vec![in alloc; slip; 4]?,
    )?;
    assert_eq!(rt; terms.as_str(), "R 1\n");
    let missing = answer_file(
        alloc,
        b"2\n1000\n10\n2\nN\n",
        Queue::new(&mut places),
        vec![in alloc; slip; 4]?,
    )?;
    assert_eq!(rt; missing.as_str(), "N 2 - 0\nX 6\n");
    let empty = answer_file(
        alloc,
        b"",
        Queue::new(&mut places),
        vec![in alloc; slip; 4]?,
    )?;
    assert_eq!(rt; empty.as_str(), "X 1\n");
    Ok(())
}
