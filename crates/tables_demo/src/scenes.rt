// Lists of table calls that show what a table means.
use rules::order::{Direction, Order};
use std::alloc::{AllocError, Global};
use tables::calls::Call;

fn add_arrived(number: u32, direction: Direction, price: u32, volume: u32, arrival: u32) -> Call {
    let order = Order::limit(number, 1, direction, price, volume);
    Call::Add {
        order: Order { arrival, ..order },
    }
}

fn add(number: u32, direction: Direction, price: u32, volume: u32) -> Call {
    add_arrived(number, direction, price, volume, number)
}

fn at(direction: Direction, rank: usize) -> Call {
    Call::At { direction, rank }
}

fn count(direction: Direction) -> Call {
    Call::Count { direction }
}

/// Price before arrival before number, on both sides.
pub fn ranks() -> [Call; 21] {
    [
        add(1, Direction::Buy, 1000, 10),
        add(2, Direction::Buy, 1010, 20),
        add(3, Direction::Buy, 1010, 30),
        add(4, Direction::Buy, 1005, 40),
        add_arrived(9, Direction::Buy, 1010, 50, 3),
        at(Direction::Buy, 0),
        at(Direction::Buy, 1),
        at(Direction::Buy, 2),
        at(Direction::Buy, 3),
        at(Direction::Buy, 4),
        at(Direction::Buy, 5),
        add(5, Direction::Sell, 1020, 10),
        add(7, Direction::Sell, 1015, 30),
        add(6, Direction::Sell, 1015, 20),
        at(Direction::Sell, 0),
        at(Direction::Sell, 1),
        at(Direction::Sell, 2),
        at(Direction::Sell, 3),
        count(Direction::Buy),
        count(Direction::Sell),
        Call::Places,
    ]
}

/// A number is held once, on either side, and is free again once it is removed.
pub fn numbers() -> [Call; 12] {
    [
        add(1, Direction::Buy, 1000, 10),
        add_arrived(1, Direction::Buy, 990, 20, 2),
        add_arrived(1, Direction::Sell, 1030, 20, 2),
        Call::Find { number: 1 },
        Call::Find { number: 2 },
        Call::Remove { number: 2 },
        Call::Remove { number: 1 },
        Call::Remove { number: 1 },
        Call::Find { number: 1 },
        add_arrived(1, Direction::Sell, 1030, 20, 2),
        at(Direction::Sell, 0),
        at(Direction::Buy, 0),
    ]
}

/// A volume is set where it is not 0; an order may come with volume 0 and number 0.
pub fn volumes() -> [Call; 18] {
    [
        add(1, Direction::Buy, 1000, 10),
        add(2, Direction::Sell, 1020, 30),
        add(3, Direction::Sell, 1010, 40),
        Call::SetVolume {
            number: 2,
            volume: 0,
        },
        Call::SetVolume {
            number: 5,
            volume: 15,
        },
        Call::SetVolume {
            number: 2,
            volume: 15,
        },
        at(Direction::Sell, 0),
        at(Direction::Sell, 1),
        Call::SetVolume {
            number: 1,
            volume: 25,
        },
        Call::Find { number: 1 },
        add(0, Direction::Buy, 1000, 0),
        at(Direction::Buy, 0),
        Call::SetVolume {
            number: 0,
            volume: 5,
        },
        Call::Find { number: 0 },
        Call::Clear,
        count(Direction::Buy),
        count(Direction::Sell),
        at(Direction::Buy, 0),
    ]
}

// What is asked of a side that holds 32 buys, at 1001 to 1032.
fn of_a_full_side() -> [Call; 13] {
    [
        count(Direction::Buy),
        add(33, Direction::Buy, 1000, 10),
        at(Direction::Buy, 31),
        at(Direction::Buy, 0),
        add(33, Direction::Sell, 1040, 10),
        Call::Remove { number: 16 },
        at(Direction::Buy, 16),
        at(Direction::Buy, 30),
        at(Direction::Buy, 31),
        add(34, Direction::Buy, 1016, 70),
        at(Direction::Buy, 16),
        count(Direction::Buy),
        count(Direction::Sell),
    ]
}

/// 32 buys, which fill their side, and then the questions.
pub fn full(heap: Global) -> Result<Vec<Call>, AllocError> {
    (1..33u32)
        .map(|n| add(n, Direction::Buy, 1000 + n, 10))
        .chain(of_a_full_side())
        .collect(heap)
}

/// The places of a queue, and three sells for one side of it.
pub fn room() -> [Call; 4] {
    [
        Call::Places,
        add(1, Direction::Sell, 1000, 10),
        add(2, Direction::Sell, 1000, 20),
        add(3, Direction::Sell, 1000, 30),
    ]
}
