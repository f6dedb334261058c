// The published figures, prices in bani. None of them comes from a run of the rules.

use crate::shown::{Day, Limits};
use rules::refusal::Refusal;

pub struct Band {
    pub reference: u32,
    pub limits: Limits,
}

pub static BANDS: [Band; 2] = [
    Band {
        reference: 1000,
        limits: Limits {
            lowest: 700,
            highest: 1300,
        },
    },
    Band {
        reference: 1,
        limits: Limits {
            lowest: 1,
            highest: 1,
        },
    },
];

/// The best prices of a day as they are published: both sides', or one price without its side.
#[derive(Clone, Copy)]
pub enum Best {
    Pair { buy: u32, sell: u32 },
    Lone(u32),
}

/// For how much of continuous trading the best prices stood, where that is said.
#[derive(Clone, Copy, PartialEq, Eq)]
pub enum Stood {
    Throughout,
    Part,
    Unsaid,
}

/// What is published of a day's trading.
#[derive(Clone, Copy)]
pub struct Course {
    pub best: Best,
    pub stood: Stood,
    pub last_trade: Option<u32>,
}

/// A next reference price of a session without trades, in which one best price stood at its limit.
pub struct Untraded {
    pub reference: u32,
    pub course: Course,
    pub next: u32,
}

pub static UNTRADED: [Untraded; 3] = [
    Untraded {
        reference: 1000,
        course: Course {
            best: Best::Lone(1300),
            stood: Stood::Throughout,
            last_trade: None,
        },
        next: 1300,
    },
    Untraded {
        reference: 1800,
        course: Course {
            best: Best::Lone(2340),
            stood: Stood::Part,
            last_trade: None,
        },
        next: 1800,
    },
    Untraded {
        reference: 2340,
        course: Course {
            best: Best::Lone(1638),
            stood: Stood::Throughout,
            last_trade: None,
        },
        next: 1638,
    },
];

/// What is looked at on entry, and what the check of it answers.
#[derive(Clone, Copy)]
pub enum Asked {
    Price(u32),
    Volume(u32),
}

pub struct Entry {
    pub asked: Asked,
    pub answer: Result<(), Refusal>,
}

pub static ENTRIES: [Entry; 5] = [
    Entry {
        asked: Asked::Price(1300),
        answer: Ok(()),
    },
    Entry {
        asked: Asked::Price(1301),
        answer: Err(Refusal::Price),
    },
    Entry {
        asked: Asked::Volume(100_000_000),
        answer: Ok(()),
    },
    Entry {
        asked: Asked::Volume(15),
        answer: Err(Refusal::Volume),
    },
    Entry {
        asked: Asked::Volume(100_000_010),
        answer: Err(Refusal::Volume),
    },
];

/// A day of a symbol. A row that keeps its reference price although a best price stands at its limit had it there for a
/// part of the time. Day 15 of symbol B prints 2070 as its lowest price, where 2070.6 rounds to 2071.
#[derive(Clone, Copy)]
pub struct Row {
    pub day: u32,
    pub course: Course,
    pub figures: Day,
    /// what the rule gives for the lowest price, where the row is known to print another
    pub known_lowest: Option<u32>,
}

pub static SYMBOL_A: [Row; 10] = [
    Row {
        day: 1,
        course: Course {
            best: Best::Lone(1200),
            stood: Stood::Part,
            last_trade: None,
        },
        figures: Day {
            reference: 1000,
            lowest: 700,
            highest: 1300,
            next: 1000,
        },
        known_lowest: None,
    },
    Row {
        day: 2,
        course: Course {
            best: Best::Lone(1300),
            stood: Stood::Throughout,
            last_trade: None,
        },
        figures: Day {
            reference: 1000,
            lowest: 700,
            highest: 1300,
            next: 1300,
        },
        known_lowest: None,
    },
    Row {
        day: 3,
        course: Course {
            best: Best::Pair {
                buy: 1100,
                sell: 1500,
            },
            stood: Stood::Unsaid,
            last_trade: None,
        },
        figures: Day {
            reference: 1300,
            lowest: 910,
            highest: 1690,
            next: 1300,
        },
        known_lowest: None,
    },
    Row {
        day: 4,
        course: Course {
            best: Best::Lone(1400),
            stood: Stood::Unsaid,
            last_trade: None,
        },
        figures: Day {
            reference: 1300,
            lowest: 910,
            highest: 1690,
            next: 1300,
        },
        known_lowest: None,
    },
    Row {
        day: 5,
        course: Course {
            best: Best::Lone(1690),
            stood: Stood::Throughout,
            last_trade: None,
        },
        figures: Day {
            reference: 1300,
            lowest: 910,
            highest: 1690,
            next: 1690,
        },
        known_lowest: None,
    },
    Row {
        day: 6,
        course: Course {
            best: Best::Lone(2197),
            stood: Stood::Throughout,
            last_trade: None,
        },
        figures: Day {
            reference: 1690,
            lowest: 1183,
            highest: 2197,
            next: 2197,
        },
        known_lowest: None,
    },
    Row {
        day: 7,
        course: Course {
            best: Best::Pair {
                buy: 1600,
                sell: 2000,
            },
            stood: Stood::Unsaid,
            last_trade: Some(1800),
        },
        figures: Day {
            reference: 2197,
            lowest: 1538,
            highest: 2856,
            next: 1800,
        },
        known_lowest: None,
    },
    Row {
        day: 8,
        course: Course {
            best: Best::Lone(2340),
            stood: Stood::Part,
            last_trade: None,
        },
        figures: Day {
            reference: 1800,
            lowest: 1260,
            highest: 2340,
            next: 1800,
        },
        known_lowest: None,
    },
    Row {
        day: 9,
        course: Course {
            best: Best::Lone(2340),
            stood: Stood::Throughout,
            last_trade: None,
        },
        figures: Day {
            reference: 1800,
            lowest: 1260,
            highest: 2340,
            next: 2340,
        },
        known_lowest: None,
    },
    Row {
        day: 10,
        course: Course {
            best: Best::Lone(1638),
            stood: Stood::Throughout,
            last_trade: None,
        },
        figures: Day {
            reference: 2340,
            lowest: 1638,
            highest: 3042,
            next: 1638,
        },
        known_lowest: None,
    },
];

pub static SYMBOL_B: [Row; 15] = [
    Row {
        day: 1,
        course: Course {
            best: Best::Lone(5500),
            stood: Stood::Unsaid,
            last_trade: None,
        },
        figures: Day {
            reference: 5000,
            lowest: 3500,
            highest: 6500,
            next: 5000,
        },
        known_lowest: None,
    },
    Row {
        day: 2,
        course: Course {
            best: Best::Lone(3500),
            stood: Stood::Throughout,
            last_trade: None,
        },
        figures: Day {
            reference: 5000,
            lowest: 3500,
            highest: 6500,
            next: 3500,
        },
        known_lowest: None,
    },
    Row {
        day: 3,
        course: Course {
            best: Best::Pair {
                buy: 4000,
                sell: 4300,
            },
            stood: Stood::Unsaid,
            last_trade: None,
        },
        figures: Day {
            reference: 3500,
            lowest: 2450,
            highest: 4550,
            next: 3500,
        },
        known_lowest: None,
    },
    Row {
        day: 4,
        course: Course {
            best: Best::Lone(2450),
            stood: Stood::Part,
            last_trade: None,
        },
        figures: Day {
            reference: 3500,
            lowest: 2450,
            highest: 4550,
            next: 3500,
        },
        known_lowest: None,
    },
    Row {
        day: 5,
        course: Course {
            best: Best::Lone(3000),
            stood: Stood::Unsaid,
            last_trade: Some(4000),
        },
        figures: Day {
            reference: 3500,
            lowest: 2450,
            highest: 4550,
            next: 4000,
        },
        known_lowest: None,
    },
    Row {
        day: 6,
        course: Course {
            best: Best::Lone(2800),
            stood: Stood::Throughout,
            last_trade: None,
        },
        figures: Day {
            reference: 4000,
            lowest: 2800,
            highest: 5200,
            next: 2800,
        },
        known_lowest: None,
    },
    Row {
        day: 7,
        course: Course {
            best: Best::Lone(1960),
            stood: Stood::Part,
            last_trade: None,
        },
        figures: Day {
            reference: 2800,
            lowest: 1960,
            highest: 3640,
            next: 2800,
        },
        known_lowest: None,
    },
    Row {
        day: 8,
        course: Course {
            best: Best::Lone(1960),
            stood: Stood::Throughout,
            last_trade: None,
        },
        figures: Day {
            reference: 2800,
            lowest: 1960,
            highest: 3640,
            next: 1960,
        },
        known_lowest: None,
    },
    Row {
        day: 9,
        course: Course {
            best: Best::Lone(2548),
            stood: Stood::Unsaid,
            last_trade: Some(2500),
        },
        figures: Day {
            reference: 1960,
            lowest: 1372,
            highest: 2548,
            next: 2500,
        },
        known_lowest: None,
    },
    Row {
        day: 10,
        course: Course {
            best: Best::Pair {
                buy: 2200,
                sell: 3250,
            },
            stood: Stood::Unsaid,
            last_trade: None,
        },
        figures: Day {
            reference: 2500,
            lowest: 1750,
            highest: 3250,
            next: 2500,
        },
        known_lowest: None,
    },
    Row {
        day: 11,
        course: Course {
            best: Best::Lone(1750),
            stood: Stood::Throughout,
            last_trade: None,
        },
        figures: Day {
            reference: 2500,
            lowest: 1750,
            highest: 3250,
            next: 1750,
        },
        known_lowest: None,
    },
    Row {
        day: 12,
        course: Course {
            best: Best::Lone(2275),
            stood: Stood::Throughout,
            last_trade: None,
        },
        figures: Day {
            reference: 1750,
            lowest: 1225,
            highest: 2275,
            next: 2275,
        },
        known_lowest: None,
    },
    Row {
        day: 13,
        course: Course {
            best: Best::Lone(2958),
            stood: Stood::Part,
            last_trade: None,
        },
        figures: Day {
            reference: 2275,
            lowest: 1593,
            highest: 2958,
            next: 2275,
        },
        known_lowest: None,
    },
    Row {
        day: 14,
        course: Course {
            best: Best::Lone(2958),
            stood: Stood::Throughout,
            last_trade: None,
        },
        figures: Day {
            reference: 2275,
            lowest: 1593,
            highest: 2958,
            next: 2958,
        },
        known_lowest: None,
    },
    Row {
        day: 15,
        course: Course {
            best: Best::Lone(3845),
            stood: Stood::Unsaid,
            last_trade: Some(3300),
        },
        figures: Day {
            reference: 2958,
            lowest: 2070,
            highest: 3845,
            next: 3300,
        },
        known_lowest: Some(2071),
    },
];
