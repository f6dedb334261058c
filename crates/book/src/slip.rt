/// What a call writes: a trade of two orders, or the end of what is left of a market order. Orders are named by their
/// numbers; price in bani, volume in shares.
#[derive(Clone, Copy, Debug, PartialEq, Eq)]
pub enum Slip {
    Trade {
        buy: u32,
        sell: u32,
        price: u32,
        volume: u32,
    },
    Lapse {
        number: u32,
        volume: u32,
    },
}
