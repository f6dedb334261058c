// What an accepted call answers. A fixing trades what any number of orders hold, so its volume is wide.
use crate::stage::Stage;

/// An accepted enter, volumes in shares. What neither traded nor is held has lapsed.
#[derive(Clone, Copy, Debug, PartialEq, Eq)]
pub struct Entered {
    /// the order's number from now on
    pub number: u32,
    pub traded: u128,
    pub held: u32,
}

/// An accepted alter, volumes in shares.
#[derive(Clone, Copy, Debug, PartialEq, Eq)]
pub struct Altered {
    pub traded: u128,
    pub held: u32,
}

/// An accepted withdraw: the volume that the order had, in shares.
#[derive(Clone, Copy, Debug, PartialEq, Eq)]
pub struct Withdrawn {
    pub volume: u32,
}

/// An accepted advance: price in bani, volume in shares, which is 0 where nothing was struck.
#[derive(Clone, Copy, Debug, PartialEq, Eq)]
pub struct Advanced {
    /// the stage that begins
    pub stage: Stage,
    /// the fixing price, if the call struck one
    pub price: Option<u32>,
    pub traded: u128,
}

/// What a caller is told of any call.
#[derive(Clone, Copy, Debug, PartialEq, Eq)]
pub enum Told {
    Entered(Entered),
    Altered(Altered),
    Withdrawn(Withdrawn),
    Advanced(Advanced),
}

/// What a call is answered: what its caller is told, and how many slips it wrote.
#[derive(Clone, Copy, Debug, PartialEq, Eq)]
pub struct Answer<A> {
    pub told: A,
    /// from the first place of the call's run on
    pub slips: usize,
}
