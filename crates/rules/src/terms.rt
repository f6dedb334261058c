// The terms of a day: the reference price, the block, and the band of prices around the reference.
ghost use Rattle.std.specs.Prelude.{◌≡◌, ◌≤◌};
ghost use Rattle.rules.specs.Band.{lowest, highest};

mod make;

/// Only `new` makes terms, so every value has these facts.
#[derive(Clone, Copy)]
pub struct Terms {
    reference: u32,
    block: u32,
    lo: u32,
    hi: u32,
    ghost priced: { (1 ≤ reference) × (reference ≤ 1000000) },
    ghost blocked: { (1 ≤ block) × (block ≤ 10000) },
    ghost floor: { lo ≡ lowest reference },
    ghost ceiling: { hi ≡ highest reference },
    ghost low: { lo ≤ reference },
    ghost high: { reference ≤ hi },
}
