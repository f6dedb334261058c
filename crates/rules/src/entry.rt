// What the rules ask of an order's member, volume and limit price, whatever else the book holds.
ghost use Rattle.std.specs.Prelude.{◌≡◌, not};
ghost use Rattle.rules.specs.Band.{within};
ghost use Rattle.rules.specs.Entry.{refusal_of, row, is_member, is_volume};

use crate::refusal::Refusal;
use crate::terms::Terms;

/// Errors: refusal 4, where the member is not 1 to 16.
pub fn check_member(member: u32) -> Result<(), Refusal>
    ensures { refusal_of result ≡ row (not (is_member member)) 4 }
{
    match member {
        1..=16 => Ok(()),
        _ => Err(Refusal::Member),
    }
}

/// Errors: refusal 5, where the volume is 0, over 100,000,000 shares or not whole blocks.
pub fn check_volume(terms: &Terms, volume: u32) -> Result<(), Refusal>
    ensures { refusal_of result ≡ row (not (is_volume terms.now.block volume)) 5 }
{
    if !(1..=100_000_000).contains(&volume) || volume % terms.block() != 0 {
        return Err(Refusal::Volume);
    }
    Ok(())
}

/// Errors: refusal 6, where the price is outside the band.
pub fn check_price(terms: &Terms, price: u32) -> Result<(), Refusal>
    ensures { refusal_of result ≡ row (not (within terms.now.lo terms.now.hi price)) 6 }
{
    let (lo, hi) = terms.band();
    if !(lo..=hi).contains(&price) {
        return Err(Refusal::Price);
    }
    Ok(())
}
