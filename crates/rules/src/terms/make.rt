ghost use Rattle.std.specs.Prelude.{◌≡◌, ◌≤◌};
ghost use Rattle.rules.specs.Band.{band};
ghost use Rattle.rules.specs.Terms.{terms_answer, terms_of};

use crate::refusal::Refusal;
use crate::terms::Terms;

// The lowest and the highest price of the band around r.
fn band_around(r: u32) -> (u32, u32)
    requires { r ≤ 1000000 }
    ensures { result ≡ band r }
{
    ((7 * r + 5) / 10, (13 * r + 5) / 10)
}

impl Terms {
    /// Terms of a reference price in bani and a block in shares.
    ///
    /// Errors: refusal 1, where the reference price is not 1 to 1,000,000; else 2, where the block is not 1 to 10,000.
    pub fn new(reference: u32, block: u32) -> Result<Terms, Refusal>
        ensures { terms_answer result ≡ terms_of reference block }
    {
        if !(1..=1_000_000).contains(&reference) {
            return Err(Refusal::Reference);
        }
        if !(1..=10_000).contains(&block) {
            return Err(Refusal::Block);
        }
        let (lo, hi) = band_around(reference);
        Ok(Terms {
            reference,
            block,
            lo,
            hi,
        })
    }

    /// In bani.
    pub fn reference(&self) -> u32
        ensures { result ≡ self.now.reference }
    {
        self.reference
    }

    /// In shares.
    pub fn block(&self) -> u32
        ensures { result ≡ self.now.block }
    {
        self.block
    }

    /// The lowest and the highest price of the band, together.
    pub fn band(&self) -> (u32, u32)
        ensures value { result ≡ (self.now.lo, self.now.hi) }
        ensures rule { result ≡ band self.now.reference }
    {
        (self.lo, self.hi)
    }
}
