// Rank: a total order in which two values are level only where they have one identity.
ghost use Rattle.std.specs.Prelude.{◌≡◌, ℕ, Bool, true, false};
ghost use Rattle.rules.specs.Picking.{better_of, picked, Chosen};

/// No Ord: what is level in rank need not be equal, as two orders with one number.
pub trait Ranked {
    ghost identity: { Self → ℕ };

    // the first ranks before the second
    ghost precedes: { Self → Self → Bool };

    fn before(&self, other: &Self) -> bool
        ensures { result ≡ precedes self.now other.now };

    ghost oneway: { (a b : Self) → precedes a b ≡ true → precedes b a ≡ false };

    // where a does not rank before b, nor b before c, a does not rank before c; so ranking before is transitive too
    ghost chain: { (a b c : Self) → precedes a b ≡ false → precedes b c ≡ false
        → precedes a c ≡ false };

    ghost level: { (a b : Self) → precedes a b ≡ false → precedes b a ≡ false
        → identity a ≡ identity b };
}

/// The better of two; the one held where they are level.
pub fn pick<R: Ranked + Copy>(held: R, next: R) -> R
    ensures { result ≡ better_of R.precedes held next }
{
    if next.before(&held) { next } else { held }
}

/// The best of the items, and of those that are level the first in the slice; nothing from an empty slice.
#[tactic(auto, using(crate::proofs::Choosing::chosen_by_laws))]
pub fn best<R: Ranked + Copy>(items: &[R]) -> Option<R>
    ensures value { result ≡ picked R.precedes items.now }
    ensures first { Chosen R.precedes items.now result }
{
    items.iter().copied().reduce(pick)
}
