// Whether the figures of a day are the published ones.
ghost use Rattle.std.specs.Prelude.{◌≡◌};
ghost use Rattle.figures.specs.Verdicts.{of_day};

use crate::shown::Day;
use report::verdict::Verdict;

/// A lowest price that differs from the published one as it is known to is no fault, if all else agrees.
pub fn judge(given: Day, published: Day, known_lowest: Option<u32>) -> Verdict
    ensures { result ≡ of_day given published known_lowest }
{
    let but_for_lowest = Day {
        lowest: published.lowest,
        ..given
    };
    if but_for_lowest != published {
        Verdict::Differs
    } else if given.lowest == published.lowest {
        Verdict::Agrees
    } else if known_lowest == Some(given.lowest) {
        Verdict::KnownDifference
    } else {
        Verdict::Differs
    }
}
