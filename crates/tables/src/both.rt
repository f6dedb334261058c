// One thing for the buys and one for the sells.
ghost use Rattle.std.specs.Prelude.{◌≡◌};
ghost use Rattle.std.specs.Borrow.{Lends, sem};
ghost use Rattle.tables.specs.Both.{of, with_other};
ghost use Rattle.tables.specs.contracts.both.Both.{the_row};

use rules::order::Direction;

/// One thing for each side.
#[derive(Drop)]
pub struct Both<T> {
    pub buys: T,
    pub sells: T,
}

impl<T> Both<T> {
    /// The one of this side.
    pub fn of(&self, direction: Direction) -> &T
        ensures { result.now ≡ of direction self.now }
    {
        match direction {
            Direction::Buy => &self.buys,
            Direction::Sell => &self.sells,
        }
    }

    /// Lends one of the two: what is written to it then stands there.
    pub fn of_mut(&mut self, direction: Direction) -> &mut T
        ensures* lends { sem 𝓛
            (Lends (the_row T.row) T.row self.entry result
            (λ w. with_other direction w self.old)) }
        ensures value { result.now ≡ of direction self.old }
    {
        match direction {
            Direction::Buy => &mut self.buys,
            Direction::Sell => &mut self.sells,
        }
    }
}
