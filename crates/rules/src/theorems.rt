// What is shown of the rules above their text. Each function's contract is a theorem, and its body does nothing.
ghost use Rattle.rules.specs.Allotment.{FixingTradesTheMost};
ghost use Rattle.rules.specs.Figures.{FiguresHold};
ghost use Rattle.rules.specs.Fixing.{DecidedBySteps, OnePrice};

/// No allotment at any price of the band trades more than the fixing, and one trades just that; there is no price
/// exactly where every allotment trades nothing.
#[tactic(auto, using(crate::proofs::Steps::fixing_trades_the_most))]
pub fn fixing_trades_the_most()
    ensures { FixingTradesTheMost }
{}

/// The fixing price is the one of greatest volume, among those of smallest surplus, among those nearest to the reference.
#[tactic(auto, using(crate::proofs::Steps::decided_by_steps))]
pub fn three_steps_decide_the_fixing()
    ensures { DecidedBySteps }
{}

/// The three steps never leave two prices.
pub fn three_steps_leave_one_price()
    ensures { OnePrice }
{}

/// The rules give the published figures.
pub fn published_figures_hold()
    ensures { FiguresHold }
{}
