// The law fails of rules with a flaw: what follows tests the law, not the code.
ghost use Rattle.book.specs.Law.{Law};
ghost use Rattle.book.specs.Flaws.{Fails, Unlawful, above_limit, always_priced, blind, empty_trade, exchanged_ends, forgetful, half_stays, lapse_backwards, lapse_first, last_first, lower_price, never_lapse, never_trades, no_count, no_volume, old_arrival, outside_band, own_price, part_withdrawal, passed_over, refusing, short_trade, standing_prices, surplus_ignored, two_steps, wrong_number};

/// Enter answers a number that is not the order's.
#[tactic(auto, using(crate::proofs::Flawed::wrong_number_fails))]
pub fn wrong_number_fails()
    ensures { Fails wrong_number }
{}

/// No call ever counts a slip.
#[tactic(auto, using(crate::proofs::Flawed::no_count_fails))]
pub fn no_count_fails()
    ensures { Fails no_count }
{}

/// A strike says no price without looking.
#[tactic(auto, using(crate::proofs::Flawed::blind_fails))]
pub fn blind_fails()
    ensures { Fails blind }
{}

/// The fixing leaves out its third step.
#[tactic(auto, using(crate::proofs::Flawed::two_steps_fails))]
pub fn two_steps_fails()
    ensures { Fails two_steps }
{}

/// The fixing leaves out its second step.
#[tactic(auto, using(crate::proofs::Flawed::surplus_ignored_fails))]
pub fn surplus_ignored_fails()
    ensures { Fails surplus_ignored }
{}

/// The fixing's price is above the band.
#[tactic(auto, using(crate::proofs::Flawed::outside_band_fails))]
pub fn outside_band_fails()
    ensures { Fails outside_band }
{}

/// The fixing tries only the lowest price of the band and prices at which an order stands.
#[tactic(auto, using(crate::proofs::Flawed::standing_prices_fails))]
pub fn standing_prices_fails()
    ensures { Fails standing_prices }
{}

/// The market orders lapse before anything trades.
#[tactic(auto, using(crate::proofs::Flawed::lapse_first_fails))]
pub fn lapse_first_fails()
    ensures { Fails lapse_first }
{}

/// An entering order pays above its limit.
#[tactic(auto, using(crate::proofs::Flawed::above_limit_fails))]
pub fn above_limit_fails()
    ensures { Fails above_limit }
{}

/// Where an order that enters fills the first of the other side, half of it stays.
#[tactic(auto, using(crate::proofs::Flawed::half_stays_fails))]
pub fn half_stays_fails()
    ensures { Fails half_stays }
{}

/// A trade of volume 0.
#[tactic(auto, using(crate::proofs::Flawed::empty_trade_fails))]
pub fn empty_trade_fails()
    ensures { Fails empty_trade }
{}

/// A strike's trades are at the lower price of the two orders.
#[tactic(auto, using(crate::proofs::Flawed::lower_price_fails))]
pub fn lower_price_fails()
    ensures { Fails lower_price }
{}

/// A market buy has the lowest price of the band, a market sell the highest.
#[tactic(auto, using(crate::proofs::Flawed::exchanged_ends_fails))]
pub fn exchanged_ends_fails()
    ensures { Fails exchanged_ends }
{}

/// What is left of a market order stands.
#[tactic(auto, using(crate::proofs::Flawed::never_lapse_fails))]
pub fn never_lapse_fails()
    ensures { Fails never_lapse }
{}

/// The last comer stands first at its price.
#[tactic(auto, using(crate::proofs::Flawed::last_first_fails))]
pub fn last_first_fails()
    ensures { Fails last_first }
{}

/// An alter keeps price and arrival.
#[tactic(auto, using(crate::proofs::Flawed::old_arrival_fails))]
pub fn old_arrival_fails()
    ensures { Fails old_arrival }
{}

/// An entering order passes over the first of the other side.
#[tactic(auto, using(crate::proofs::Flawed::passed_over_fails))]
pub fn passed_over_fails()
    ensures { Fails passed_over }
{}

/// Withdraw answers less than it takes.
#[tactic(auto, using(crate::proofs::Flawed::part_withdrawal_fails))]
pub fn part_withdrawal_fails()
    ensures { Fails part_withdrawal }
{}

/// Advance answers a price also where there is none.
#[tactic(auto, using(crate::proofs::Flawed::always_priced_fails))]
pub fn always_priced_fails()
    ensures { Fails always_priced }
{}

/// A refused call empties the lists.
#[tactic(auto, using(crate::proofs::Flawed::forgetful_fails))]
pub fn forgetful_fails()
    ensures { Unlawful forgetful }
{}

/// Of the market orders that are left, the last lapses first.
#[tactic(auto, using(crate::proofs::Flawed::lapse_backwards_fails))]
pub fn lapse_backwards_fails()
    ensures { Fails lapse_backwards }
{}

/// No call ever answers a volume that was traded.
#[tactic(auto, using(crate::proofs::Flawed::no_volume_fails))]
pub fn no_volume_fails()
    ensures { Fails no_volume }
{}

/// An entering order trades at its own price.
#[tactic(auto, using(crate::proofs::Flawed::own_price_fails))]
pub fn own_price_fails()
    ensures { Fails own_price }
{}

/// A trade of an enter in Open is for less than the smaller of the two.
#[tactic(auto, using(crate::proofs::Flawed::short_trade_fails))]
pub fn short_trade_fails()
    ensures { Fails short_trade }
{}

/// An order that enters in Open does not trade.
#[tactic(auto, using(crate::proofs::Flawed::never_trades_fails))]
pub fn never_trades_fails()
    ensures { Fails never_trades }
{}

/// An engine that refuses every call is lawful: the law has no word on what is to be accepted.
pub fn refusing_is_lawful()
    ensures { Law refusing }
{}
