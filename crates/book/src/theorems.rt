// What is shown of the law. Each function's contract is a theorem, and its body does nothing.
ghost use Rattle.book.specs.Ending.{EndsByJournal};
ghost use Rattle.book.specs.Journal.{LawOfJournals};
ghost use Rattle.book.specs.Law.{Law};
ghost use Rattle.book.specs.Leads.{GoingOn};
ghost use Rattle.book.specs.LiveOrders.{LiveBookIsLive};
ghost use Rattle.book.specs.Model.{model};
ghost use Rattle.book.specs.Pinned.{Pinned};
ghost use Rattle.book.specs.Places.{TakesByPlaces};
ghost use Rattle.book.specs.Refusals.{RefusalsByExample};
ghost use Rattle.book.specs.Room.{Room};
ghost use Rattle.book.specs.Splits.{SlipsAtSplits};
ghost use Rattle.book.specs.Worked.{WorkedDay};

/// The law holds of the rules: after every history, of every try.
#[tactic(auto, using(crate::proofs::Laws::law))]
pub fn law_stands()
    ensures { Law model }
{}

/// Two lawful engines that refuse the same tries with the same numbers are the same: the law leaves nothing else open.
pub fn law_pins()
    ensures { Pinned }
{}

/// An engine is lawful exactly if its journals are.
pub fn law_of_journals()
    ensures { LawOfJournals }
{}

/// A call by the rules is lawful after whatever journal leads to it, and the journal goes on.
#[tactic(auto, using(crate::proofs::Leading::going_on))]
pub fn journals_go_on()
    ensures { GoingOn }
{}

/// What the law says of a call's slips one after the other, it says of the slip at every split of them.
#[tactic(auto, using(crate::proofs::Split::slips_at_splits))]
pub fn slips_at_every_split()
    ensures { SlipsAtSplits }
{}

/// The slips of a call are as many as it answers, and never pass the end of a run that it was not refused for.
#[tactic(auto, using(crate::proofs::Rooms::room_stands))]
pub fn room_stands()
    ensures { Room }
{}

/// After every history the table has the places given, no side holds more, and the table takes the next order exactly where
/// its side is not full.
pub fn only_full_sides_refuse()
    ensures { TakesByPlaces }
{}

/// The next reference price that a session's marks give is the one that any journal leading to it gives.
#[tactic(auto, using(crate::proofs::Endings::ends_by_journal))]
pub fn reference_of_the_journal()
    ensures { EndsByJournal }
{}

/// Days worked by the rules: one that trades, and days without a trade that end at each of the reference prices.
#[tactic(auto, using(crate::proofs::Example::worked_day))]
pub fn worked_day_holds()
    ensures { WorkedDay }
{}

/// A call for each refusal, of two that meet the first, and at the edge of each what just passes.
#[tactic(auto, using(crate::proofs::Example::refusals))]
pub fn refusals_by_example()
    ensures { RefusalsByExample }
{}

/// After every history of every engine, the book by which a fixing is judged holds exactly the live orders.
pub fn live_book_is_live()
    ensures { LiveBookIsLive }
{}
