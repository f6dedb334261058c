// A whole list of calls, worked from a new session on, and the journal of what came of each.
ghost use Rattle.std.specs.Prelude.{◌≡◌, IfOk, IsOk, length};
ghost use Rattle.market.specs.Outcome.{by_number, written_into};
ghost use Rattle.market.specs.Works.{slips_counted};
ghost use Rattle.market.specs.Journaled.{Journaled, Follows, run_through};

use crate::session::Session;
use book::answer::{Answer, Told};
use book::call::Call;
use book::slip::Slip;
use rules::refusal::Refusal;
use rules::terms::Terms;
use std::alloc::{AllocError, Global};
use tables::table::Table;

/// A call over a run of so many places, and what came of it.
#[derive(Drop)]
pub struct Entry {
    pub call: Call,
    pub room: usize,
    pub answer: Result<Answer<Told>, Refusal>,
    pub slips: Vec<Slip>,
}

// The slips that an answer counts; a refusal counts none.
fn written(answer: &Result<Answer<Told>, Refusal>) -> usize
    ensures { result ≡ slips_counted (by_number answer.now) }
{
    match answer {
        Ok(accepted) => accepted.slips,
        Err(_) => 0,
    }
}

// Works a call, and copies the slips that its answer counts.
fn enter_line<T: Table>(
    heap: Global,
    session: &mut Session<T>,
    call: Call,
    run: &mut [Slip],
) -> Result<Entry, AllocError>
    ensures follows { IfOk result (λ e. Follows session.old call (length run.old) e session.new) }
    ensures run { IfOk result (λ e. run.new ≡ written_into run.old e.slips.items) }
{
    let answer = session.work(call, run);
    let slips = Vec::from_slice(heap, &run[..written(&answer)])?;
    Ok(Entry {
        call,
        room: run.len(),
        answer,
        slips,
    })
}

/// Starts a session over the table and works the calls in turn, each over the whole run. Every
/// entry of the journal is lawful against the ledger of the entries before it.
///
/// Errors: there is no memory. The session is then gone, and what its calls wrote stands in the run.
pub fn work_all<T: Table>(
    heap: Global,
    terms: Terms,
    table: T,
    calls: &[Call],
    run: &mut [Slip],
) -> Result<(Vec<Entry>, Session<T>), AllocError>
where
    T: Drop,
    ensures journal { IfOk result (λ r.
        Journaled terms (T.Table.contents table).capacity calls.now (length run.old)
        r.0.items r.1) }
    ensures run { IfOk result (λ r. run.new ≡ run_through run.old r.0.items) }
    ensures empty { length calls.now ≡ 0 → IsOk result }
{
    let mut session = Session::start(terms, table);
    let mut journal = Vec::with_capacity(heap, calls.len())?;
    for call in calls {
        let entry = enter_line(heap, &mut session, *call, run)?;
        journal.push_reserved(entry);
    }
    Ok((journal, session))
}
