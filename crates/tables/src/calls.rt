// A table's calls as values, so that a list of them can be worked on any table.
ghost use Rattle.std.specs.Prelude.{◌≡◌, IfOk, MatchResult, OnOk};
ghost use Rattle.tables.specs.Calls.{reply, after as after_call, replies, all_after};
ghost use Rattle.tables.specs.Meaning.{cleared};

use crate::table::{No, Table};
use rules::order::{Direction, Order};
use std::alloc::{AllocError, Global};

/// Values and no closures: a list of them is printed beside its answers, and the law below is over any such list.
#[derive(Clone, Copy)]
pub enum Call {
    Clear,
    At { direction: Direction, rank: usize },
    Count { direction: Direction },
    Places,
    Find { number: u32 },
    Add { order: Order },
    SetVolume { number: u32, volume: u32 },
    Remove { number: u32 },
}

/// What a call answers: yes or no, a count, or an order.
#[derive(Clone, Copy)]
pub enum Reply {
    Answered(Result<(), No>),
    Counted(usize),
    Found(Option<Order>),
}

/// Works one call.
pub fn work<T: Table>(table: &mut T, call: Call) -> Reply
    ensures answer { result ≡ reply (T.Table.contents table.old) call }
    ensures after { T.Table.contents table.new ≡ after_call (T.Table.contents table.old) call }
{
    match call {
        Call::Clear => {
            table.clear();
            Reply::Answered(Ok(()))
        }
        Call::At { direction, rank } => Reply::Found(table.at(direction, rank)),
        Call::Count { direction } => Reply::Counted(table.count(direction)),
        Call::Places => Reply::Counted(table.places()),
        Call::Find { number } => Reply::Found(table.find(number)),
        Call::Add { order } => Reply::Answered(table.add(order)),
        Call::SetVolume { number, volume } => Reply::Answered(table.set_volume(number, volume)),
        Call::Remove { number } => Reply::Answered(table.remove(number)),
    }
}

/// Clears a table, and works the calls on it in turn. Where memory is wanting, the table is left as it was.
pub fn replay<T: Table>(
    heap: Global,
    table: &mut T,
    calls: &[Call],
) -> Result<Vec<Reply>, AllocError>
    ensures answers { IfOk result
        (λ v. v.items ≡ replies (cleared (T.Table.contents table.old)) calls.now) }
    ensures room { (T.Table.contents table.new).capacity ≡ (T.Table.contents table.old).capacity }
    ensures after { MatchResult result
        (λ _. T.Table.contents table.new
        ≡ all_after (cleared (T.Table.contents table.old)) calls.now)
        (λ _. T.Table.contents table.new ≡ T.Table.contents table.old) }
{
    let mut given = Vec::with_capacity(heap, calls.len())?;
    table.clear();
    for call in calls {
        given.push_reserved(work(table, *call));
    }
    Ok(given)
}

/// Replays the calls on two tables. Tables of equal capacity give equal answers, so that either can stand for the other.
pub fn replay_both<A: Table, B: Table>(
    heap: Global,
    one: &mut A,
    other: &mut B,
    calls: &[Call],
) -> Result<(Vec<Reply>, Vec<Reply>), AllocError>
    ensures answers { IfOk result
        (λ p. (p.0.items ≡ replies (cleared (A.Table.contents one.old)) calls.now)
        × (p.1.items ≡ replies (cleared (B.Table.contents other.old)) calls.now)) }
    ensures after { OnOk result
        ((A.Table.contents one.new ≡ all_after (cleared (A.Table.contents one.old)) calls.now)
        × (B.Table.contents other.new
        ≡ all_after (cleared (B.Table.contents other.old)) calls.now)) }
    ensures room { ((A.Table.contents one.new).capacity ≡ (A.Table.contents one.old).capacity)
        × ((B.Table.contents other.new).capacity ≡ (B.Table.contents other.old).capacity) }
    ensures equal { (A.Table.contents one.old).capacity ≡ (B.Table.contents other.old).capacity
        → IfOk result (λ p. p.0.items ≡ p.1.items) }
{
    let first = replay(heap, one, calls)?;
    let second = replay(heap, other, calls)?;
    Ok((first, second))
}
