// Works the same calls on a queue and on slots of as many places, and prints what each answers; then what queues over
// runs of other lengths answer.
#![tactic(auto)]

ghost use Rattle.std.specs.Prelude.{◌≡◌, IfOk};

mod scenes;
mod shown;

use rules::order::{Direction, Order};
use shown::{Answered, Asked};
use std::alloc::{AllocError, Global};
use tables::calls::{Call, Reply, replay, replay_both};
use tables::queue::Queue;
use tables::slots::Slots;

fn blank() -> Order {
    Order::limit(0, 0, Direction::Buy, 0, 0)
}

// What the queue answers, and what the slots do. That these are equal is proved, since 64 places are 32 for each side.
fn answers(heap: Global, calls: &[Call]) -> Result<(Vec<Reply>, Vec<Reply>), AllocError>
    ensures { IfOk result (λ p. p.0.items ≡ p.1.items) }
{
    let mut run = [blank(); 64];
    let mut queue = Queue::new(&mut run);
    let mut slots = Slots::new(heap)?;
    replay_both(heap, &mut queue, &mut slots, calls)
}

// The calls, and both answers to each.
fn show(rt: HostRuntime, title: &str, calls: &[Call]) -> anyhow::Result<()> {
    let (first, second) = answers(rt.alloc(), calls)?;
    println!(rt; "{title}")?;
    for ((call, a), b) in calls.iter().zip(first.iter()).zip(second.iter()) {
        println!(rt;
            "  {}: queue {}, slots {}",
            Asked(call),
            Answered(a),
            Answered(b)
        )?;
    }
    Ok(())
}

// What a queue over a run of so many places answers.
fn show_run(rt: HostRuntime, length: usize) -> anyhow::Result<()> {
    let mut run = vec![in rt.alloc(); blank(); length]?;
    let mut queue = Queue::new(&mut run);
    let calls = scenes::room();
    let given = replay(rt.alloc(), &mut queue, &calls)?;
    println!(rt; "a queue over a run of {length}")?;
    for (call, a) in calls.iter().zip(given.iter()) {
        println!(rt; "  {}: {}", Asked(call), Answered(a))?;
    }
    Ok(())
}

fn main(rt: HostRuntime) -> anyhow::Result<()> {
    show(rt, "rank", &scenes::ranks())?;
    show(rt, "numbers", &scenes::numbers())?;
    show(rt, "volumes", &scenes::volumes())?;
    show(rt, "a full side", &scenes::full(rt.alloc())?)?;
    for length in [0, 1, 2, 5, 1023, 1024, 1026, 3000] {
        show_run(rt, length)?;
    }
    Ok(())
}
