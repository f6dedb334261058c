// Files worked over tables, and what comes of them against the texts that they are to give.
ghost use Rattle.std.specs.Prelude.{◌≡◌, IfOk};
ghost use Rattle.std.specs.String.{string_bytes};
ghost use Rattle.tables.specs.Run.{run_capacity};
ghost use Rattle.session_file.specs.Answered.{file_text};
ghost use Rattle.session_cases.specs.Cases.{judged};

use crate::case::{Case, Over};
use book::slip::Slip;
use report::verdict::{Verdict, agreement};
use rules::order::{Direction, Order};
use session_file::answer::answer_file;
use std::alloc::{AllocError, Global};
use tables::queue::Queue;
use tables::slots::Slots;

/// What stands in a place before it is written.
pub fn no_order() -> Order {
    Order::limit(0, 0, Direction::Buy, 0, 0)
}

pub const NO_SLIP: Slip = Slip::Lapse {
    number: 0,
    volume: 0,
};

fn over_queue(heap: Global, places: usize, room: usize, file: &[u8]) -> Result<String, AllocError>
    ensures { IfOk result
        (λ text. string_bytes text ≡ file_text (run_capacity places) room file.now) }
{
    let mut orders = vec![in heap; no_order(); places]?;
    let run = vec![in heap; NO_SLIP; room]?;
    answer_file(heap, file, Queue::new(&mut orders), run)
}

fn over_slots(heap: Global, room: usize, file: &[u8]) -> Result<String, AllocError>
    ensures { IfOk result (λ text. string_bytes text ≡ file_text (run_capacity 64) room file.now) }
{
    let run = vec![in heap; NO_SLIP; room]?;
    answer_file(heap, file, Slots::new(heap)?, run)
}

/// Whether each of the tables gives the text.
pub fn judge(heap: Global, case: &Case) -> Result<Verdict, AllocError>
    ensures { IfOk result (λ v. v ≡ judged case.now) }
{
    let places = match case.over {
        Over::Queue(places) => places,
        Over::QueueAndSlots => 64,
    };
    let given = over_queue(heap, places, case.room, &case.file)?;
    let verdict = agreement(&given.into_bytes(), &case.text);
    match (case.over, verdict) {
        (Over::QueueAndSlots, Verdict::Agrees) => {
            let given = over_slots(heap, case.room, &case.file)?;
            Ok(agreement(&given.into_bytes(), &case.text))
        }
        _ => Ok(verdict),
    }
}
