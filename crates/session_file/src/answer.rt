// The text that a whole file is answered with.
ghost use Rattle.std.specs.Prelude.{◌≡◌, ◌++◌, IfOk, length};
ghost use Rattle.std.specs.String.{string_bytes};
ghost use Rattle.book.specs.Marks.{new_session};
ghost use Rattle.session_file.specs.Answered.{calls_text, file_text};
ghost use Rattle.session_file.specs.Broken.{BrokenInTurn};
ghost use Rattle.session_file.specs.Files.{AnsweredInTurn};
ghost use Rattle.session_file.specs.Gathered.{Gathers, calls_gathered};
ghost use Rattle.session_file.specs.Lawful.{AnsweredLawfully};
ghost use Rattle.session_file.specs.Lines.{ahead_in};
ghost use Rattle.session_file.specs.Stops.{Comes};
ghost use Rattle.session_file.specs.declared.answer.Stop.TheVariants.{Broken, Refused, OutOfMemory};

use crate::fault::Fault;
use crate::lines::Lines;
use crate::output::OutputLine;
use crate::put::{put_journal, put_line};
use book::call::Call;
use book::slip::Slip;
use market::journal::work_all;
use rules::refusal::Refusal;
use rules::terms::Terms;
use std::alloc::{AllocError, AllocFailed, Global};
use tables::table::Table;

/// Why a file is read no further.
#[derive(Clone, Copy)]
pub enum Stop {
    Broken(Fault),
    Refused(Refusal),
    OutOfMemory,
}

impl From<Fault> for Stop {
    ghost from_gives = { λ x r. r ≡ Broken x };

    fn from(x: Fault) -> Stop {
        Stop::Broken(x)
    }
}

impl From<Refusal> for Stop {
    ghost from_gives = { λ x r. r ≡ Refused x };

    fn from(x: Refusal) -> Stop {
        Stop::Refused(x)
    }
}

impl From<AllocError> for Stop {
    ghost from_gives = { λ _ r. r ≡ OutOfMemory };

    fn from(_x: AllocError) -> Stop {
        Stop::OutOfMemory
    }
}

impl From<AllocFailed<Call>> for Stop {
    ghost from_gives = { λ _ r. r ≡ OutOfMemory };

    fn from(_x: AllocFailed<Call>) -> Stop {
        Stop::OutOfMemory
    }
}

// Reads so many calls, up to the first fault.
fn read_calls(mut lines: Lines, count: u32, calls: &mut Vec<Call>) -> Result<(), Stop>
    ensures { Gathers result calls.old.items calls.new.items
        (calls_gathered count (ahead_in lines.entry)) }
{
    for _ in 0..count {
        let (call, behind) = lines.next_call()?;
        calls.push(call)?;
        lines = behind;
    }
    lines.end()?;
    Ok(())
}

// Works the calls as one list. A fault among them is told after the calls before it.
fn answer_calls<T: Table + Drop>(
    heap: Global,
    lines: Lines,
    count: u32,
    terms: Terms,
    table: T,
    run: &mut [Slip],
    out: &mut String,
) -> Result<u32, Stop>
    ensures { Comes result (string_bytes out.new)
        (string_bytes out.old
        ++ calls_text terms (length run.old) count
        (new_session (T.Table.contents table).capacity) (ahead_in lines.entry)) }
{
    let mut calls = Vec::new(heap);
    let read = read_calls(lines, count, &mut calls);
    let (journal, session) = work_all(heap, terms, table, &calls, run)?;
    put_journal(out, &journal)?;
    let reference = session.end().next_reference();
    read?;
    Ok(reference)
}

fn answer_sections<T: Table + Drop>(
    heap: Global,
    file: &[u8],
    table: T,
    run: &mut [Slip],
    out: &mut String,
) -> Result<u32, Stop>
    ensures { Comes result (string_bytes out.new)
        (string_bytes out.old
        ++ file_text (T.Table.contents table).capacity (length run.old) file.now) }
{
    let lines = Lines::new(file)?;
    let (section, lines) = lines.next_terms()?;
    let terms = Terms::new(section.reference, section.block)?;
    let (count, lines) = lines.next_number()?;
    answer_calls(heap, lines, count, terms, table, run, out)
}

/// The text that a file is answered with, over a table and a run, which are spent.
///
/// Errors: there is no memory, and so no text. A broken file or a refusal is none: it is told in the text.
pub fn answer_file<T: Table + Drop>(
    heap: Global,
    file: &[u8],
    table: T,
    mut run: Vec<Slip>,
) -> Result<String, AllocError>
    ensures in_turn { IfOk result
        (λ text. AnsweredInTurn (T.Table.contents table).capacity (length run.items) file.now
        (string_bytes text)) }
    ensures lawful { IfOk result
        (λ text. AnsweredLawfully (T.Table.contents table).capacity (length run.items) file.now
        (string_bytes text)) }
    ensures broken { IfOk result
        (λ text. BrokenInTurn (T.Table.contents table).capacity (length run.items) file.now
        (string_bytes text)) }
    ensures exact { IfOk result
        (λ text. string_bytes text
        ≡ file_text (T.Table.contents table).capacity (length run.items) file.now) }
{
    let mut out = String::new(heap);
    let last = match answer_sections(heap, file, table, &mut run, &mut out) {
        Ok(reference) => OutputLine::NextReference(reference),
        Err(Stop::Broken(fault)) => OutputLine::from(fault),
        Err(Stop::Refused(refusal)) => OutputLine::from(refusal),
        Err(Stop::OutOfMemory) => return Err(AllocError),
    };
    put_line(&mut out, last)?;
    Ok(out)
}
