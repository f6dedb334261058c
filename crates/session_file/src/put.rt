// Lines put at the end of the output. Where memory is wanting, a part of a line may stand there.
ghost use Rattle.std.specs.Prelude.{◌≡◌, ◌++◌, OnOk};
ghost use Rattle.std.specs.List.{flat_map};
ghost use Rattle.std.specs.String.{string_bytes};
ghost use Rattle.session_file.specs.Output.{line as line_of};
ghost use Rattle.market.specs.Journaled.{verdict_of};
ghost use Rattle.session_file.specs.Answered.{line_text, slip_text, verdict_text};
ghost use Rattle.session_file.specs.Gathered.{entry_text};

use crate::output::OutputLine;
use book::answer::{Answer, Told};
use book::slip::Slip;
use market::journal::Entry;
use rules::refusal::Refusal;
use std::alloc::AllocError;

/// One line, with its end.
pub fn put_line(out: &mut String, line: OutputLine) -> Result<(), AllocError>
    ensures { OnOk result
        (string_bytes out.new ≡ string_bytes out.old ++ line_text (line_of line)) }
{
    writeln!(out, "{line}").map_err(|_| AllocError)
}

fn put_slips(out: &mut String, slips: &[Slip]) -> Result<(), AllocError>
    ensures { OnOk result
        (string_bytes out.new ≡ string_bytes out.old ++ flat_map slip_text slips.now) }
{
    for slip in slips {
        put_line(out, OutputLine::from(*slip))?;
    }
    Ok(())
}

/// What a call came to: its answer and its slips, or its refusal.
pub fn put_call(
    out: &mut String,
    answer: &Result<Answer<Told>, Refusal>,
    slips: &[Slip],
) -> Result<(), AllocError>
    ensures { OnOk result
        (string_bytes out.new ≡ string_bytes out.old
        ++ verdict_text (verdict_of answer.now slips.now)) }
{
    match answer {
        Ok(answer) => {
            put_line(out, OutputLine::from(*answer))?;
            put_slips(out, slips)
        }
        Err(refusal) => put_line(out, OutputLine::from(*refusal)),
    }
}

/// Each call that was worked, and its slips.
pub fn put_journal(out: &mut String, journal: &[Entry]) -> Result<(), AllocError>
    ensures { OnOk result
        (string_bytes out.new ≡ string_bytes out.old ++ flat_map entry_text journal.now) }
{
    for entry in journal {
        put_call(out, &entry.answer, &entry.slips)?;
    }
    Ok(())
}
