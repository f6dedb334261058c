// Each case is printed with its verdict, and the verdicts are counted.
ghost use Rattle.std.specs.Prelude.{◌≡◌, OnOk};
ghost use Rattle.report.specs.Verdicts.{tally_after};
ghost use Rattle.session_cases.specs.Cases.{judged, tally_after_all};

use crate::case::Case;
use crate::worked::judge;
use report::Report;
use std::alloc::Global;

fn show<R: Print>(report: &mut Report<R>, heap: Global, case: &Case) -> anyhow::Result<()>
    ensures { OnOk result (report.new.tally ≡ tally_after (judged case.now) report.old.tally) }
{
    let v = judge(heap, case)?;
    report.tell(case.name.as_str(), v)
}

/// Works the cases in turn, and tells of each.
pub fn show_all<R: Print>(
    report: &mut Report<R>,
    heap: Global,
    cases: &[Case],
) -> anyhow::Result<()>
    ensures { OnOk result (report.new.tally ≡ tally_after_all report.old.tally cases.now) }
{
    for case in cases {
        show(report, heap, case)?;
    }
    Ok(())
}
