ghost use Rattle.clockplan.specs.Verdicts.{grants, is_granted};
ghost use Rattle.delay_file.specs.Files.{view_meaning};
ghost use Rattle.plan_file.specs.Checks.{IsLegal, IsReady};
ghost use Rattle.plan_file.specs.Draft.{draft_answer};
ghost use Rattle.std.specs.Prelude.{◌≡◌, ◌↔◌, IfOk, IsTrue};

use crate::commands::{Outcome, Paths};
use crate::options::read_check_options;
use crate::planned::{Planned, with_planned};
use crate::problem::tell_problem;
use crate::refused::tell_refused;
use plan_file::checked::{self, RefusedDraft};
use std::alloc::Global;
use std::fmt::Write;
use timing::domain::FREE;
use timing::limits::MAX_REGISTERS;

// Says whether a plan is legal for a delay file, under a ceiling and pins; else what it breaks first.
pub(crate) fn check(
    rt: &HostRuntime,
    paths: Paths<'_>,
    options: &[&str],
) -> anyhow::Result<Outcome> {
    with_planned(
        rt,
        paths,
        |planned, out| judge(rt.alloc(), paths, planned, options, out),
    )
}

// Reads the options and puts the plan through the check.
fn judge(
    heap: Global,
    paths: Paths<'_>,
    planned: Planned<'_>,
    options: &[&str],
    out: &mut String,
) -> anyhow::Result<Outcome> {
    let mut pins = vec![in heap; FREE; MAX_REGISTERS as usize]?;
    match read_check_options(&planned.view, paths.file, options, &mut pins) {
        Ok(ceiling) => tell_judgement(planned, &pins, ceiling, out),
        Err(problem) => tell_problem(problem, out),
    }
}

// Says whether a plan is legal. It is granted exactly where the check passes it.
fn tell_judgement(
    planned: Planned<'_>,
    pins: &[u8],
    ceiling: u32,
    out: &mut String,
) -> anyhow::Result<Outcome>
    ensures answer { IfOk result (λ o. is_granted o ≡ grants (draft_answer (view_meaning planned.entry.view) pins.now ceiling planned.entry.draft)) }
    ensures legal { IfOk result (λ o. IsReady (view_meaning planned.entry.view) pins.now ceiling planned.entry.draft → (IsTrue (is_granted o) ↔ IsLegal (view_meaning planned.entry.view) pins.now ceiling planned.entry.draft)) }
{
    let Planned { file, view, draft } = planned;
    match checked::check(&view, pins, ceiling, draft) {
        Ok(_) => {
            writeln!(out, "legal")?;
            Ok(Outcome::Granted)
        }
        Err(RefusedDraft { refusal, draft }) => {
            tell_refused(&Planned { file, view, draft }, ceiling, refusal, out)?;
            Ok(Outcome::Refused)
        }
    }
}
