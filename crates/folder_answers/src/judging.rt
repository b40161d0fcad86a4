//! The command `judge`: the verdict on the plan of a folder.
ghost use Rattle.std.specs.Prelude.{◌≡◌, IfOk};
ghost use Rattle.fleet_model.specs.Legal.{IsAssignment};
ghost use Rattle.folder_answers.specs.Commands.{JudgesOn};
ghost use Rattle.folder_answers.specs.Halted.{EitherWay};
ghost use Rattle.folder_answers.specs.Refusals.{says, verdict_status};
ghost use Rattle.folder_answers.specs.Texts.{verdict_text};
ghost use Rattle.plan_judge.specs.Verdicts.{IsVerdict};

use crate::answer::Answer;
use crate::halting::Halt;
use crate::reading::plan_of;
use crate::status::{DONE, REFUSED};
use crate::texts::verdict_lines;
use entries::NoMemory;
use fleet_model::{Assignment, Tables};
use plan_judge::{Verdict, judge};
use std::alloc::Global;

/// Judges a plan by its bytes.
pub fn judge_on(alloc: Global, tables: &Tables, bytes: &[u8]) -> Result<Answer, Halt>
    ensures { EitherWay result (JudgesOn bytes.now tables.now) }
{
    let plan = plan_of(alloc, tables, bytes)?;
    Ok(tell_verdict(alloc, tables, &plan, judge(tables, &plan))?)
}

/// Tells the verdict on a plan.
pub fn tell_verdict(
    alloc: Global,
    tables: &Tables,
    plan: &Assignment,
    verdict: Verdict,
) -> Result<Answer, NoMemory>
    requires plan { IsAssignment tables.now plan.now }
    requires verdict { IsVerdict tables.now plan.now verdict }
    ensures { IfOk result (λ answer. answer ≡ says (verdict_status verdict) (verdict_text tables.now plan.now verdict)) }
{
    let text = verdict_lines(alloc, tables, plan, verdict)?;
    Ok(Answer::says(alloc, status_of(verdict), text))
}

/// The status of a verdict.
fn status_of(verdict: Verdict) -> u8
    ensures { result ≡ verdict_status verdict }
{
    match verdict {
        Verdict::Legal { .. } => DONE,
        Verdict::NotAllowed { .. }
        | Verdict::Unbalanced { .. }
        | Verdict::TooMany { .. }
        | Verdict::Crowded { .. } => REFUSED,
    }
}
