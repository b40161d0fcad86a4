//! The command `tails`: what each aircraft of a folder's plan flies on some dates.
ghost use Rattle.std.specs.Prelude.{IfOk};
ghost use Rattle.command_words.specs.Arguments.{AreDates, AreRotationLimits};
ghost use Rattle.command_words.specs.Words.{dates_by};
ghost use Rattle.fleet_model.specs.Legal.{IsLegal};
ghost use Rattle.fleet_model.specs.Plain.{IsPlain};
ghost use Rattle.folder_answers.specs.Commands.{TailsOn, TellsLines};
ghost use Rattle.folder_answers.specs.Halted.{EitherWay};
ghost use Rattle.sched_read.specs.retime_windows.Settled.{CanSettle};

use crate::answer::Answer;
use crate::halting::Halt;
use crate::reading::legal_plan;
use crate::status::DONE;
use command_words::{Dates, RotationLimits};
use entries::NoMemory;
use fleet_model::{Assignment, Tables};
use plan_rotations::rotations;
use rotation_report::tail_lines;
use sched_read::retime_windows::settle;
use std::alloc::Global;

/// Tells the tails of a plan by its bytes.
pub fn tails_on(
    alloc: Global,
    tables: &Tables,
    limits: RotationLimits,
    dates: &Dates,
    bytes: &[u8],
) -> Result<Answer, Halt>
    requires settles { CanSettle tables.now }
    requires limits { AreRotationLimits limits }
    requires dates { AreDates dates.now }
    ensures { EitherWay result (TailsOn limits (dates_by dates.now) bytes.now tables.now) }
{
    let plan = legal_plan(alloc, tables, bytes)?;
    let shown = settle(alloc, tables, &plan.assignment)?;
    Ok(tails_of_shown(alloc, &shown.tables, limits, dates, &shown.plan)?)
}

/// Tells the tails of a legal plan, on tables in which each leg departs when it says.
fn tails_of_shown(
    alloc: Global,
    tables: &Tables,
    limits: RotationLimits,
    dates: &Dates,
    plan: &Assignment,
) -> Result<Answer, NoMemory>
    requires plain { IsPlain tables.now }
    requires limits { AreRotationLimits limits }
    requires dates { AreDates dates.now }
    requires plan { IsLegal tables.now plan.now }
    ensures { IfOk result (TellsLines limits (dates_by dates.now) tables.now plan.now) }
{
    let made = rotations(alloc, tables, plan, limits.days, limits.visits)?;
    let text = tail_lines(
        alloc,
        tables,
        plan,
        made.as_slice(),
        dates.past,
        dates.first,
        dates.count,
    )?;
    Ok(Answer::says(alloc, DONE, text))
}
