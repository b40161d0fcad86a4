//! The command `due`: what each named tail of a folder flies on some dates.
ghost use Rattle.std.specs.Prelude.{◌≡◌, IfOk};
ghost use Rattle.command_words.specs.Arguments.{AreDates, AreRotationLimits};
ghost use Rattle.command_words.specs.Words.{dates_by};
ghost use Rattle.fleet_model.specs.Legal.{IsLegal};
ghost use Rattle.fleet_model.specs.Plain.{IsPlain};
ghost use Rattle.folder_answers.specs.Commands.{DueOn, DueWith, TellsStarts, due_status};
ghost use Rattle.folder_answers.specs.Halted.{EitherWay};
ghost use Rattle.sched_read.specs.retime_windows.Settled.{CanSettle};

use crate::answer::Answer;
use crate::halting::Halt;
use crate::reading::{legal_plan, tails_of};
use crate::status::{DONE, UNPLACED};
use command_words::{Dates, RotationLimits};
use due_report::{are_unplaced, due_lines, placings};
use entries::NoMemory;
use fleet_model::{Assignment, Tables};
use plan_rotations::rotations;
use sched_read::retime_windows::settle;
use std::alloc::Global;
use tail_dates::{Placed, TailState};

/// Tells what named tails fly, by the bytes of their table and of a plan.
pub fn due_on(
    alloc: Global,
    tables: &Tables,
    limits: RotationLimits,
    dates: &Dates,
    tails: &[u8],
    plan: &[u8],
) -> Result<Answer, Halt>
    requires settles { CanSettle tables.now }
    requires limits { AreRotationLimits limits }
    requires dates { AreDates dates.now }
    ensures { EitherWay result (DueOn limits (dates_by dates.now) tails.now plan.now tables.now) }
{
    let tails = tails_of(alloc, tables, tails)?;
    due_of_tails(alloc, tables, limits, dates, &tails, plan)
}

/// Tells what these tails fly, by the bytes of a plan.
fn due_of_tails(
    alloc: Global,
    tables: &Tables,
    limits: RotationLimits,
    dates: &Dates,
    tails: &[TailState],
    bytes: &[u8],
) -> Result<Answer, Halt>
    requires settles { CanSettle tables.now }
    requires limits { AreRotationLimits limits }
    requires dates { AreDates dates.now }
    ensures { EitherWay result (DueWith limits (dates_by dates.now) bytes.now tables.now tails.now) }
{
    let plan = legal_plan(alloc, tables, bytes)?;
    let shown = settle(alloc, tables, &plan.assignment)?;
    Ok(due_of_shown(alloc, &shown.tables, limits, dates, tails, &shown.plan)?)
}

/// Tells what tails fly by a legal plan, on tables in which each leg departs when it says.
fn due_of_shown(
    alloc: Global,
    tables: &Tables,
    limits: RotationLimits,
    dates: &Dates,
    tails: &[TailState],
    plan: &Assignment,
) -> Result<Answer, NoMemory>
    requires plain { IsPlain tables.now }
    requires limits { AreRotationLimits limits }
    requires dates { AreDates dates.now }
    requires plan { IsLegal tables.now plan.now }
    ensures { IfOk result (TellsStarts limits (dates_by dates.now) tails.now tables.now plan.now) }
{
    let made = rotations(alloc, tables, plan, limits.days, limits.visits)?;
    let day = dates.past % tables.day_count();
    let placed = placings(alloc, tables, plan, made.as_slice(), day, tails)?;
    let text = due_lines(
        alloc,
        tables,
        plan,
        made.as_slice(),
        tails,
        &placed,
        dates.first,
        dates.count,
    )?;
    Ok(Answer::says(alloc, status_of(&placed), text))
}

/// The status that tells whether tails are placed.
fn status_of(placed: &[Option<Placed>]) -> u8
    ensures { result ≡ due_status placed.now }
{
    if are_unplaced(placed) { UNPLACED } else { DONE }
}
