//! The answer of a solution, with the rotations of its plan.
ghost use Rattle.std.specs.Prelude.{◌≡◌, IfOk};
ghost use Rattle.command_words.specs.Arguments.{AreOptions};
ghost use Rattle.dual_bound.specs.OfTables.{IsOfTables};
ghost use Rattle.dual_bound.specs.Solved.{PlanFits, tree_of};
ghost use Rattle.euler_rotation.specs.FleetRotations.{AreRotations};
ghost use Rattle.fleet_model.specs.Legal.{IsLegal};
ghost use Rattle.fleet_model.specs.Plain.{IsPlain};
ghost use Rattle.fleet_model.specs.Schedule.{fleets_in, legs_in};
ghost use Rattle.folder_answers.specs.Skeletons.{OnShown};
ghost use Rattle.folder_answers.specs.Solution.{ShowsRotations, solved_answer};
ghost use Rattle.sched_read.specs.retime_windows.Settled.{CanSettle};

use crate::answer::Answer;
use crate::solution::{printed_text, solved_files, status_of};
use crate::status::Status;
use command_words::SolveOptions;
use dual_bound::Solved;
use entries::{Entries, NoMemory};
use euler_rotation::FleetRotation;
use fleet_model::{Assignment, Tables};
use plan_rotations::rotations;
use sched_read::retime_windows::settle;
use std::alloc::Global;

/// The answer of a solution with this plan, and the plan's rotations.
pub fn planned_on(
    alloc: Global,
    tables: &Tables,
    options: SolveOptions,
    solved: &Solved,
    plan: &Assignment,
) -> Result<Answer, NoMemory>
    requires settles { CanSettle tables.now }
    requires options { AreOptions options }
    requires legal { IsLegal tables.now plan.now }
    requires plan { PlanFits tables.now solved.now }
    requires tree { IsOfTables tables.now (tree_of solved.now) }
    ensures { IfOk result (OnShown tables.now (ShowsRotations options tables.now solved.now) plan.now) }
{
    let shown = settle(alloc, tables, plan)?;
    rotated_on(alloc, tables, options, solved, &shown.tables, &shown.plan)
}

/// The answer of a solution, and the rotations of its plan on tables in which each leg departs when the plan says.
fn rotated_on(
    alloc: Global,
    tables: &Tables,
    options: SolveOptions,
    solved: &Solved,
    shown: &Tables,
    flown: &Assignment,
) -> Result<Answer, NoMemory>
    requires options { AreOptions options }
    requires plan { PlanFits tables.now solved.now }
    requires tree { IsOfTables tables.now (tree_of solved.now) }
    requires legs { legs_in shown.now ≡ legs_in tables.now }
    requires fleets { fleets_in shown.now ≡ fleets_in tables.now }
    requires plain { IsPlain shown.now }
    requires legal { IsLegal shown.now flown.now }
    ensures { IfOk result (ShowsRotations options tables.now solved.now shown.now flown.now) }
{
    let limits = options.rotations;
    let made = rotations(alloc, shown, flown, limits.days, limits.visits)?;
    answer_of(alloc, tables, shown, options, solved, made.as_slice())
}

/// The answer of a solution and its rotations, which are of the tables that are shown.
pub fn answer_of(
    alloc: Global,
    tables: &Tables,
    shown: &Tables,
    options: SolveOptions,
    solved: &Solved,
    rotations: &[FleetRotation],
) -> Result<Answer, NoMemory>
    requires plan { PlanFits tables.now solved.now }
    requires tree { IsOfTables tables.now (tree_of solved.now) }
    requires rotations { AreRotations tables.now rotations.now }
    requires shown { AreRotations shown.now rotations.now }
    ensures { IfOk result (λ answer. answer ≡ solved_answer tables.now shown.now options solved.now rotations.now) }
{
    let text = printed_text(alloc, tables, options.json, solved, rotations)?;
    let files = solved_files(
        alloc,
        tables,
        shown,
        solved,
        rotations,
        options.rotations.visits,
    )?;
    Ok(Answer {
        status: Status {
            code: status_of(solved),
        },
        text: Entries::from_vec(text),
        files: Entries::from_vec(files),
    })
}
