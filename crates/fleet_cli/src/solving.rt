//! The commands `solve` and `make`: a plan for tables, with a bound and its proof, and the rotations of the plan.
ghost use Rattle.std.specs.Prelude.{◌≡◌, IfOk};
ghost use Rattle.command_words.specs.Arguments.{AreOptions};
ghost use Rattle.command_words.specs.declared.command.TheConstants.{DEFAULT_OPTIONS, DEFAULT_READING};
ghost use Rattle.fleet_cli.specs.Answer.{GivesSolution, Makes};
ghost use Rattle.folder_answers.specs.Contents.{five_alone};
ghost use Rattle.folder_answers.specs.Skeletons.{TablesRead};
ghost use Rattle.sched_read.specs.retime_windows.Settled.{CanSettle};
ghost use Rattle.table_maker.specs.Laws.{made_bytes};
ghost use Rattle.table_maker.specs.Made.{CanBeMade, made_tables};

use crate::plan_search::solved_by;
use command_words::{DEFAULT_OPTIONS, SolveOptions};
use dual_bound::Solved;
use entries::NoMemory;
use fleet_model::Tables;
use folder_answers::{Answer, after_tables, answer_of, load_made, planned_on};
use std::alloc::Global;
use table_maker::{MadeTables, make_tables};

/// Solves tables.
pub fn solve_on(alloc: Global, tables: &Tables, options: SolveOptions) -> Result<Answer, NoMemory>
    requires settles { CanSettle tables.now }
    requires options { AreOptions options }
    ensures { IfOk result (GivesSolution options tables.now) }
{
    let solved = solved_by(alloc, tables, options.way, options.search)?;
    match &solved {
        Solved::Planned { assignment, .. } => {
            planned_on(alloc, tables, options, &solved, assignment)
        }
        Solved::Infeasible { .. } => answer_of(alloc, tables, tables, options, &solved, &[]),
        Solved::Unsettled { .. } => answer_of(alloc, tables, tables, options, &solved, &[]),
    }
}

/// Makes the tables of a number and of so many legs, and solves them by the defaults.
pub fn make_and_solve(alloc: Global, number: u32, legs: u32) -> Result<Answer, NoMemory>
    requires { CanBeMade number legs }
    ensures { IfOk result (Makes number legs) }
{
    let made = make_tables(alloc, number, legs)?;
    let solving = solve_made(alloc, number, legs, &made)?;
    after_tables(alloc, made, solving)
}

/// Solves the tables that made texts read as, by the defaults.
fn solve_made(alloc: Global, number: u32, legs: u32, made: &MadeTables) -> Result<Answer, NoMemory>
    requires can { CanBeMade number legs }
    requires made { made.now ≡ made_tables number legs }
    ensures { IfOk result (TablesRead DEFAULT_READING (five_alone (made_bytes made.now)) (GivesSolution DEFAULT_OPTIONS)) }
{
    let tables = load_made(alloc, number, legs, made)?;
    solve_on(alloc, &tables, DEFAULT_OPTIONS)
}
