//! What is printed and written of a solution and the rotations of its plan.
ghost use Rattle.std.specs.Prelude.{◌≡◌, ◌++◌, [], ◌∷◌, IfOk, IsOkAnd};
ghost use Rattle.dual_bound.specs.OfTables.{IsOfTables};
ghost use Rattle.dual_bound.specs.Solved.{PlanFits, tree_of};
ghost use Rattle.folder_answers.specs.Solution.{printed_text, solved_files, solved_status};
ghost use Rattle.euler_rotation.specs.FleetRotations.{AreRotations};

use crate::answer::FileText;
use crate::status::{DONE, GAP, INFEASIBLE, UNSETTLED};
use bound_cert::write_proof;
use dual_bound::Solved;
use entries::{Entries, NoMemory};
use euler_rotation::FleetRotation;
use fleet_model::Tables;
use plan_desk::DeskFile;
use plan_report::{summary, summary_json};
use plan_text::write_plan;
use rotation_report::rotation_csv;
use std::alloc::Global;

/// The exit status of a solution.
pub fn status_of(solved: &Solved) -> u8
    ensures { result ≡ solved_status solved.now }
{
    match solved {
        Solved::Planned { tree, .. } if tree.has_open() => GAP,
        Solved::Planned { .. } => DONE,
        Solved::Infeasible { .. } => INFEASIBLE,
        Solved::Unsettled { .. } => UNSETTLED,
    }
}

/// What is printed of a solution: the summary in lines, or as JSON.
pub fn printed_text(
    alloc: Global,
    tables: &Tables,
    json: bool,
    solved: &Solved,
    rotations: &[FleetRotation],
) -> Result<Vec<u8>, NoMemory>
    requires plan { PlanFits tables.now solved.now }
    requires rotations { AreRotations tables.now rotations.now }
    ensures { IfOk result (λ text. text.items ≡ printed_text tables.now json solved.now rotations.now) }
{
    if json {
        summary_json(alloc, tables, solved, rotations)
    } else {
        summary(alloc, tables, solved, rotations)
    }
}

/// The files that are written of a solution, in their order. Its rotations are of the tables that are shown.
#[tactic(auto, unfolding(crate::specs::Solution::solved_files))]
pub fn solved_files(
    alloc: Global,
    tables: &Tables,
    shown: &Tables,
    solved: &Solved,
    rotations: &[FleetRotation],
    visits: u32,
) -> Result<Vec<FileText>, NoMemory>
    requires plan { PlanFits tables.now solved.now }
    requires tree { IsOfTables tables.now (tree_of solved.now) }
    requires rotations { AreRotations shown.now rotations.now }
    ensures { IfOk result (λ files. files.items ≡ solved_files tables.now shown.now solved.now rotations.now visits) }
{
    let files = match solved {
        Solved::Planned {
            assignment,
            tree,
            ..
        } => {
            let text = write_plan(alloc, tables, assignment);
            let files = with_file(Ok(Vec::new(alloc)), DeskFile::Plan, text);
            let text = write_proof(alloc, tables, true, tree);
            with_file(files, DeskFile::Proof, text)
        }
        Solved::Infeasible { tree } | Solved::Unsettled { tree, .. } => {
            let text = write_proof(alloc, tables, false, tree);
            with_file(Ok(Vec::new(alloc)), DeskFile::Proof, text)
        }
    };
    let text = rotation_csv(alloc, shown, rotations, u64::from(visits));
    with_file(files, DeskFile::Rotation, text)
}

/// The files, and one of this text behind them, where there was memory for all.
pub fn with_file(
    files: Result<Vec<FileText>, NoMemory>,
    file: DeskFile,
    text: Result<Vec<u8>, NoMemory>,
) -> Result<Vec<FileText>, NoMemory>
    ensures { IfOk result (λ all. IsOkAnd files (λ old. IsOkAnd text (λ new. all.items ≡ old.items ++ record { file = file; bytes = new.items } ∷ []))) }
{
    let mut files = files?;
    files.push(FileText {
        file,
        bytes: Entries::from_vec(text?),
    })?;
    Ok(files)
}
