//! The summary of a solution and its rotations, in lines.
ghost use Rattle.std.specs.Prelude.{◌≡◌, ◌++◌, ◌<◌, [], ◌∷◌, IfOk, OnOk, codes, length};
ghost use Rattle.dual_bound.specs.Solved.{PlanFits, plan_cost};
ghost use Rattle.euler_rotation.specs.FleetRotations.{AreRotations};
ghost use Rattle.plan_report.specs.Summary.{count_lines, outcome_word, plan_lines, printed_bound, result_lines, rotation_line, rotation_lines, summary_text};
ghost use Rattle.printed_lines.specs.Lines.{line_of};
ghost use Rattle.rotation_report.specs.TextLines.{number_word};

use dual_bound::{Solved, TreeCounts};
use entries::NoMemory;
use euler_rotation::FleetRotation;
use fleet_model::Tables;
use printed_lines::{Piece, push_line};
use rotation_report::rotation_words;
use rotation_report::text_lines::push_fleets;
use std::alloc::Global;

/// The summary of a solution and its rotations: how the search ended, cost, bound, splits and open leaves, and where there
/// is a plan the aircraft and the rotation of each fleet.
pub fn summary(
    alloc: Global,
    tables: &Tables,
    solved: &Solved,
    rotations: &[FleetRotation],
) -> Result<Vec<u8>, NoMemory>
    requires plan { PlanFits tables.now solved.now }
    requires rotations { AreRotations tables.now rotations.now }
    ensures { IfOk result (λ text. text.items ≡ summary_text tables.now solved.now rotations.now) }
{
    let mut text = Vec::new(alloc);
    push_summary(alloc, &mut text, tables, solved, rotations)?;
    Ok(text)
}

/// Appends the summary.
fn push_summary(
    alloc: Global,
    text: &mut Vec<u8>,
    tables: &Tables,
    solved: &Solved,
    rotations: &[FleetRotation],
) -> Result<(), NoMemory>
    requires plan { PlanFits tables.now solved.now }
    requires rotations { AreRotations tables.now rotations.now }
    ensures { OnOk result (text.new.items ≡ text.old.items ++ summary_text tables.now solved.now rotations.now) }
{
    push_result(alloc, text, solved)?;
    push_counts(alloc, text, solved.tree().counts())?;
    push_plan(alloc, text, tables, solved, rotations)
}

/// Appends the lines of the fleets and of their rotations, where there is a plan.
fn push_plan(
    alloc: Global,
    text: &mut Vec<u8>,
    tables: &Tables,
    solved: &Solved,
    rotations: &[FleetRotation],
) -> Result<(), NoMemory>
    requires plan { PlanFits tables.now solved.now }
    requires rotations { AreRotations tables.now rotations.now }
    ensures { OnOk result (text.new.items ≡ text.old.items ++ plan_lines tables.now solved.now rotations.now) }
{
    match solved {
        Solved::Planned { assignment, .. } => {
            push_fleets(alloc, text, tables, assignment)?;
            push_rotations(alloc, text, tables, rotations)
        }
        Solved::Infeasible { .. } | Solved::Unsettled { .. } => Ok(()),
    }
}

/// Appends the lines of outcome, cost and bound.
fn push_result(alloc: Global, text: &mut Vec<u8>, solved: &Solved) -> Result<(), NoMemory>
    ensures { OnOk result (text.new.items ≡ text.old.items ++ result_lines solved.now) }
{
    let word = outcome(solved);
    push_line(
        alloc,
        text,
        &[Piece::Text(b"outcome: "), Piece::Text(word.as_bytes())],
    )?;
    push_number(alloc, text, b"cost: ", cost_of(solved))?;
    push_number(alloc, text, b"bound: ", bound_of(solved))
}

/// How the search ended, in a word.
pub fn outcome(solved: &Solved) -> &'static str
    ensures { result.now ≡ outcome_word solved.now }
{
    match solved {
        Solved::Planned { tree, .. } if tree.has_open() => "gap",
        Solved::Planned { .. } => "optimal",
        Solved::Infeasible { .. } => "infeasible",
        Solved::Unsettled { .. } => "unsettled",
    }
}

/// The cost of the plan, where there is one.
pub(crate) fn cost_of(solved: &Solved) -> Option<i128>
    ensures { result ≡ plan_cost solved.now }
{
    match solved {
        Solved::Planned { cost, .. } => Some(*cost),
        Solved::Infeasible { .. } | Solved::Unsettled { .. } => None,
    }
}

/// The bound, where something may be legal.
pub(crate) fn bound_of(solved: &Solved) -> Option<i128>
    ensures { result ≡ printed_bound solved.now }
{
    match solved {
        Solved::Planned { bound, .. } | Solved::Unsettled { bound, .. } => Some(*bound),
        Solved::Infeasible { .. } => None,
    }
}

/// Appends a word and a number, or `none`.
fn push_number(
    alloc: Global,
    text: &mut Vec<u8>,
    word: &[u8],
    number: Option<i128>,
) -> Result<(), NoMemory>
    ensures { OnOk result (text.new.items ≡ text.old.items ++ line_of (word.now ∷ number_word number ∷ [])) }
{
    let number = match number {
        Some(number) => Piece::Number(number),
        None => Piece::Text(b"none"),
    };
    push_line(alloc, text, &[Piece::Text(word), number])
}

/// Appends the lines of the splits and of the open leaves.
fn push_counts(alloc: Global, text: &mut Vec<u8>, counts: TreeCounts) -> Result<(), NoMemory>
    ensures { OnOk result (text.new.items ≡ text.old.items ++ count_lines counts) }
{
    push_line(
        alloc,
        text,
        &[Piece::Text(b"splits: "), Piece::Count(counts.splits)],
    )?;
    push_line(
        alloc,
        text,
        &[
            Piece::Text(b"open: "),
            Piece::Count(counts.open_nodes),
            Piece::Text(b" nodes, "),
            Piece::Count(counts.open_pivots),
            Piece::Text(b" pivots, "),
            Piece::Count(counts.open_grew),
            Piece::Text(b" grew"),
        ],
    )
}

/// Appends the line `rotation F: A` of each rotation.
fn push_rotations(
    alloc: Global,
    text: &mut Vec<u8>,
    tables: &Tables,
    rotations: &[FleetRotation],
) -> Result<(), NoMemory>
    requires { AreRotations tables.now rotations.now }
    ensures { OnOk result (text.new.items ≡ text.old.items ++ rotation_lines tables.now rotations.now (length rotations.now)) }
{
    for fleet in 0..rotations.len() as u32 {
        push_rotation(alloc, text, tables, rotations, fleet)?;
    }
    Ok(())
}

/// Appends `rotation F: A`.
fn push_rotation(
    alloc: Global,
    text: &mut Vec<u8>,
    tables: &Tables,
    rotations: &[FleetRotation],
    fleet: u32,
) -> Result<(), NoMemory>
    requires rotations { AreRotations tables.now rotations.now }
    requires fleet { fleet < length rotations.now }
    ensures { OnOk result (text.new.items ≡ text.old.items ++ rotation_line tables.now rotations.now fleet) }
{
    let words = rotation_words(alloc, tables, &rotations[fleet as usize])?;
    push_line(
        alloc,
        text,
        &[
            Piece::Text(b"rotation "),
            Piece::Text(tables.fleet(fleet).name.as_slice()),
            Piece::Text(b": "),
            Piece::Text(words.as_bytes()),
        ],
    )
}
