//! A solution by texts that a hint wrote.
ghost use Rattle.std.specs.Prelude.{IfOk, IfSome, ◌<◌, ◌-◌, ◌^◌};
ghost use Rattle.fleet_model.specs.Legal.{IsAssignment};
ghost use Rattle.plan_judge.specs.LegalPlans.{IsLegalPlan};
ghost use Rattle.branch_bound.specs.hinted_trees.FreeTrees.{IsFreelySolved};
ghost use Rattle.branch_bound.specs.hinted_trees.Parts.{IsTreeWritten};

use crate::hinted_trees::answering::are_answered;
use crate::hinted_trees::settling::{cost_of, settled};
use crate::hinted_trees::spending::spends_splits;
use bound_cert::{CertError, Proof, read_proof};
use cert_check::{Checked, check_with_cost};
use dual_bound::{Solved, Tree};
use entries::NoMemory;
use fleet_model::{Assignment, Tables};
use plan_judge::{LegalPlan, Verdict, judge};
use plan_text::{PlanError, read_plan};
use std::alloc::Global;

/// The solution of tables that the text of a proof says, with that of the plan where the proof says that one comes with it.
/// The texts are a hint and trusted in nothing: they are read and judged as those of a folder. None where one of them has a
/// fault, the plan isn't legal or the proof doesn't hold; where the tree has more than so many splits, or an open leaf though
/// fewer were made, or one that is open for anything else; where a sole leaf holds a cheaper plan, or the bound of an open one
/// reaches the plan's cost; and where the bound and the plan don't go together.
pub fn solved_by_texts(
    alloc: Global,
    tables: &Tables,
    nodes: u64,
    plan: &[u8],
    proof: &[u8],
) -> Result<Option<Solved>, NoMemory>
    requires { nodes < 2 ^ 64 - 1 }
    ensures { IfOk result (λ found. IfSome found (IsFreelySolved tables.now nodes)) }
{
    match read_proof(alloc, tables, proof) {
        Ok(read) => solved_by_proof(alloc, tables, nodes, plan, read),
        Err(CertError::Fault(_)) => Ok(None),
        Err(CertError::NoMemory) => Err(NoMemory),
    }
}

/// The solution that a proof says, by the text of the plan.
fn solved_by_proof(
    alloc: Global,
    tables: &Tables,
    nodes: u64,
    plan: &[u8],
    proof: Proof,
) -> Result<Option<Solved>, NoMemory>
    requires few { nodes < 2 ^ 64 - 1 }
    requires written { IsTreeWritten tables.now proof.tree }
    ensures { IfOk result (λ found. IfSome found (IsFreelySolved tables.now nodes)) }
{
    if !proof.planned {
        return Ok(solved_by_tree(tables, nodes, None, proof.tree));
    }
    match read_plan(alloc, tables, plan) {
        Ok(assignment) => Ok(solved_by_plan(tables, nodes, assignment, proof.tree)),
        Err(PlanError::Fault(_)) => Ok(None),
        Err(PlanError::NoMemory) => Err(NoMemory),
    }
}

/// The solution of a tree that comes with a plan, where the plan is legal. Takes no memory.
fn solved_by_plan(tables: &Tables, nodes: u64, assignment: Assignment, tree: Tree) -> Option<Solved>
    requires few { nodes < 2 ^ 64 - 1 }
    requires plan { IsAssignment tables.now assignment }
    requires written { IsTreeWritten tables.now tree }
    ensures { IfSome result (IsFreelySolved tables.now nodes) }
{
    match judge(tables, &assignment) {
        Verdict::Legal { cost } => {
            let plan = LegalPlan { assignment, cost };
            solved_by_tree(tables, nodes, Some(plan), tree)
        }
        _ => None,
    }
}

/// The solution of a tree that comes with a plan or with none. Takes no memory.
fn solved_by_tree(
    tables: &Tables,
    nodes: u64,
    best: Option<LegalPlan>,
    tree: Tree,
) -> Option<Solved>
    requires few { nodes < 2 ^ 64 - 1 }
    requires plan { IfSome best (IsLegalPlan tables.now) }
    requires written { IsTreeWritten tables.now tree }
    ensures { IfSome result (IsFreelySolved tables.now nodes) }
{
    let cost = cost_of(&best);
    match check_with_cost(tables, cost, &tree) {
        Checked::Holds { bound } => {
            if spends_splits(&tree, nodes) && are_answered(tables, cost, &tree) {
                settled(best, bound, tree)
            } else {
                None
            }
        }
        Checked::Broken { .. } => None,
    }
}
