//! What is asked of the proof of a folder, and the command `check`: whether the proof proves its bound, and whether the plan
//! that comes with it is legal.
ghost use Rattle.std.specs.Prelude.{◌≡◌, IfOk, true};
ghost use Rattle.dual_bound.specs.OfTables.{IsOfTables};
ghost use Rattle.folder_answers.specs.Commands.{ChecksTree, TellsProof, TellsTree, checked_status};
ghost use Rattle.folder_answers.specs.Halted.{MatchHalt};
ghost use Rattle.folder_answers.specs.Opened.{CanAsk, IsOpenedBy, IsReady};
ghost use Rattle.folder_answers.specs.Refusals.{RefusesProof};

use crate::answer::Answer;
use crate::halting::Halt;
use crate::opened::{Checking, Opened, Question};
use crate::reading::{legal_plan, proof_of};
use crate::status::{DONE, REFUSED};
use crate::texts::checked_line;
use crate::what_if::ask_tree;
use cert_check::{Checked, check_with_cost};
use dual_bound::Tree;
use entries::NoMemory;
use fleet_model::Tables;
use std::alloc::Global;

/// What a proof comes to, by its bytes and by what is asked of its tree. A plan is asked for where it reads and says that one
/// comes with it.
pub fn open_proof(
    alloc: Global,
    tables: Tables,
    asks: Question,
    bytes: &[u8],
) -> Result<Opened, Halt>
    requires { CanAsk tables asks }
    ensures { MatchHalt result (IsOpenedBy tables asks bytes.now) (RefusesProof tables bytes.now) }
{
    let proof = proof_of(alloc, &tables, bytes)?;
    if proof.planned {
        return Ok(Opened::WantsPlan(Checking {
            tables,
            proof,
            asks,
        }));
    }
    let answer = tell_tree(alloc, &tables, asks, None, &proof.tree)?;
    Ok(Opened::Answered(answer))
}

/// Tells what is asked of a proof that comes with a plan, by the plan's bytes. The plan is judged before the tree.
pub fn tell_with_plan(alloc: Global, checking: &Checking, bytes: &[u8]) -> Result<Answer, NoMemory>
    requires { IsReady checking.now }
    ensures { IfOk result (TellsProof checking.now.tables checking.now.asks true checking.now.proof.tree bytes.now) }
{
    let tables = &checking.tables;
    match legal_plan(alloc, tables, bytes) {
        Ok(plan) => tell_tree(
            alloc,
            tables,
            checking.asks,
            Some(plan.cost),
            &checking.proof.tree,
        ),
        Err(Halt::Refused(answer)) => Ok(answer),
        Err(Halt::NoMemory) => Err(NoMemory),
    }
}

/// Tells what is asked of a tree with the cost of the legal plan that comes with it, if any.
fn tell_tree(
    alloc: Global,
    tables: &Tables,
    asks: Question,
    cost: Option<i128>,
    tree: &Tree,
) -> Result<Answer, NoMemory>
    requires known { IsOfTables tables.now tree.now }
    requires can { CanAsk tables.now asks }
    ensures { IfOk result (TellsTree tables.now asks cost tree.now) }
{
    match asks {
        Question::Holds => check_tree(alloc, tables, cost, tree),
        Question::OtherSize { fleet, count } => {
            ask_tree(alloc, tables, fleet, count, cost, tree)
        }
    }
}

/// Checks a tree with the cost of the legal plan that comes with it, if any.
fn check_tree(
    alloc: Global,
    tables: &Tables,
    cost: Option<i128>,
    tree: &Tree,
) -> Result<Answer, NoMemory>
    requires { IsOfTables tables.now tree.now }
    ensures { IfOk result (ChecksTree tables.now cost tree.now) }
{
    let checked = check_with_cost(tables, cost, tree);
    let text = checked_line(alloc, cost, checked)?;
    Ok(Answer::says(alloc, status_of(checked), text))
}

/// The status of what the checker says.
fn status_of(checked: Checked) -> u8
    ensures { result ≡ checked_status checked }
{
    match checked {
        Checked::Holds { .. } => DONE,
        Checked::Broken { .. } => REFUSED,
    }
}
