//! The command `whatif`: what the proof of a folder says where a fleet has another number of aircraft. Nothing is solved.
ghost use Rattle.std.specs.Prelude.{◌≡◌, ◌≤◌, IfOk};
ghost use Rattle.cert_check.specs.Splits.{AreSoundButPriced};
ghost use Rattle.dual_bound.specs.OfTables.{IsOfTables};
ghost use Rattle.fleet_model.specs.Kept.{all_pairs};
ghost use Rattle.fleet_model.specs.declared.limits.TheConstants.{MAX_AIRCRAFT};
ghost use Rattle.folder_answers.specs.Commands.{AsksTree, SaysOfOther, what_if_status};
ghost use Rattle.folder_answers.specs.Halted.{MatchHalt};
ghost use Rattle.folder_answers.specs.Opened.{CanHave, IsOpenedOn};
ghost use Rattle.folder_answers.specs.Refusals.{RefusesProof};
ghost use Rattle.folder_answers.specs.Skeletons.{OnFleet};

use crate::answer::Answer;
use crate::checking::open_proof;
use crate::halting::Halt;
use crate::opened::{Opened, Question};
use crate::reading::fleet_of;
use crate::status::{DONE, FALLEN, REFUSED};
use crate::texts::{broken, what_if_line};
use cert_check::{Checked, WhatIf, check_with_cost, whatif};
use dual_bound::Tree;
use entries::NoMemory;
use fleet_model::Tables;
use std::alloc::Global;

/// What a proof comes to, by its bytes, where it is asked about so many aircraft of the fleet of this name. A plan is asked for
/// where there is such a fleet, and the proof reads and says that a plan comes with it.
pub fn open_of_fleet(
    alloc: Global,
    tables: Tables,
    name: &str,
    count: u32,
    bytes: &[u8],
) -> Result<Opened, Halt>
    requires { count ≤ MAX_AIRCRAFT }
    ensures { MatchHalt result (IsOpenedOn tables name.now count bytes.now) (OnFleet tables name.now (λ _. RefusesProof tables bytes.now)) }
{
    let fleet = fleet_of(alloc, &tables, name)?;
    open_proof(alloc, tables, Question::OtherSize { fleet, count }, bytes)
}

/// Asks a tree, with the cost of the legal plan that comes with it, if any. Where it breaks a rule that is told, as in checking.
pub fn ask_tree(
    alloc: Global,
    tables: &Tables,
    fleet: u32,
    count: u32,
    cost: Option<i128>,
    tree: &Tree,
) -> Result<Answer, NoMemory>
    requires known { IsOfTables tables.now tree.now }
    requires can { CanHave tables.now fleet count }
    ensures { IfOk result (AsksTree tables.now fleet count cost tree.now) }
{
    match check_with_cost(tables, cost, tree) {
        Checked::Holds { .. } => say_of_other(alloc, tables, fleet, count, tree),
        Checked::Broken { node, rule } => {
            let text = broken(alloc, node, rule)?;
            Ok(Answer::says(alloc, REFUSED, text))
        }
    }
}

/// Tells what a tree says of the tables in which a fleet has so many aircraft.
fn say_of_other(
    alloc: Global,
    tables: &Tables,
    fleet: u32,
    count: u32,
    tree: &Tree,
) -> Result<Answer, NoMemory>
    requires known { IsOfTables tables.now tree.now }
    requires can { CanHave tables.now fleet count }
    requires sound { AreSoundButPriced tables.now (all_pairs tables.now) tree.now }
    ensures { IfOk result (SaysOfOther tables.now fleet count tree.now) }
{
    let what = whatif(tables, fleet, count, tree);
    let text = what_if_line(alloc, tables, fleet, count, what)?;
    Ok(Answer::says(alloc, status_of(what), text))
}

/// The status of what a tree says.
fn status_of(what: WhatIf) -> u8
    ensures { result ≡ what_if_status what }
{
    match what {
        WhatIf::Fallen { .. } => FALLEN,
        WhatIf::NoPlan | WhatIf::Bound(_) => DONE,
    }
}
