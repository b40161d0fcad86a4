//! What the tree of a search proves.
ghost use Rattle.std.specs.Prelude.{◌≡◌, All, Some, None, Option};
ghost use Rattle.fleet_model.specs.Kept.{all_pairs};
ghost use Rattle.plan_judge.specs.LegalPlans.{IsLegalPlan};
ghost use Rattle.dual_bound.specs.OfTables.{IsOfTables};
ghost use Rattle.cert_check.specs.Verdicts.{AreSound};
ghost use Rattle.branch_bound.specs.Settled.{IsProvedBy, plan_of};
ghost use Rattle.branch_bound.specs.Solved.{IsRight};
ghost use Rattle.dual_bound.specs.Solved.{tree_of};

use cert_check::{Checked, check_with_cost};
use dual_bound::{Solved, Tree};
use fleet_model::Tables;
use plan_judge::LegalPlan;

/// What the tree of a search proves, whose plan, if any, is the cheapest. Takes no memory.
pub(crate) fn settle(tables: &Tables, best: Option<LegalPlan>, tree: Tree) -> Solved
    requires { IsProvedBy tables.now best tree }
    ensures right { IsRight tables.now result }
    ensures plan { plan_of result ≡ best }
    ensures tree { tree_of result ≡ tree }
{
    match best {
        Some(plan) => planned(tables, plan, tree),
        None => unplanned(tables, tree),
    }
}

// A plan with its bound. The search judged the plan and knows its cost.
fn planned(tables: &Tables, plan: LegalPlan, tree: Tree) -> Solved
    requires { IsProvedBy tables.now (Some plan) tree }
    ensures right { IsRight tables.now result }
    ensures plan { plan_of result ≡ Some plan }
    ensures tree { tree_of result ≡ tree }
{
    match check_with_cost(tables, Some(plan.cost), &tree) {
        Checked::Holds { bound: Some(bound) } => Solved::Planned {
            assignment: plan.assignment,
            cost: plan.cost,
            bound,
            tree,
        },
        Checked::Holds { bound: None } => unreachable!(),
        Checked::Broken { .. } => unreachable!(),
    }
}

// That there is no plan, or a bound alone.
fn unplanned(tables: &Tables, tree: Tree) -> Solved
    requires { IsProvedBy tables.now None tree }
    ensures right { IsRight tables.now result }
    ensures plan { plan_of result ≡ None }
    ensures tree { tree_of result ≡ tree }
{
    match check_with_cost(tables, None, &tree) {
        Checked::Holds { bound: Some(bound) } => Solved::Unsettled { bound, tree },
        Checked::Holds { bound: None } => Solved::Infeasible { tree },
        Checked::Broken { .. } => unreachable!(),
    }
}
