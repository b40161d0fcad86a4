//! The checker.
ghost use Rattle.std.specs.Prelude.{◌≡◌, IfSome, IsSomeAnd, Option, ℤ, ⊤, option_map};
ghost use Rattle.fleet_model.specs.Legal.{IsLegal, total_cost};
ghost use Rattle.dual_bound.specs.OfTables.{IsOfTables};
ghost use Rattle.cert_check.specs.Verdicts.{IsChecked, IsProof};
ghost use Rattle.cert_check.specs.Rules.{rule_number};
ghost use Rattle.cert_check.specs.Visitors.{IsJudged};
ghost use Rattle.cert_check.specs.declared.checked.Checked.TheVariants as checked;

use crate::checked::Checked;
use crate::leaves::own_bound;
use crate::node_rules::first_fault;
use crate::reached::Reached;
use crate::walking::{Visit, Walker, walk};
use dual_bound::Tree;
use fleet_model::{Assignment, Kept, Sizes, Tables};
use plan_judge::legal_cost;

/// Checks a tree: whether each of its nodes keeps each rule, and what bound it then proves. The plan is the one that
/// the tree comes with, if any; priced leaves are judged by its cost. No order or form is asked of the tree's lists,
/// and each number may be any. Takes no memory.
pub fn check(tables: &Tables, plan: Option<&Assignment>, tree: &Tree) -> Checked
    requires plan { IfSome plan (λ legal. IsLegal tables.now legal.now) }
    requires tree { IsOfTables tables.now tree.now }

    // The tree's bound where all nodes keep all rules, else the first node that does not, and there the first rule.
    ensures verdict { IsChecked tables.now (option_map (λ legal. total_cost tables.now legal.now) plan.entry) tree.now result }

    // Where it holds, each legal assignment costs at least the bound, and with no bound there is none.
    ensures proof { IsProof tables.now result }
{
    check_with_cost(tables, plan_cost(tables, plan), tree)
}

/// The same for somebody who has judged the plan: it takes the plan's cost, where there is a plan.
pub fn check_with_cost(tables: &Tables, cost: Option<i128>, tree: &Tree) -> Checked
    requires { IsOfTables tables.now tree.now }
    ensures verdict { IsChecked tables.now cost tree.now result }

    // It asks nothing of the cost.
    ensures proof { IsProof tables.now result }
{
    let mut walker = Walker::new(tables);
    if walk(tables, &Sound { cost }, &mut walker, tree) {
        broken(&walker.reached)
    } else {
        Checked::Holds {
            bound: walker.reached.bound,
        }
    }
}

// The verdict on a tree where the walk has ended.
fn broken(reached: &Reached) -> Checked
    requires { IsSomeAnd reached.now.rule (λ rule. ⊤) }
    ensures { IsSomeAnd reached.now.rule (λ rule. result ≡ checked.Broken reached.now.number (rule_number rule)) }
{
    match reached.rule {
        Some(rule) => Checked::Broken {
            node: reached.number,
            rule: rule.number(),
        },
        None => unreachable!(),
    }
}

/// Asks of each node whether it keeps all rules.
#[derive(Drop)]
struct Sound {
    /// What the plan costs, if there is one.
    cost: Option<i128>,
}

impl Visit for Sound {
    ghost may = { λ it t node. ⊤ };

    ghost finds = { λ it t. IsJudged t it.cost };

    #[inline(never)]
    fn enter(&self, tables: &Tables, kept: &Kept, node: &Tree, reached: &mut Reached) -> bool {
        if let Some(rule) = first_fault(tables, kept, &self.cost, node) {
            reached.rule = Some(rule);
            return true;
        }
        reached.pass(&own_bound(tables, Sizes::Own, kept, node));
        false
    }
}

/// The cost of the plan, where there is one.
fn plan_cost(tables: &Tables, plan: Option<&Assignment>) -> Option<i128>
    requires { IfSome plan (λ legal. IsLegal tables.now legal.now) }
    ensures { result ≡ option_map (λ legal. total_cost tables.now legal.now) plan.entry }
{
    legal_cost(tables, Sizes::Own, plan?)
}
