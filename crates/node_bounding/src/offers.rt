//! Assignments that are offered.
ghost use Rattle.std.specs.Prelude.{◌≤ℤ◌, ◌<ℤ◌, IfSome, IsSomeAnd, MatchBool};
ghost use Rattle.fleet_model.specs.Kept.{kept_by};
ghost use Rattle.fleet_model.specs.Legal.{IsAssignment};
ghost use Rattle.plan_judge.specs.LegalPlans.{IsLegalPlan};
ghost use Rattle.node_bounding.specs.Offers.{IsNoSole, IsOffered, IsSoleOffered};
ghost use Rattle.node_bounding.specs.Subproblems.{cost_of_plan};

use fleet_model::{Assignment, Kept, Sizes, Tables};
use plan_judge::{LegalPlan, legal_cost};

/// Whether each leg keeps one choice; then the assignment that is left is offered. Takes no memory.
///
/// It has an assignment on the stack, and so is kept out of the frames of the search.
#[inline(never)]
pub(crate) fn offer_sole(tables: &Tables, kept: &Kept, best: &mut Option<LegalPlan>) -> bool
    requires { IfSome best.old (IsLegalPlan tables.now) }
    ensures { MatchBool result (IsSoleOffered tables.now (kept_by kept.now) best.old best.new) (IsNoSole tables.now (kept_by kept.now) best.old best.new) }
{
    match kept.sole(tables) {
        Some(assignment) => {
            offer(tables, assignment, best);
            true
        }
        None => false,
    }
}

/// Offers an assignment: where it is legal and cheaper than the cheapest plan so far, it takes its place. Takes no
/// memory.
pub(crate) fn offer(tables: &Tables, assignment: Assignment, best: &mut Option<LegalPlan>)
    requires known { IsAssignment tables.now assignment }
    requires best { IfSome best.old (IsLegalPlan tables.now) }
    ensures { IsOffered tables.now assignment best.old best.new }
{
    match legal_cost(tables, Sizes::Own, &assignment) {
        None => {}
        Some(cost) => {
            if is_cheaper(&cost, best) {
                *best = Some(LegalPlan { assignment, cost });
            }
        }
    }
}

// Whether a cost is below that of the cheapest plan so far.
fn is_cheaper(cost: &i128, best: &Option<LegalPlan>) -> bool
    ensures { MatchBool result (IfSome (cost_of_plan best.now) (λ c. cost.now <ℤ c)) (IsSomeAnd (cost_of_plan best.now) (λ c. c ≤ℤ cost.now)) }
{
    match best {
        None => true,
        Some(plan) => *cost < plan.cost,
    }
}
