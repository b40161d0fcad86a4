//! The cost of an assignment.
ghost use Rattle.std.specs.Prelude.{◌≡◌, ◌<◌, MatchOption};
ghost use Rattle.fleet_model.specs.Legal.{IsAllowed, IsAssignment, leg_cost, total_cost};
ghost use Rattle.fleet_model.specs.Limits.{IsCost};
ghost use Rattle.fleet_model.specs.Schedule.{legs_in};
ghost use Rattle.plan_judge.specs.Verdicts.{FirstNotAllowed};

use fleet_model::{Assignment, Pair, Tables};

/// The first leg that its fleet may not fly.
pub(crate) fn first_not_allowed(tables: &Tables, plan: &Assignment) -> Option<u32>
    requires { IsAssignment tables.now plan.now }
    ensures { MatchOption result (IsAllowed tables.now plan.now) (FirstNotAllowed tables.now plan.now) }
{
    for leg in 0..tables.leg_count() {
        let choice = plan.choice(leg);
        if tables.cost(Pair { leg, choice }).is_none() {
            return Some(leg);
        }
    }
    None
}

/// The costs of an assignment's pairs, added up.
#[tactic(auto, unfolding(fleet_model::specs::Legal::total_cost))]
pub(crate) fn cost(tables: &Tables, plan: &Assignment) -> i128
    requires plan { IsAssignment tables.now plan.now }
    requires allowed { IsAllowed tables.now plan.now }
    ensures { result ≡ total_cost tables.now plan.now }
{
    let mut sum: i128 = 0;
    for leg in 0..tables.leg_count() {
        sum += leg_units(tables, plan, leg);
    }
    sum
}

/// The cost of a leg by an assignment.
fn leg_units(tables: &Tables, plan: &Assignment, leg: u32) -> i128
    requires plan { IsAssignment tables.now plan.now }
    requires allowed { IsAllowed tables.now plan.now }
    requires leg { leg < legs_in tables.now }
    ensures value { result ≡ leg_cost tables.now plan.now leg }
    ensures fits { IsCost result }
{
    let choice = plan.choice(leg);
    tables.cost(Pair { leg, choice }).unwrap()
}
