ghost use Rattle.std.specs.Prelude.{◌≡◌, ◌<◌, ◌≤◌, MatchOption};
ghost use Rattle.fleet_model.specs.declared.limits.TheConstants.{MAX_AIRCRAFT};
ghost use Rattle.fleet_model.specs.declared.tables.Tables.{Tables};
ghost use Rattle.fleet_model.specs.Legal.{IsAssignment, IsLegal, total_cost};
ghost use Rattle.fleet_model.specs.OtherSizes.{IsOtherSize};
ghost use Rattle.fleet_model.specs.Schedule.{fleets_in};
ghost use Rattle.fleet_model.specs.Sizes.{AreSizes, HoldsBy};
ghost use Rattle.plan_judge.specs.Sizes.{IsLegalAt, IsVerdictBy, cost_judged};
ghost use Rattle.plan_judge.specs.Verdicts.{IsVerdict};

use crate::balance::first_unbalanced;
use crate::cost::{cost, first_not_allowed};
use crate::crowds::first_crowded;
use crate::limits::first_too_many;
use fleet_model::{Assignment, Sizes, Tables};

/// What an assignment is worth: legal, or the first reason why it is not.
#[derive(Clone, Copy)]
pub enum Verdict {
    /// The first leg that its fleet may not fly.
    NotAllowed {
        leg: u32,
    },
    /// The first fleet, and there the first station, at which as many aircraft do not come as leave, with both
    /// numbers.
    Unbalanced {
        fleet: u32,
        station: u32,
        came: u32,
        left: u32,
    },
    /// The first fleet that uses more aircraft than it has, with both numbers.
    TooMany {
        fleet: u32,
        used: u32,
        has: u32,
    },
    /// The first station, and there the first day, counted from 1, at whose end more aircraft stand than may, with both
    /// numbers.
    Crowded {
        station: u32,
        day: u32,
        parked: u32,
        cap: u32,
    },
    /// Legal, and what it costs, in cost units.
    Legal {
        cost: i128,
    },
}

/// Judges an assignment, which has a known choice for each leg. Takes no memory.
pub fn judge(tables: &Tables, plan: &Assignment) -> Verdict
    requires { IsAssignment tables.now plan.now }

    // The first refusal in the order of the variants, with its true numbers, or legal with the exact cost.
    ensures verdict { IsVerdict tables.now plan.now result }
    ensures legal { IsLegal tables.now plan.now → result ≡ Verdict.Legal (total_cost tables.now plan.now) }
{
    judge_by(tables, Sizes::Own, plan)
}

/// Judges an assignment as `judge` does, on the tables with another number of aircraft of one fleet. Takes no memory.
pub fn judge_as(tables: &Tables, fleet: u32, count: u32, plan: &Assignment) -> Verdict
    requires fleet { fleet < fleets_in tables.now }
    requires count { count ≤ MAX_AIRCRAFT }
    requires plan { IsAssignment tables.now plan.now }

    // As of `judge`, on whichever tables have that number.
    ensures verdict { (u : Tables) → IsOtherSize tables.now fleet count u → IsVerdict u plan.now result }
    ensures legal { (u : Tables) → IsOtherSize tables.now fleet count u → IsLegal u plan.now → result ≡ Verdict.Legal (total_cost u plan.now) }
{
    judge_by(tables, Sizes::Other { fleet, count }, plan)
}

/// What an assignment costs where fleets have so many aircraft, in cost units, if it is legal then. Takes no memory.
pub fn legal_cost(tables: &Tables, sizes: Sizes, plan: &Assignment) -> Option<i128>
    requires sizes { AreSizes tables.now sizes }
    requires plan { IsAssignment tables.now plan.now }
    ensures { HoldsBy tables.now sizes (λ u. MatchOption result (¬ (IsLegal u plan.now)) (IsLegalAt u plan.now)) }
{
    cost_in(judge_by(tables, sizes, plan))
}

// The cost of which a verdict tells.
fn cost_in(verdict: Verdict) -> Option<i128>
    ensures { result ≡ cost_judged verdict }
{
    match verdict {
        Verdict::Legal { cost } => Some(cost),
        _ => None,
    }
}

// Judges an assignment where fleets have so many aircraft.
fn judge_by(tables: &Tables, sizes: Sizes, plan: &Assignment) -> Verdict
    requires { IsAssignment tables.now plan.now }
    ensures { IsVerdictBy tables.now sizes plan.now result }
{
    if let Some(leg) = first_not_allowed(tables, plan) {
        return Verdict::NotAllowed { leg };
    }
    if let Some(found) = first_unbalanced(tables, plan) {
        return Verdict::Unbalanced {
            fleet: found.fleet,
            station: found.station,
            came: found.came,
            left: found.left,
        };
    }
    if let Some(found) = first_too_many(tables, sizes, plan) {
        return Verdict::TooMany {
            fleet: found.fleet,
            used: found.used,
            has: found.has,
        };
    }
    if let Some(found) = first_crowded(tables, plan) {
        return Verdict::Crowded {
            station: found.station,
            day: found.day,
            parked: found.parked,
            cap: found.cap,
        };
    }
    Verdict::Legal {
        cost: cost(tables, plan),
    }
}
