//! Where a subproblem ends: a leg that keeps no choice, or one choice on each leg.
ghost use Rattle.std.specs.Prelude.{◌≡◌, ◌≢◌, ◌<◌, ℕ, IsTrue, MatchOption};
ghost use Rattle.fleet_model.specs.Kept.{IsBare, IsFirstBare, IsKeptAssignment, IsSole, IsSoleOn, kept_by, kept_on};
ghost use Rattle.fleet_model.specs.Schedule.{choices_in, leg_on, legs_in};

use crate::assignments::Assignment;
use crate::kept::Kept;
use crate::tables::Tables;

impl Kept {
    /// The first leg that keeps no choice. With such a leg no assignment is left. Takes no memory.
    pub fn bare_leg(&self, tables: &Tables) -> Option<u32>
        ensures { MatchOption result ((l : ℕ) → ¬ (IsBare tables.now (kept_by self.now) l))
            (IsFirstBare tables.now (kept_by self.now)) }
    {
        for leg in 0..tables.leg_count() {
            if self.count_on(tables, leg) == 0 {
                return Some(leg);
            }
        }
        None
    }

    /// The one assignment that is left, where each leg keeps one choice. Takes no memory.
    pub fn sole(&self, tables: &Tables) -> Option<Assignment>
        ensures { MatchOption result (¬ (IsSole tables.now (kept_by self.now)))
            (λ a. IsSole tables.now (kept_by self.now) × IsKeptAssignment tables.now (kept_by self.now) a) }
    {
        let mut plan = Assignment::empty();
        for leg in 0..tables.leg_count() {
            match self.sole_on(tables, leg) {
                Some(fleet) => plan.push(fleet),
                None => return None,
            }
        }
        Some(plan)
    }

    /// How many choices a leg keeps. Takes no memory.
    pub fn count_on(&self, tables: &Tables, leg: u32) -> u32
        requires { leg < legs_in tables.now }
        ensures { result ≡ kept_on tables.now (kept_by self.now) leg }
    {
        let mut count = 0;
        for fleet in 0..tables.choice_count(leg) {
            if self.kept(leg, fleet) {
                count += 1;
            }
        }
        count
    }

    // The choice of a leg that keeps one.
    fn sole_on(&self, tables: &Tables, leg: u32) -> Option<u32>
        requires { leg < legs_in tables.now }
        ensures { MatchOption result (kept_on tables.now (kept_by self.now) leg ≢ 1)
            (IsSoleOn tables.now (kept_by self.now) leg) }
    {
        if self.count_on(tables, leg) != 1 {
            return None;
        }
        self.fleet_on(tables, leg)
    }

    // A choice that a leg keeps, where it keeps any.
    fn fleet_on(&self, tables: &Tables, leg: u32) -> Option<u32>
        requires { leg < legs_in tables.now }
        ensures { MatchOption result (kept_on tables.now (kept_by self.now) leg ≡ 0)
            (λ f. (f < choices_in tables.now leg) × IsTrue (kept_by self.now (leg_on leg f))) }
    {
        for fleet in 0..tables.choice_count(leg) {
            if self.kept(leg, fleet) {
                return Some(fleet);
            }
        }
        None
    }
}
