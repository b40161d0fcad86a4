//! The kept pairs, with what is counted of them, so that a rule is looked up and not counted anew.
ghost use Rattle.std.specs.Prelude.{◌≡◌, ◌<◌, ◌==◌, MatchBool, IfOk, IsTrue, false};
ghost use Rattle.fleet_model.specs.Kept.{all_pairs, kept_by, kept_on};
ghost use Rattle.fleet_model.specs.Schedule.{IsPair, fleet_by, fleets_in, legs_in};
ghost use Rattle.dual_bound.specs.Bound.{part};
ghost use Rattle.presolve.specs.Choices.{AreChoices};
ghost use Rattle.presolve.specs.Removals.{NoneBare};

use crate::alone::{add_alone, all_alone};
use crate::cells::take_one;
use crate::counting::{End, all_at, counts_of};
use entries::NoMemory;
use fleet_model::limits::MAX_LEGS;
use fleet_model::{Kept, Pair, Step, Tables};
use std::alloc::Global;

/// The pairs that are kept so far, with what the rules ask for.
#[derive(Drop)]
pub(crate) struct Choices {
    pub kept: Kept,
    /// How many pairs each leg keeps.
    pub counts: [u32; MAX_LEGS],
    /// How many kept pairs of each fleet land at each station.
    pub landings: Vec<u32>,
    /// How many kept pairs of each fleet depart from each station.
    pub departures: Vec<u32>,
    /// The aircraft of each fleet that legs which keep one pair keep busy, by minutes.
    pub busy: Vec<u32>,
}

impl Choices {
    /// All pairs that may be taken.
    pub(crate) fn all(alloc: Global, tables: &Tables) -> Result<Choices, NoMemory>
        ensures choices { IfOk result (AreChoices tables.now) }
        ensures all { IfOk result (λ choices. kept_by choices.kept ≡ all_pairs tables.now) }
    {
        let kept = Kept::all(tables);
        let counts = counts_of(tables, &kept);
        let landings = all_at(alloc, tables, &kept, End::To)?;
        let departures = all_at(alloc, tables, &kept, End::From)?;
        let busy = all_alone(alloc, tables, &kept, &counts)?;
        Ok(Choices {
            kept,
            counts,
            landings,
            departures,
            busy,
        })
    }

    /// Whether each leg keeps a pair.
    pub(crate) fn none_bare(&self, tables: &Tables) -> bool
        requires { AreChoices tables.now self.now }
        ensures { MatchBool result (NoneBare tables.now (kept_by self.now.kept)) (¬ (NoneBare tables.now (kept_by self.now.kept))) }
    {
        for leg in 0..tables.leg_count() {
            if self.counts[leg as usize] == 0 {
                return false;
            }
        }
        true
    }

    /// Whether a leg keeps one pair.
    pub(crate) fn has_one(&self, tables: &Tables, leg: u32) -> bool
        requires choices { AreChoices tables.now self.now }
        requires leg { leg < legs_in tables.now }
        ensures { result ≡ (kept_on tables.now (kept_by self.now.kept) leg == 1) }
    {
        self.counts[leg as usize] == 1
    }

    /// Keeps a pair no longer that a fleet flies.
    pub(crate) fn remove(&mut self, tables: &Tables, pair: Pair)
        requires choices { AreChoices tables.now self.old }
        requires none_bare { NoneBare tables.now (kept_by self.old.kept) }
        requires pair { IsPair tables.now pair }
        requires kept { IsTrue (kept_by self.old.kept pair) }
        requires flown { fleet_by tables.now pair < fleets_in tables.now }
        ensures choices { AreChoices tables.now self.new }
        ensures removed { kept_by self.new.kept ≡ part (kept_by self.old.kept) pair.leg pair.choice false }
    {
        let flown = tables.leg(pair.leg);
        let fleet = tables.fleet_by(pair);
        self.kept.narrow(Step {
            leg: pair.leg,
            choice: pair.choice,
            yes: false,
        });
        self.counts[pair.leg as usize] -= 1;
        take_one(&mut self.landings, fleet, flown.to);
        take_one(&mut self.departures, fleet, flown.from);
        add_alone(&mut self.busy, tables, &self.kept, &self.counts, pair.leg);
    }
}
