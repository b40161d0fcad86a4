//! The search for the next pair to be removed.
ghost use Rattle.std.specs.Prelude.{◌≡◌, ◌<◌, MatchOption};
ghost use Rattle.fleet_model.specs.Kept.{kept_by};
ghost use Rattle.fleet_model.specs.Schedule.{legs_in};
ghost use Rattle.presolve.specs.Choices.{AreChoices};
ghost use Rattle.presolve.specs.Removals.{IsDone, NoneBare};
ghost use Rattle.presolve.specs.Search.{IsFirstFrom, IsFirstOn, IsNextPair, NoneFrom, NoneOn};

use crate::choices::Choices;
use crate::first_rule::removed_by;
use crate::rule::Rule;
use fleet_model::{Pair, Tables};

/// A pair to be removed, and the first rule that it meets.
#[derive(Clone, Copy)]
pub(crate) struct Removable {
    pub pair: Pair,
    pub rule: Rule,
}

/// The next pair to be removed, going on from a place: in the rest of its pass, or else in the next one.
pub(crate) fn next_removal(tables: &Tables, choices: &Choices, place: Pair) -> Option<Removable>
    requires { AreChoices tables.now choices.now }
    ensures { MatchOption result (IsDone tables.now (kept_by choices.now.kept)) (IsNextPair tables.now (kept_by choices.now.kept) place) }
{
    if !choices.none_bare(tables) {
        return None;
    }
    match first_from(tables, choices, place) {
        Some(found) => Some(found),
        None => first_from(tables, choices, Pair { leg: 0, choice: 0 }),
    }
}

// The first pair from a place on that may be removed.
fn first_from(tables: &Tables, choices: &Choices, place: Pair) -> Option<Removable>
    requires choices { AreChoices tables.now choices.now }
    requires none_bare { NoneBare tables.now (kept_by choices.now.kept) }
    ensures { MatchOption result (NoneFrom tables.now (kept_by choices.now.kept) place) (IsFirstFrom tables.now (kept_by choices.now.kept) place) }
{
    for leg in place.leg..tables.leg_count() {
        let start = if leg == place.leg { place.choice } else { 0 };
        if let Some(found) = first_on(tables, choices, leg, start) {
            return Some(found);
        }
    }
    None
}

// The first pair of a leg, from a choice on, that may be removed.
fn first_on(tables: &Tables, choices: &Choices, leg: u32, start: u32) -> Option<Removable>
    requires choices { AreChoices tables.now choices.now }
    requires none_bare { NoneBare tables.now (kept_by choices.now.kept) }
    requires leg { leg < legs_in tables.now }
    ensures { MatchOption result (NoneOn tables.now (kept_by choices.now.kept) leg start) (IsFirstOn tables.now (kept_by choices.now.kept) leg start) }
{
    for choice in start..tables.choice_count(leg) {
        let pair = Pair { leg, choice };
        if let Some(rule) = removed_by(tables, choices, pair) {
            return Some(Removable { pair, rule });
        }
    }
    None
}
