//! The subproblems of a search, as they stand in a list.
ghost use Rattle.std.specs.Prelude.{◌≡◌, ◌<◌, ℕ, length};
ghost use Rattle.fleet_model.specs.Kept.{kept_by};
ghost use Rattle.branch_bound.specs.History.{KeepsBy, split_state};
ghost use Rattle.branch_bound.specs.Search.{HaveOrigins, at};
ghost use Rattle.node_bounding.specs.Worked.{Worked};

use dual_bound::Tree;
use fleet_model::{Kept, Step, Tables};
use node_bounding::State;
use std::mem;

/// What a subproblem is a part of.
#[derive(Clone, Copy)]
pub(crate) struct Origin {
    /// The number of the subproblem that was split.
    pub(crate) parent: usize,
    /// The step from there.
    pub(crate) step: Step,
}

/// A subproblem. Which pairs it keeps is found by walking up to the first, so the list stays small.
#[derive(Drop)]
pub(crate) struct Subproblem {
    /// What it is a part of; the first of all is a part of nothing.
    pub(crate) origin: Option<Origin>,
    pub(crate) state: State,
}

/// The pairs that a subproblem of a list keeps, of those that the first one keeps. Takes no memory.
pub(crate) fn kept_in(tables: &Tables, first: &Kept, all: &[Subproblem], number: usize) -> Kept
    requires number { number < length all.now }
    requires origins { HaveOrigins tables.now all.now }
    ensures { (made : ℕ → Worked) → ((k : ℕ) → k < length all.now → KeepsBy tables.now (kept_by first.now) made k (at all.now k).origin) → kept_by result ≡ (made number).keeps }
{
    let mut kept = *first;
    let mut here = number;
    while let Some(origin) = origin_of(all, here) {
        kept.narrow(origin.step);
        here = origin.parent;
    }
    kept
}

// What the subproblem with a number is a part of.
fn origin_of(all: &[Subproblem], number: usize) -> Option<Origin>
    requires { number < length all.now }
    ensures { result ≡ (at all.now number).origin }
{
    all[number].origin
}

/// Splits a subproblem that waits.
pub(crate) fn split(subproblem: &mut Subproblem)
    ensures { subproblem.new ≡ record { origin = subproblem.old.origin; state = split_state subproblem.old.state } }
{
    let state = mem::replace(&mut subproblem.state, State::Leaf(Tree::Sole));
    subproblem.state = match state {
        State::Waiting(fraction) => State::Split(fraction),
        other => other,
    };
}
