//! Which search answers.
ghost use Rattle.std.specs.Prelude.{◌≡◌, ◌≢◌, IfOk, IfSome, MatchBool, Some};
ghost use Rattle.branch_bound.specs.Solved.{IsSolved};
ghost use Rattle.command_words.specs.Arguments.{AreLimits};
ghost use Rattle.command_words.specs.declared.command.SearchWay.TheVariants as way;
ghost use Rattle.fleet_cli.specs.plan_search.SolvedBy.{IsFoundFreely, IsSolvedBy};

use branch_bound::hinted_trees::solved_by_texts;
use branch_bound::solve;
use command_words::{SearchLimits, SearchWay};
use dual_bound::Solved;
use entries::NoMemory;
use exact_ends::DualSimplex;
use fleet_model::Tables;
use free_search::find;
use std::alloc::Global;

/// A solution of tables, by the way of searching and within its limits. Where its choices are fixed, it is one of the search by
/// rules. Where they are free, a free search comes first: what it finds is read and judged, and answers where it holds.
pub fn solved_by(
    alloc: Global,
    tables: &Tables,
    way: SearchWay,
    limits: SearchLimits,
) -> Result<Solved, NoMemory>
    requires { AreLimits limits }
    ensures { IfOk result (IsSolvedBy tables.now way limits) }
{
    match way {
        SearchWay::Fixed => solved_by_rules(alloc, tables, limits),
        SearchWay::Free => solved_freely(alloc, tables, limits),
    }
}

/// One of the search of which each choice is fixed by a rule.
fn solved_by_rules(alloc: Global, tables: &Tables, limits: SearchLimits) -> Result<Solved, NoMemory>
    ensures { IfOk result (IsSolved tables.now limits.nodes limits.pivots) }
{
    solve::<DualSimplex>(alloc, tables, limits.nodes, limits.pivots)
}

/// One by a tree that a free search found, where it found one that holds; else one of the search by rules.
fn solved_freely(alloc: Global, tables: &Tables, limits: SearchLimits) -> Result<Solved, NoMemory>
    requires { AreLimits limits }
    ensures { IfOk result (IsSolvedBy tables.now way.Free limits) }
{
    match found_freely(alloc, tables, limits)? {
        Some(solved) => Ok(solved),
        None => solved_by_rules(alloc, tables, limits),
    }
}

/// The solution whose tree a free search finds, where one is tried and its tree holds. None is tried where no pivots are
/// allowed. The texts are dropped before anything is told.
fn found_freely(
    alloc: Global,
    tables: &Tables,
    limits: SearchLimits,
) -> Result<Option<Solved>, NoMemory>
    requires { AreLimits limits }
    ensures { IfOk result (λ found. IfSome found (IsFoundFreely tables.now limits)) }
{
    if allows_none(limits.pivots) {
        return Ok(None);
    }
    match find(alloc, tables, limits.nodes, limits.pivots)? {
        Some(texts) => {
            let (plan, proof) = (texts.plan.as_slice(), texts.proof.as_slice());
            solved_by_texts(alloc, tables, limits.nodes, plan, proof)
        }
        None => Ok(None),
    }
}

/// Whether no pivots are allowed.
fn allows_none(pivots: Option<u64>) -> bool
    ensures { MatchBool result (pivots ≡ Some 0) (pivots ≢ Some 0) }
{
    match pivots {
        Some(most) => most == 0,
        None => false,
    }
}
