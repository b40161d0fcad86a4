//! Branch and bound: of the subproblems that wait, the one of the least rounded worth is split first.
ghost use Rattle.std.specs.Prelude.{◌≡◌, ◌<◌, suc, length, Some, IfOk, IfSome, OnOk, MatchOption, ⊤};
ghost use Rattle.fleet_model.specs.Kept.{kept_by, narrowed};
ghost use Rattle.fleet_model.specs.Schedule.{IsPair, leg_on};
ghost use Rattle.fleet_model.specs.Whole.{KeepAllowed};
ghost use Rattle.plan_judge.specs.LegalPlans.{IsLegalPlan};
ghost use Rattle.node_bounding.specs.Examined.{IsExamined};
ghost use Rattle.branch_bound.specs.History.{IsPut, IsSearch, IsSearchDone, IsSplitSearch, WaitsWith};
ghost use Rattle.branch_bound.specs.Ranks.{IsNextRank, IsOver, ranks_with};
ghost use Rattle.branch_bound.specs.Search.{at};
ghost use Rattle.node_bounding.specs.Relaxed.{AreGood};

use crate::ranks::Rank;
use crate::search::Search;
use crate::subproblems::{Origin, Subproblem, kept_in, split};
use entries::NoMemory;
use fleet_model::{Kept, Pair, Step, Tables};
use lp_rows::Program;
use node_bounding::steps::{with, without};
use node_bounding::{State, examine, is_reached, zeros};
use simplex_frac::end_check::EndFinder;
use std::alloc::Global;
use std::collections::BTreeSet;

/// Searches the pairs that are kept, with at most so many splits, and so many pivots for each subproblem or no
/// budget of them.
pub(crate) fn branch<S: EndFinder<Program>>(
    alloc: Global,
    tables: &Tables,
    nodes: u64,
    pivots: Option<u64>,
    first: &Kept,
) -> Result<Search, NoMemory>
    requires { KeepAllowed tables.now (kept_by first.now) }
    ensures { IfOk result (IsSearchDone tables.now nodes pivots (kept_by first.now)) }
{
    let mut search = begun::<S>(alloc, tables, nodes, pivots, first)?;
    while let Some(rank) = next(&search) {
        split_next::<S>(alloc, tables, first, &mut search, rank)?;
    }
    Ok(search)
}

// A search of the first subproblem alone.
fn begun<S: EndFinder<Program>>(
    alloc: Global,
    tables: &Tables,
    nodes: u64,
    pivots: Option<u64>,
    first: &Kept,
) -> Result<Search, NoMemory>
    requires { KeepAllowed tables.now (kept_by first.now) }
    ensures search { IfOk result (IsSearch tables.now (kept_by first.now)) }
    ensures nodes { IfOk result (λ s. s.nodes ≡ nodes) }
    ensures pivots { IfOk result (λ s. s.pivots ≡ pivots) }
{
    let above = zeros(alloc, tables)?;
    let mut best = None;
    let state = examine::<S>(alloc, tables, pivots, &mut best, first, &above)?;
    let mut search = Search {
        nodes,
        pivots,
        splits: 0,
        best,
        made: Vec::new(alloc),
        waiting: BTreeSet::new(alloc),
    };
    put(&mut search, None, state)?;
    Ok(search)
}

// The subproblem that is split next, unless nothing more is.
fn next(search: &Search) -> Option<Rank>
    ensures { MatchOption result (IsOver search.now) (IsNextRank search.now) }
{
    if search.splits >= search.nodes {
        return None;
    }
    match search.waiting.first() {
        None => None,
        Some(rank) => {
            if is_reached(&rank.worth, &search.best) {
                None
            } else {
                Some(*rank)
            }
        }
    }
}

// Splits the subproblem that is next: both its parts are made, the one with the pair first.
fn split_next<S: EndFinder<Program>>(
    alloc: Global,
    tables: &Tables,
    first: &Kept,
    search: &mut Search,
    rank: Rank,
) -> Result<(), NoMemory>
    requires search { IsSearch tables.now (kept_by first.now) search.old }
    requires next { IsNextRank search.old rank }
    ensures search { OnOk result (IsSearch tables.now (kept_by first.now) search.new) }
    ensures nodes { OnOk result (search.new.nodes ≡ search.old.nodes) }
    ensures pivots { OnOk result (search.new.pivots ≡ search.old.pivots) }
    ensures splits { OnOk result (search.new.splits ≡ suc search.old.splits) }
{
    let number = rank.number;
    let pair = split_pair(&search.made[number]);
    let mut kept = kept_in(tables, first, search.made.as_slice(), number);
    let yes = part::<S>(
        alloc,
        tables,
        search,
        &mut kept,
        number,
        with(pair.leg, pair.choice),
    )?;
    let no = part::<S>(
        alloc,
        tables,
        search,
        &mut kept,
        number,
        without(pair.leg, pair.choice),
    )?;
    add(search, number, pair, yes, no)
}

// The pair by which a subproblem that waits is split.
fn split_pair(subproblem: &Subproblem) -> Pair
    requires { WaitsWith (λ f. ⊤) subproblem.now.state }
    ensures { WaitsWith (λ f. result ≡ f.pair) subproblem.now.state }
{
    match &subproblem.state {
        State::Waiting(fraction) => fraction.pair,
        State::Leaf(_) | State::Stopped(_) | State::Split(_) => unreachable!(),
    }
}

// Examines a part of a subproblem that waits, of which these pairs are kept; they are again as they were.
fn part<S: EndFinder<Program>>(
    alloc: Global,
    tables: &Tables,
    search: &mut Search,
    kept: &mut Kept,
    number: usize,
    step: Step,
) -> Result<State, NoMemory>
    requires best { IfSome search.old.best (IsLegalPlan tables.now) }
    requires number { number < length search.old.made.items }
    requires waits { WaitsWith (λ f. AreGood tables.now f.best.prices) (at search.old.made.items number).state }
    requires allowed { KeepAllowed tables.now (kept_by kept.old) }
    requires pair { IsPair tables.now (leg_on step.leg step.choice) }
    ensures same { OnOk result (kept.new ≡ kept.old) }
    ensures search { OnOk result (search.new ≡ record search.old { best = search.new.best }) }
    ensures examined { IfOk result (λ made. WaitsWith (λ f. IsExamined tables.now search.old.pivots search.old.best search.new.best (narrowed (kept_by kept.old) step) f.best.prices made) (at search.old.made.items number).state) }
{
    let undo = kept.narrow(step);
    let made = match &search.made[number].state {
        State::Waiting(fraction) => examine::<S>(
            alloc,
            tables,
            search.pivots,
            &mut search.best,
            kept,
            &fraction.best.prices,
        )?,
        State::Leaf(_) | State::Stopped(_) | State::Split(_) => unreachable!(),
    };
    kept.undo(undo);
    Ok(made)
}

// Splits the subproblem that is next, of which these parts were made.
fn add(
    search: &mut Search,
    number: usize,
    pair: Pair,
    yes: State,
    no: State,
) -> Result<(), NoMemory>
    requires number { number < length search.old.made.items }
    requires room { search.old.splits < search.old.nodes }
    ensures { OnOk result (IsSplitSearch search.old search.new number pair yes no) }
{
    search.splits += 1;
    search.waiting.pop_first();
    split(&mut search.made[number]);
    put(search, part_of(number, with(pair.leg, pair.choice)), yes)?;
    put(search, part_of(number, without(pair.leg, pair.choice)), no)
}

fn part_of(parent: usize, step: Step) -> Option<Origin>
    ensures { result ≡ Some (record { parent = parent; step = step }) }
{
    Some(Origin { parent, step })
}

// Puts a subproblem behind those that were made.
fn put(search: &mut Search, origin: Option<Origin>, state: State) -> Result<(), NoMemory>
    ensures { OnOk result (IsPut search.old search.new origin state) }
{
    let number = search.made.len();
    search.made.push(Subproblem { origin, state })?;
    rank(&mut search.waiting, number, &search.made[number].state)
}

// Puts a subproblem with this number among those that wait, where it does.
fn rank(waiting: &mut BTreeSet<Rank>, number: usize, state: &State) -> Result<(), NoMemory>
    ensures { OnOk result (waiting.new.keys ≡ ranks_with waiting.old.keys number state.now) }
{
    match state {
        State::Waiting(fraction) => {
            let worth = fraction.worth;
            waiting.insert(Rank { worth, number })?;
            Ok(())
        }
        State::Leaf(_) | State::Stopped(_) | State::Split(_) => Ok(()),
    }
}
