//! The proved run over a subproblem's lines: the simplex method from the first table on, and what is lifted from its last one.
ghost use Rattle.std.specs.Prelude.{◌≡◌, ℕ, Option, IfOk, MatchResult};
ghost use Rattle.fleet_model.specs.Kept.{IsBare, kept_by};
ghost use Rattle.lp_rows.specs.Outline.{IsOutline};
ghost use Rattle.lp_rows.specs.Points.{AreLinesOf};
ghost use Rattle.node_bounding.specs.Relaxed.{IsEnded, IsRelaxed};
ghost use Rattle.node_bounding.specs.Runs.{HasEnded, IsLiftRefused, IsOutcomeWithin};
ghost use Rattle.row_store.specs.Problem.{IsProblem, first_table};
ghost use Rattle.row_store.specs.Table.{HasColumns};
ghost use Rattle.row_store.specs.declared.problem.Rows.{Rows};
ghost use Rattle.simplex_frac.specs.Finished.{IsStarted};

use crate::relaxing::{Relaxed, told};
use dual_bound::Cause;
use entries::NoMemory;
use fleet_model::{Kept, Tables};
use lp_rows::Outline;
use price_lift::{LiftError, lift_best_with, lift_refusal_with};
use row_store::{RowStore, Rows};
use simplex_frac::{Outcome, finish, solve};
use std::alloc::Global;

/// Solves the relaxation of a subproblem by the proved run over its lines, over any store of tables, with at most so many pivots
/// or with no budget of them.
pub(crate) fn proved_run<R: RowStore + Drop>(
    alloc: Global,
    tables: &Tables,
    kept: &Kept,
    outline: &Outline,
    rows: Rows,
    pivots: Option<u64>,
) -> Result<Relaxed, NoMemory>
    requires pairs { (leg : ℕ) → ¬ (IsBare tables.now (kept_by kept.now) leg) }
    requires outline { IsOutline tables.now (kept_by kept.now) outline.now }
    requires lines { AreLinesOf tables.now (kept_by kept.now) rows }
    requires problem { IsProblem rows }
    ensures { IfOk result (IsRelaxed tables.now (kept_by kept.now) pivots) }
{
    let columns = rows.columns;
    let mut table = R::start(alloc, &rows)?;
    drop(rows);
    let outcome = run_within(alloc, &mut table, columns, pivots)?;
    told(ended(alloc, &table, outcome, tables, kept, outline))
}

// Runs the simplex method from a first table, with at most so many pivots, or with no budget.
fn run_within<R: RowStore>(
    alloc: Global,
    store: &mut R,
    columns: u32,
    pivots: Option<u64>,
) -> Result<Outcome, NoMemory>
    requires shape { HasColumns (R.content store.old) columns }
    requires started { IsStarted (R.content store.old) columns }
    ensures { IfOk result (IsOutcomeWithin (R.content store.old) columns pivots (R.content store.new)) }
{
    match pivots {
        Some(budget) => solve(alloc, store, columns, budget),
        None => Ok(Outcome::from(finish(alloc, store, columns)?)),
    }
}

// What the end of a run comes to.
fn ended<R: RowStore>(
    alloc: Global,
    table: &R,
    outcome: Outcome,
    tables: &Tables,
    kept: &Kept,
    outline: &Outline,
) -> Result<Relaxed, LiftError>
    requires pairs { (leg : ℕ) → ¬ (IsBare tables.now (kept_by kept.now) leg) }
    requires outline { IsOutline tables.now (kept_by kept.now) outline.now }
    requires ended { (pivots : Option ℕ) × HasEnded tables.now (kept_by kept.now) pivots (R.content table.now) outcome }
    ensures relaxed { (pivots : Option ℕ) → HasEnded tables.now (kept_by kept.now) pivots (R.content table.now) outcome
        → MatchResult result (IsRelaxed tables.now (kept_by kept.now) pivots) (IsLiftRefused tables.now (kept_by kept.now) pivots) }
    ensures ended { IsEnded outcome result }
{
    match outcome {
        Outcome::Best { basis, .. } => {
            let best = lift_best_with(alloc, table, basis.as_slice(), tables, kept, outline)?;
            Ok(Relaxed::Bounded(best))
        }
        Outcome::NoPoint { basis, .. } => {
            let basis = basis.as_slice();
            let prices = lift_refusal_with(alloc, table, basis, tables, kept, outline)?;
            Ok(Relaxed::Refuted(prices))
        }
        Outcome::Ray { .. } => unreachable!(),
        Outcome::Spent { pivots } => Ok(Relaxed::Stopped(Cause::Pivots { made: pivots })),
        Outcome::Grew {
            pivots,
            row,
            column,
        } => Ok(Relaxed::Stopped(Cause::Grew {
            pivots,
            row: u64::from(row),
            column: u64::from(column),
        })),
    }
}
