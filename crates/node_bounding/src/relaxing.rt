//! The linear relaxation of a subproblem.
ghost use Rattle.std.specs.Prelude.{◌≡◌, ℕ, IfOk};
ghost use Rattle.fleet_model.specs.Kept.{IsBare, kept_by};
ghost use Rattle.node_bounding.specs.Relaxed.{IsLiftTold, IsRelaxed};

use crate::proved_run::proved_run;
use crate::trying::{end_of, tried};
use dual_bound::{Cause, Prices};
use entries::NoMemory;
use fleet_model::{Kept, Tables};
use lp_rows::Program;
use price_lift::{BestPoint, LiftError};
use row_store::Sparse;
use simplex_frac::end_check::EndFinder;
use std::alloc::Global;

/// How many steps the search may take after its start where the proved run has no budget: nothing says that it ends.
const SEARCH_STEPS: u64 = 1_000_000;

/// What the linear relaxation of a subproblem comes to.
#[derive(Drop)]
pub(crate) enum Relaxed {
    /// The prices refute the subproblem.
    Refuted(Prices),
    /// The best fractional assignment, and prices that are worth what it costs.
    Bounded(BestPoint),
    /// There are no prices.
    Stopped(Cause),
}

/// Solves the linear relaxation of a subproblem, with at most so many steps of the search and pivots of the proved run, or with no
/// budget for that run. The search is tried first, since it is mostly the sooner one; what it finds is a hint that is checked. Where
/// it settles nothing, the proved run decides, from the first table on. So why a subproblem is left open is told by the proved
/// run alone.
///
/// Both share one linear program. Its lines are dropped once a first table stands.
pub(crate) fn relax<S: EndFinder<Program>>(
    alloc: Global,
    tables: &Tables,
    kept: &Kept,
    pivots: Option<u64>,
) -> Result<Relaxed, NoMemory>
    requires { (leg : ℕ) → ¬ (IsBare tables.now (kept_by kept.now) leg) }
    ensures { IfOk result (IsRelaxed tables.now (kept_by kept.now) pivots) }
{
    let program = Program::new(alloc, tables, kept)?;
    let end = end_of::<S>(alloc, &program, pivots.unwrap_or(SEARCH_STEPS))?;
    if let Some(end) = end {
        match tried(alloc, &end, tables, kept, &program.outline) {
            Ok(settled) => return Ok(settled),
            Err(LiftError::NoMemory) => return Err(NoMemory),
            Err(LiftError::TooLarge { .. }) => {}
        }
    }
    let Program { outline, rows } = program;
    proved_run::<Sparse>(alloc, tables, kept, &outline, rows, pivots)
}

/// What is lifted from the last table of a run, where nothing is too large for that; and else there are no prices.
pub(crate) fn told(lifted: Result<Relaxed, LiftError>) -> Result<Relaxed, NoMemory>
    ensures { IsLiftTold lifted result }
{
    match lifted {
        Ok(relaxed) => Ok(relaxed),
        Err(LiftError::TooLarge { step, at }) => Ok(Relaxed::Stopped(Cause::Lift { step, at })),
        Err(LiftError::NoMemory) => Err(NoMemory),
    }
}
