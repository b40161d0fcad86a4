//! The search for an end of a subproblem's lines, which is trusted in nothing: it finds a hint, and a check decides whether that is an
//! end. What an end settles is told by prices.
ghost use Rattle.std.specs.Prelude.{◌≡◌, ℕ, IfErr, IfOk, IfSome, IsTrue};
ghost use Rattle.fleet_model.specs.Kept.{IsBare, kept_by};
ghost use Rattle.row_store.specs.Problem.{IsProblem};
ghost use Rattle.lp_rows.specs.Outline.{IsOutline};
ghost use Rattle.price_lift.specs.PaidBack.{IsLiftErrorBy};
ghost use Rattle.node_bounding.specs.Tried.{EndsLines, IsEndIn, Settles, excess_from};

use crate::relaxing::Relaxed;
use entries::NoMemory;
use fleet_model::{Kept, Tables};
use lp_rows::{Outline, Program};
use price_lift::{LiftError, lift_end, lift_refusing_end};
use row_store::Rows;
use simplex_frac::end_check::{EndFinder, Hint, is_end, refuses};
use std::alloc::Global;

/// The end that `S` finds in a program's lines, with at most so many steps after its start: where steps are allowed, there is a hint,
/// and it is an end of the lines.
pub(crate) fn end_of<S: EndFinder<Program>>(
    alloc: Global,
    program: &Program,
    steps: u64,
) -> Result<Option<Hint>, NoMemory>
    requires { IsProblem program.now.rows }
    ensures { IfOk result (λ end. IfSome end (IsEndIn program.now.rows)) }
{
    if steps == 0 {
        return Ok(None);
    }
    let Some(hint) = S::find(alloc, program, steps)? else {
        return Ok(None);
    };
    let ends = ends_in(alloc, &program.rows, &hint)?;
    Ok(ends.then_some(hint))
}

// Whether a hint is an end of the lines, by its kind.
fn ends_in(alloc: Global, rows: &Rows, hint: &Hint) -> Result<bool, NoMemory>
    requires { IsProblem rows.now }
    ensures { IfOk result (λ is. IsTrue is → IsEndIn rows.now hint.now) }
{
    match hint {
        Hint::Point(point) => is_end(alloc, rows, point),
        Hint::Refusal(refusal) => refuses(alloc, rows, refusal),
    }
}

/// Tries to solve the linear relaxation of a subproblem by an end of its lines: what is lifted from it, by its kind.
///
/// Where prices or weights are too large to be lifted, nothing is settled. That is no cause for an open leaf.
pub(crate) fn tried(
    alloc: Global,
    end: &Hint,
    tables: &Tables,
    kept: &Kept,
    outline: &Outline,
) -> Result<Relaxed, LiftError>
    requires pairs { (leg : ℕ) → ¬ (IsBare tables.now (kept_by kept.now) leg) }
    requires outline { IsOutline tables.now (kept_by kept.now) outline.now }
    requires ends { EndsLines tables.now (kept_by kept.now) end.now }
    ensures settled { IfOk result (Settles tables.now (kept_by kept.now)) }
    ensures too_large { IfErr result (IsLiftErrorBy tables.now (kept_by kept.now) (excess_from tables.now (kept_by kept.now) end.now)) }
{
    match end {
        Hint::Point(point) => {
            let best = lift_end(alloc, point, tables, kept, outline)?;
            Ok(Relaxed::Bounded(best))
        }
        Hint::Refusal(refusal) => {
            let prices = lift_refusing_end(alloc, refusal, tables, kept, outline)?;
            Ok(Relaxed::Refuted(prices))
        }
    }
}
