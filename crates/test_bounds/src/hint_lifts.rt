//! Prices from ends that are found and checked.
ghost use Rattle.std.specs.Prelude.{IfOk, IfSome};
ghost use Rattle.dual_bound.specs.Prices.{ArePrices};
ghost use Rattle.fleet_model.specs.Kept.{kept_by};
ghost use Rattle.row_store.specs.Problem.{IsProblem};
ghost use Rattle.lp_rows.specs.Outline.{IsOutline};
ghost use Rattle.lp_rows.specs.Points.{AreLinesOf};

use dual_bound::Prices;
use exact_ends::DualSimplex;
use fleet_model::{Kept, Tables};
use lp_rows::Program;
use price_lift::{LiftError, lift_end, lift_refusing_end};
use simplex_frac::end_check::{EndFinder, Hint, PointHint, RefusalHint, is_end, refuses};
use std::alloc::Global;

/// The prices that a hint over a subproblem's lines gives; nothing where none is found, or where it is no end.
pub fn lifted_by_hint(
    alloc: Global,
    tables: &Tables,
    kept: &Kept,
) -> Result<Option<Prices>, LiftError>
    ensures { IfOk result (λ found. IfSome found (ArePrices tables.now)) }
{
    let program = Program::new(alloc, tables, kept)?;
    match DualSimplex::find(alloc, &program, 1_000)? {
        Some(Hint::Point(point)) => lifted_point(alloc, &program, &point, tables, kept),
        Some(Hint::Refusal(refusal)) => lifted_refusal(alloc, &program, &refusal, tables, kept),
        None => Ok(None),
    }
}

/// The prices that a point gives, where it is an end.
pub fn lifted_point(
    alloc: Global,
    program: &Program,
    point: &PointHint,
    tables: &Tables,
    kept: &Kept,
) -> Result<Option<Prices>, LiftError>
    requires outline { IsOutline tables.now (kept_by kept.now) program.now.outline }
    requires lines { AreLinesOf tables.now (kept_by kept.now) program.now.rows }
    requires problem { IsProblem program.now.rows }
    ensures { IfOk result (λ found. IfSome found (ArePrices tables.now)) }
{
    if is_end(alloc, &program.rows, point)? {
        let best = lift_end(alloc, point, tables, kept, &program.outline)?;
        return Ok(Some(best.prices));
    }
    Ok(None)
}

/// The prices that multipliers give, where they refuse all points.
pub fn lifted_refusal(
    alloc: Global,
    program: &Program,
    refusal: &RefusalHint,
    tables: &Tables,
    kept: &Kept,
) -> Result<Option<Prices>, LiftError>
    requires outline { IsOutline tables.now (kept_by kept.now) program.now.outline }
    requires lines { AreLinesOf tables.now (kept_by kept.now) program.now.rows }
    requires problem { IsProblem program.now.rows }
    ensures { IfOk result (λ found. IfSome found (ArePrices tables.now)) }
{
    if refuses(alloc, &program.rows, refusal)? {
        let prices = lift_refusing_end(alloc, refusal, tables, kept, &program.outline)?;
        return Ok(Some(prices));
    }
    Ok(None)
}
