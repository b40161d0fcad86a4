//! Prices and fractional assignments from last tables, by the outline of the subproblem's linear program.
ghost use Rattle.std.specs.Prelude.{◌≡◌, ℕ, List, None, IfOk, IfErr, MatchResult};
ghost use Rattle.fleet_model.specs.Kept.{kept_by};
ghost use Rattle.fleet_model.specs.Schedule.{legs_in};
ghost use Rattle.simplex_frac.specs.declared.turn.Turn.TheVariants as turns;
ghost use Rattle.lp_rows.specs.Layout.{starts_in};
ghost use Rattle.lp_rows.specs.Outline.{IsOutline};
ghost use Rattle.simplex_frac.specs.dual_lift.Readings.{duals_by, duals_excess};
ghost use Rattle.simplex_frac.specs.dual_lift.TooLarge.{IsLiftError, refusal_value_excess};
ghost use Rattle.price_lift.specs.Duals.{best_duals, refusal_duals};
ghost use Rattle.price_lift.specs.Ends.{Ends};
ghost use Rattle.price_lift.specs.LastTables.{IsLastBy, IsPointBy, IsRefusalBy, none_excess, point_excess, prices_excess_by};
ghost use Rattle.price_lift.specs.Lifted.{AreNodePrices, IsLiftedPoint, IsLiftedRefusal};
ghost use Rattle.price_lift.specs.PaidBack.{FitsBy, IsLiftErrorBy};
ghost use Rattle.price_lift.specs.TooLarge.{best_duals_excess, best_excess, first_priced, refusal_excess};
ghost use Rattle.price_lift.specs.Wanted.{IsWantedBehind};

use crate::best_point::BestPoint;
use crate::paying::paid_back;
use crate::pricing::prices_of;
use crate::weighing::basic_mixed;
use dual_bound::Prices;
use fleet_model::{Kept, Tables};
use lp_rows::Outline;
use row_store::RowStore;
use simplex_frac::dual_lift::{LiftError, Mixture, Reading, duals};
use std::alloc::Global;

/// `lift_best` by the outline of the kept pairs.
pub fn lift_best_with<R: RowStore>(
    alloc: Global,
    table: &R,
    basis: &[u32],
    tables: &Tables,
    kept: &Kept,
    outline: &Outline,
) -> Result<BestPoint, LiftError>
    requires outline { IsOutline tables.now (kept_by kept.now) outline.now }
    requires ends { Ends tables.now (kept_by kept.now) turns.Best (R.content table.now) basis.now }
    ensures lifted { IfOk result (IsLiftedPoint tables.now (kept_by kept.now) (R.content table.now) basis.now (best_duals tables.now (R.content table.now))) }
    ensures fits { IfOk result (λ _. FitsBy tables.now (kept_by kept.now) (best_excess tables.now (kept_by kept.now) (R.content table.now) basis.now)) }
    ensures too_large { IfErr result (IsLiftErrorBy tables.now (kept_by kept.now) (best_excess tables.now (kept_by kept.now) (R.content table.now) basis.now)) }
    ensures memory { IfErr result (IsWantedBehind (best_duals_excess tables.now (R.content table.now))) }
{
    let mixture = Mixture::of(table, outline.column_count())?;
    let reading = Reading::BothRows(mixture);
    lift_point(alloc, table, basis, &reading, tables, kept, outline)
}

/// `lift_refusal` by the outline of the kept pairs.
pub fn lift_refusal_with<R: RowStore>(
    alloc: Global,
    table: &R,
    basis: &[u32],
    tables: &Tables,
    kept: &Kept,
    outline: &Outline,
) -> Result<Prices, LiftError>
    requires outline { IsOutline tables.now (kept_by kept.now) outline.now }
    requires ends { Ends tables.now (kept_by kept.now) turns.NoPoint (R.content table.now) basis.now }
    ensures lifted { IfOk result (IsLiftedRefusal tables.now (kept_by kept.now) (refusal_duals tables.now (R.content table.now))) }
    ensures fits { IfOk result (λ _. FitsBy tables.now (kept_by kept.now) (refusal_excess tables.now (kept_by kept.now) (R.content table.now))) }
    ensures too_large { IfErr result (IsLiftErrorBy tables.now (kept_by kept.now) (refusal_excess tables.now (kept_by kept.now) (R.content table.now))) }
    ensures memory { IfErr result (IsWantedBehind (first_priced tables.now (R.content table.now) (refusal_value_excess (R.content table.now)))) }
{
    lift_none(alloc, table, &Reading::PhaseRow, tables, kept, outline)
}

// Prices, and the weights of the basic point, where it is a cheapest one.
fn lift_point<R: RowStore>(
    alloc: Global,
    table: &R,
    basis: &[u32],
    reading: &Reading,
    tables: &Tables,
    kept: &Kept,
    outline: &Outline,
) -> Result<BestPoint, LiftError>
    requires outline { IsOutline tables.now (kept_by kept.now) outline.now }
    requires ends { IsPointBy tables.now (kept_by kept.now) (R.content table.now) basis.now reading.now }
    ensures lifted { MatchResult result
        (λ best. (point_excess tables.now (kept_by kept.now) (R.content table.now) basis.now reading.now (starts_in outline.now.network) ≡ None)
        × IsLiftedPoint tables.now (kept_by kept.now) (R.content table.now) basis.now (duals_by (R.content table.now) reading.now (legs_in tables.now)) best)
        (IsLiftError (point_excess tables.now (kept_by kept.now) (R.content table.now) basis.now reading.now (starts_in outline.now.network))) }
    ensures memory { IfErr result (IsWantedBehind (duals_excess (R.content table.now) reading.now (legs_in tables.now))) }
{
    let before = lift_prices(alloc, table, reading, tables, kept, outline)?;
    let mixed = basic_mixed(alloc, table, basis, outline)?;
    let prices = paid_back(alloc, tables, outline, before)?;
    Ok(BestPoint { prices, mixed })
}

// Prices alone, where no point meets the lines.
fn lift_none<R: RowStore>(
    alloc: Global,
    table: &R,
    reading: &Reading,
    tables: &Tables,
    kept: &Kept,
    outline: &Outline,
) -> Result<Prices, LiftError>
    requires outline { IsOutline tables.now (kept_by kept.now) outline.now }
    requires ends { (basis : List ℕ) × IsRefusalBy tables.now (kept_by kept.now) (R.content table.now) basis reading.now }
    ensures lifted { MatchResult result
        (λ prices. (none_excess tables.now (kept_by kept.now) (R.content table.now) reading.now (starts_in outline.now.network) ≡ None)
        × IsLiftedRefusal tables.now (kept_by kept.now) (duals_by (R.content table.now) reading.now (legs_in tables.now)) prices)
        (IsLiftError (none_excess tables.now (kept_by kept.now) (R.content table.now) reading.now (starts_in outline.now.network))) }
    ensures memory { IfErr result (IsWantedBehind (duals_excess (R.content table.now) reading.now (legs_in tables.now))) }
{
    let before = lift_prices(alloc, table, reading, tables, kept, outline)?;
    paid_back(alloc, tables, outline, before)
}

// The prices by the nodes of the dual values that are read so.
fn lift_prices<R: RowStore>(
    alloc: Global,
    table: &R,
    reading: &Reading,
    tables: &Tables,
    kept: &Kept,
    outline: &Outline,
) -> Result<Prices, LiftError>
    requires outline { IsOutline tables.now (kept_by kept.now) outline.now }
    requires ends { (basis : List ℕ) × IsLastBy tables.now (kept_by kept.now) (R.content table.now) basis reading.now }
    ensures prices { MatchResult result
        (λ prices. (prices_excess_by tables.now (R.content table.now) reading.now ≡ None)
        × AreNodePrices tables.now (kept_by kept.now) (starts_in outline.now.network) (duals_by (R.content table.now) reading.now (legs_in tables.now)) prices)
        (IsLiftError (prices_excess_by tables.now (R.content table.now) reading.now)) }
    ensures memory { IfErr result (IsWantedBehind (duals_excess (R.content table.now) reading.now (legs_in tables.now))) }
{
    let columns = outline.column_count();
    let duals = duals(alloc, table, reading, columns, outline.first_priced_line())?;
    prices_of(alloc, tables, outline, duals)
}
