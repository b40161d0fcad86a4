ghost use Rattle.std.specs.Prelude.{◌≡◌, ℕ, None, pos, ◌<ℤ◌, IfOk, IfErr, IsSomeAnd};
ghost use Rattle.frac_row.specs.Row.{reduced};
ghost use Rattle.fleet_model.specs.Kept.{IsBare, kept_by};
ghost use Rattle.simplex_frac.specs.declared.turn.Turn.TheVariants as turns;
ghost use Rattle.dual_bound.specs.Fractions.{IsMixedAt, IsWorth};
ghost use Rattle.dual_bound.specs.OfTables.{ArePricesOf, IsMixedOf};
ghost use Rattle.dual_bound.specs.Prices.{ArePrices};
ghost use Rattle.dual_bound.specs.Worth.{worth_of};
ghost use Rattle.dual_bound.specs.WrittenOrder.{ArePricesInOrder, IsMixedInOrder};
ghost use Rattle.price_lift.specs.Duals.{best_duals, refusal_duals};
ghost use Rattle.price_lift.specs.Ends.{Ends};
ghost use Rattle.price_lift.specs.PaidBack.{ArePaidBack, FitsBy, IsLiftErrorBy};
ghost use Rattle.price_lift.specs.TooLarge.{best_excess, refusal_excess};
ghost use Rattle.price_lift.specs.Weights.{AreBasicWeights};

use crate::best_point::BestPoint;
use crate::lifting::{lift_best_with, lift_refusal_with};
use dual_bound::{Mixed, Prices};
use fleet_model::{Kept, Tables};
use lp_rows::Outline;
use row_store::RowStore;
use simplex_frac::dual_lift::LiftError;
use std::alloc::Global;

/// What the last table of a run says of its subproblem.
#[derive(Drop)]
pub struct Lifted {
    /// Proper prices.
    pub prices: Prices,
    /// A fractional assignment that costs what the prices are worth; none where no point meets the lines.
    pub mixed: Option<Mixed>,
}

/// Prices and a cheapest fractional assignment from the table and the basis with which the run over a subproblem's
/// lines ended at a cheapest point. The prices are the dual values of balance, count and parking lines in lowest terms, and
/// their worth is the cost of the fractional assignment, both over their scales (linear duality). Where they rise over an
/// arc that went, the rise goes to the arc's moment and is paid back.
///
/// It looks at each number of the phase row and of the cost row a few times, and at each line's right side.
pub fn lift_best<R: RowStore>(
    alloc: Global,
    table: &R,
    basis: &[u32],
    tables: &Tables,
    kept: &Kept,
) -> Result<Lifted, LiftError>
    requires { Ends tables.now (kept_by kept.now) turns.Best (R.content table.now) basis.now }
    ensures scale { IfOk result (λ lifted. lifted.prices.scale ≡ (reduced (best_duals tables.now (R.content table.now))).den) }
    ensures prices { IfOk result (λ lifted. ArePaidBack tables.now (kept_by kept.now) (best_duals tables.now (R.content table.now)) lifted.prices) }
    ensures of_tables { IfOk result (λ lifted. ArePricesOf tables.now lifted.prices) }
    ensures proper { IfOk result (λ lifted. ArePrices tables.now lifted.prices) }
    ensures in_order { IfOk result (λ lifted. ArePricesInOrder tables.now lifted.prices) }
    ensures weights { IfOk result (λ lifted. IsSomeAnd lifted.mixed (AreBasicWeights tables.now (kept_by kept.now) (R.content table.now) basis.now)) }
    ensures known { IfOk result (λ lifted. IsSomeAnd lifted.mixed (IsMixedOf tables.now)) }
    ensures weights_in_order { IfOk result (λ lifted. IsSomeAnd lifted.mixed (IsMixedInOrder tables.now)) }
    ensures plan { IfOk result (λ lifted. IsSomeAnd lifted.mixed (IsMixedAt tables.now (kept_by kept.now))) }
    ensures value { IfOk result (λ lifted. IsSomeAnd lifted.mixed (IsWorth tables.now (kept_by kept.now) lifted.prices)) }
    ensures fits { IfOk result (λ _. FitsBy tables.now (kept_by kept.now) (best_excess tables.now (kept_by kept.now) (R.content table.now) basis.now)) }
    ensures too_large { IfErr result (IsLiftErrorBy tables.now (kept_by kept.now) (best_excess tables.now (kept_by kept.now) (R.content table.now) basis.now)) }
{
    let outline = Outline::new(alloc, tables, kept)?;
    let BestPoint { prices, mixed } = lift_best_with(alloc, table, basis, tables, kept, &outline)?;
    Ok(Lifted {
        prices,
        mixed: Some(mixed),
    })
}

/// Prices that show that nothing in a subproblem is legal, from the table and the basis with which the run over its
/// lines ended where no point meets them. Their worth without costs is above 0 where each leg keeps a pair.
pub fn lift_refusal<R: RowStore>(
    alloc: Global,
    table: &R,
    basis: &[u32],
    tables: &Tables,
    kept: &Kept,
) -> Result<Lifted, LiftError>
    requires { Ends tables.now (kept_by kept.now) turns.NoPoint (R.content table.now) basis.now }
    ensures scale { IfOk result (λ lifted. lifted.prices.scale ≡ (reduced (refusal_duals tables.now (R.content table.now))).den) }
    ensures prices { IfOk result (λ lifted. ArePaidBack tables.now (kept_by kept.now) (refusal_duals tables.now (R.content table.now)) lifted.prices) }
    ensures of_tables { IfOk result (λ lifted. ArePricesOf tables.now lifted.prices) }
    ensures proper { IfOk result (λ lifted. ArePrices tables.now lifted.prices) }
    ensures in_order { IfOk result (λ lifted. ArePricesInOrder tables.now lifted.prices) }
    ensures no_plan { IfOk result (λ lifted. lifted.mixed ≡ None) }
    ensures refutes { IfOk result (λ lifted. ((l : ℕ) → ¬ (IsBare tables.now (kept_by kept.now) l)) → pos 0 <ℤ worth_of tables.now (kept_by kept.now) lifted.prices 0) }
    ensures fits { IfOk result (λ _. FitsBy tables.now (kept_by kept.now) (refusal_excess tables.now (kept_by kept.now) (R.content table.now))) }
    ensures too_large { IfErr result (IsLiftErrorBy tables.now (kept_by kept.now) (refusal_excess tables.now (kept_by kept.now) (R.content table.now))) }
{
    let outline = Outline::new(alloc, tables, kept)?;
    let prices = lift_refusal_with(alloc, table, basis, tables, kept, &outline)?;
    Ok(Lifted {
        prices,
        mixed: None,
    })
}
