//! Prices from the ends of the proved run.
ghost use Rattle.std.specs.Prelude.{IfOk, IfSome};
ghost use Rattle.dual_bound.specs.Prices.{ArePrices};

use dual_bound::Prices;
use fleet_model::{Kept, Tables};
use lp_rows::rows;
use price_lift::{LiftError, lift_best, lift_refusal};
use row_store::{Dense, RowStore};
use simplex_frac::{Outcome, solve};
use std::alloc::Global;

/// The prices that the run over a subproblem's lines gives; nothing where it is spent or has grown too large.
pub fn lifted(alloc: Global, tables: &Tables, kept: &Kept) -> Result<Option<Prices>, LiftError>
    ensures { IfOk result (λ found. IfSome found (ArePrices tables.now)) }
{
    let rows = rows(alloc, tables, kept)?;
    let mut table = Dense::start(alloc, &rows)?;
    match solve(alloc, &mut table, rows.columns, 1_000)? {
        Outcome::Best { basis, .. } => {
            let lifted = lift_best(alloc, &table, basis.as_slice(), tables, kept)?;
            Ok(Some(lifted.prices))
        }
        Outcome::NoPoint { basis, .. } => {
            let lifted = lift_refusal(alloc, &table, basis.as_slice(), tables, kept)?;
            Ok(Some(lifted.prices))
        }
        _ => Ok(None),
    }
}
