//! What the prices are worth that runs give.
ghost use Rattle.std.specs.Prelude.{IfOk, IfSome};
ghost use Rattle.dual_bound.specs.Prices.{ArePrices};

use crate::assertions::assert_same;
use crate::hint_lifts::lifted_by_hint;
use crate::lifting::lifted;
use dual_bound::Prices;
use dual_bound::worth::worth;
use fleet_model::{Kept, Tables};
use price_lift::LiftError;
use std::alloc::Global;
use std::process::Abort;

/// How prices are found.
#[derive(Clone, Copy)]
pub enum Way {
    /// By the proved run.
    ByRun,
    /// By a hint that is checked.
    ByHint,
}

/// The prices that a way gives over a subproblem's lines; nothing where it gives up.
pub fn lifted_by(
    alloc: Global,
    tables: &Tables,
    kept: &Kept,
    way: Way,
) -> Result<Option<Prices>, LiftError>
    ensures { IfOk result (λ found. IfSome found (ArePrices tables.now)) }
{
    match way {
        Way::ByRun => Ok(lifted(alloc, tables, kept)?),
        Way::ByHint => Ok(lifted_by_hint(alloc, tables, kept)?),
    }
}

/// Asserts what prices are worth.
pub fn assert_worth<R: Abort>(rt: &R, tables: &Tables, kept: &Kept, prices: &Prices, cost: i128)
    requires { ArePrices tables.now prices.now }
{
    let wanted = cost.checked_mul(prices.scale);
    assert_same(rt, Some(worth(tables, kept, prices, 1)), wanted);
}
