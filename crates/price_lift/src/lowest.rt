//! Dual values in lowest terms, within the limits of prices.
ghost use Rattle.std.specs.Prelude.{◌≡◌, ◌<◌, ◌^◌, length, None, Some, MatchResult};
ghost use Rattle.frac_row.specs.Row.{IsRow, reduced, width_of};
ghost use Rattle.dual_bound.specs.Prices.{max_price, max_scale};
ghost use Rattle.price_lift.specs.TooLarge.{prices_excess};

use dual_bound::prices::{MAX_PRICE, MAX_SCALE};
use frac_row::FracRow;
use simplex_frac::dual_lift::{Excess, Limits};

/// The same values in lowest terms, where their scale and they themselves are within the limits of prices. They are those
/// of the lines from the first given one on.
pub(crate) fn lowest(first: u32, duals: FracRow) -> Result<FracRow, Excess>
    requires row { IsRow duals }
    requires few { width_of duals < 2 ^ 32 }
    ensures { MatchResult result
        (λ lowest. (prices_excess first duals ≡ None) × (lowest ≡ reduced duals))
        (λ excess. prices_excess first duals ≡ Some excess) }
{
    simplex_frac::dual_lift::lowest(first, duals, &price_limits())
}

/// Whether values over a scale are within the limits of prices in lowest terms. Takes no memory.
pub(crate) fn fits(first: u32, values: &[i128], scale: &i128) -> Result<(), Excess>
    requires row { IsRow (record { numbers = values.now; den = scale.now }) }
    requires few { length values.now < 2 ^ 32 }
    ensures { MatchResult result
        (λ _. prices_excess first (record { numbers = values.now; den = scale.now }) ≡ None)
        (λ excess. prices_excess first (record { numbers = values.now; den = scale.now }) ≡ Some excess) }
{
    simplex_frac::dual_lift::fits(first, values, scale, &price_limits())
}

// The limits of prices.
fn price_limits() -> Limits
    ensures scale { result.scale ≡ max_scale }
    ensures value { result.value ≡ max_price }
{
    Limits {
        scale: MAX_SCALE as u64,
        value: MAX_PRICE as u128,
    }
}
