//! Dual values in lowest terms, within limits.
ghost use Rattle.std.specs.Prelude.{◌≡◌, ◌<◌, ◌^◌, None, Some, MatchResult, length, nat_lt, pos, ◌<ℤ◌, unsigned_abs};
ghost use Rattle.frac_row.specs.Row.{IsRow, common_divisor, reduced, width_of};
ghost use Rattle.simplex_frac.specs.dual_lift.TooLarge.{lowest_excess};

use crate::dual_lift::error::{Excess, PRICE_SCALE_STEP, PRICES_STEP};
use crate::dual_lift::numbers::quotient;
use frac_row::{FracRow, gcd, reduce};

/// How large dual values in lowest terms may be.
#[derive(Clone, Copy)]
pub struct Limits {
    /// The greatest scale.
    pub scale: u64,
    /// The greatest size of a value over it.
    pub value: u128,
}

/// The same values in lowest terms, where their scale and they themselves are within their limits. They are those of the
/// lines from the first given one on. Takes no memory.
pub fn lowest(first: u32, duals: FracRow, limits: &Limits) -> Result<FracRow, Excess>
    requires row { IsRow duals }
    requires few { width_of duals < 2 ^ 32 }
    ensures { MatchResult result
        (λ lowest. (lowest_excess limits.now.scale limits.now.value first duals ≡ None) × (lowest ≡ reduced duals))
        (λ excess. lowest_excess limits.now.scale limits.now.value first duals ≡ Some excess) }
{
    fits(first, duals.numbers.as_slice(), &duals.den, limits)?;
    let mut lowest = duals;
    reduce(&mut lowest);
    Ok(lowest)
}

/// That values over a scale, in lowest terms, are within their limits, or what is first past its limit. They are those of
/// the lines from the first given one on. Takes no memory.
pub fn fits(first: u32, values: &[i128], scale: &i128, limits: &Limits) -> Result<(), Excess>
    requires row { IsRow (record { numbers = values.now; den = scale.now }) }
    requires few { length values.now < 2 ^ 32 }
    ensures { MatchResult result
        (λ _. lowest_excess limits.now.scale limits.now.value first (record { numbers = values.now; den = scale.now }) ≡ None)
        (λ excess. lowest_excess limits.now.scale limits.now.value first (record { numbers = values.now; den = scale.now }) ≡ Some excess) }
{
    let divisor = divisor_of(values, scale);
    if quotient(scale, &divisor) > i128::from(limits.scale) {
        return Err(Excess {
            step: PRICE_SCALE_STEP,
            at: 0,
        });
    }
    for place in 0..values.len() as u32 {
        let value = quotient(&values[place as usize], &divisor);
        if is_past(&value, limits.value) {
            return Err(Excess {
                step: PRICES_STEP,
                at: u64::from(first) + u64::from(place),
            });
        }
    }
    Ok(())
}

// The greatest common divisor of values and their scale.
fn divisor_of(values: &[i128], scale: &i128) -> i128
    requires { IsRow (record { numbers = values.now; den = scale.now }) }
    ensures value { result ≡ pos (common_divisor (record { numbers = values.now; den = scale.now })) }
    ensures positive { pos 0 <ℤ result }
{
    let mut divisor = *scale;
    for value in values {
        divisor = gcd(divisor, *value);
    }
    divisor
}

// Whether the size of a number passes its limit.
fn is_past(number: &i128, most: u128) -> bool
    ensures { result ≡ nat_lt most (unsigned_abs number.now) }
{
    number.unsigned_abs() > most
}
