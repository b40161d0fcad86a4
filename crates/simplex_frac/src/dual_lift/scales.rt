//! The least scale that makes the right sides of lines whole.
ghost use Rattle.std.specs.Prelude.{◌≡◌, ◌<◌, true, false, nat_lt, pos, ◌<ℤ◌, ◌≤ℤ◌, length, None, Some, IfOk, MatchResult, MatchOption, unsigned_abs};
ghost use Rattle.sums.specs.Places.{first_below};
ghost use Rattle.frac_row.specs.Outgrown.{IsWithin};
ghost use Rattle.row_store.specs.Table.{HasColumns, height_of};
ghost use Rattle.simplex_frac.specs.dual_lift.Scales.{lcm, lowest_den, scale_below};
ghost use Rattle.simplex_frac.specs.dual_lift.TooLarge.{least_scale_excess};

use crate::dual_lift::error::{Excess, WEIGHTS_STEP};
use crate::dual_lift::numbers::{common_divisor, quotient};
use crate::dual_lift::rows::{line_den, right_side};
use frac_row::growth::product;
use row_store::RowStore;

/// The least scale that makes the right sides of all lines whole whose basic column is among the first so many, unless it
/// passes its limit. The table has so many real columns. Takes no memory.
pub fn least_scale<R: RowStore>(
    table: &R,
    basis: &[u32],
    columns: u32,
    wanted: u32,
    most: u64,
) -> Result<i128, Excess>
    requires basis { length basis.now ≡ height_of (R.content table.now) }
    requires columns { HasColumns (R.content table.now) columns }
    requires limit { 0 < most }
    ensures some { IfOk result (λ scale. pos 0 <ℤ scale) }
    ensures within { IfOk result (λ scale. scale ≤ℤ pos most) }
    ensures scale { MatchResult result
        (λ scale. (first_below (least_scale_excess most (R.content table.now) basis.now wanted) (height_of (R.content table.now)) ≡ None)
        × (scale ≡ pos (scale_below (R.content table.now) basis.now wanted (height_of (R.content table.now)))))
        (λ excess. first_below (least_scale_excess most (R.content table.now) basis.now wanted) (height_of (R.content table.now)) ≡ Some excess) }
{
    let mut scale = 1;
    for line in 0..table.height() {
        if basis[line as usize] < wanted {
            let den = lowest_den(table, columns, line);
            scale = match common_scale(&scale, &den, most) {
                Some(common) => common,
                None => {
                    return Err(Excess {
                        step: WEIGHTS_STEP,
                        at: line.into(),
                    });
                }
            };
        }
    }
    Ok(scale)
}

// The least common multiple of two scales, within a limit.
fn common_scale(scale: &i128, den: &i128, most: u64) -> Option<i128>
    requires some { pos 0 <ℤ scale.now }
    requires scale { IsWithin scale.now }
    requires some_den { pos 0 <ℤ den.now }
    requires den { IsWithin den.now }
    ensures { MatchOption result (nat_lt most (lcm (unsigned_abs scale.now) (unsigned_abs den.now)) ≡ true)
        (λ common. (nat_lt most (lcm (unsigned_abs scale.now) (unsigned_abs den.now)) ≡ false) × (common ≡ pos (lcm (unsigned_abs scale.now) (unsigned_abs den.now)))) }
{
    let divisor = common_divisor(scale, den);
    match product(&quotient(scale, &divisor), den) {
        Some(common) if common <= i128::from(most) => Some(common),
        _ => None,
    }
}

// The denominator of a line's right side, in lowest terms.
fn lowest_den<R: RowStore>(table: &R, columns: u32, line: u32) -> i128
    requires columns { HasColumns (R.content table.now) columns }
    requires line { line < height_of (R.content table.now) }
    ensures value { result ≡ pos (lowest_den (R.content table.now) line) }
    ensures positive { pos 0 <ℤ result }
    ensures within { IsWithin result }
{
    let den = line_den(table, line);
    let divisor = common_divisor(&right_side(table, columns, line), &den);
    quotient(&den, &divisor)
}
