//! How often the phase row is added to the cost row, and over which scale.
ghost use Rattle.std.specs.Prelude.{◌≡◌, ◌<◌, pos, ◌<ℤ◌, true, false, None, Some, MatchOption, MatchResult};
ghost use Rattle.sums.specs.Places.{first_below};
ghost use Rattle.frac_row.specs.Outgrown.{IsWithin};
ghost use Rattle.row_store.specs.Table.{HasColumns};
ghost use Rattle.simplex_frac.specs.dual_lift.Duals.{best_scale, phases_added, phases_for, phases_wanted, real_columns};
ghost use Rattle.simplex_frac.specs.dual_lift.Mixture.{HasPhases, IsMixture};
ghost use Rattle.simplex_frac.specs.dual_lift.TooLarge.{phases_excess, phases_for_outgrown, scale_excess};

use crate::dual_lift::error::{Excess, PHASES_STEP, SCALE_STEP};
use crate::dual_lift::numbers::{ceiling, common_divisor, greater, opposite, quotient};
use crate::dual_lift::rows::{cost_den, cost_number, phase_den, phase_number};
use frac_row::growth::product;
use row_store::RowStore;

/// The cost row with so many of the phase row, both over one scale.
#[derive(Clone, Copy)]
pub struct Mixture {
    /// How often the phase row is added.
    pub phases: i128,
    /// The denominator of the phase row over the greatest common divisor of both denominators.
    pub phase_part: i128,
    /// That of the cost row over the same.
    pub cost_part: i128,
}

impl Mixture {
    /// With so many of the phase row no real column is negative.
    pub fn of<R: RowStore>(table: &R, columns: u32) -> Result<Mixture, Excess>
        requires columns { HasColumns (R.content table.now) columns }
        requires phases { HasPhases (R.content table.now) }
        ensures { MatchResult result
            (λ mixture. (first_below (phases_excess (R.content table.now)) (real_columns (R.content table.now)) ≡ None) × IsMixture (R.content table.now) mixture)
            (λ excess. first_below (phases_excess (R.content table.now)) (real_columns (R.content table.now)) ≡ Some excess) }
    {
        let phases = phases_added(table, columns)?;
        let phase_den = phase_den(table);
        let cost_den = cost_den(table);
        let divisor = common_divisor(&phase_den, &cost_den);
        Ok(Mixture {
            phases,
            phase_part: quotient(&phase_den, &divisor),
            cost_part: quotient(&cost_den, &divisor),
        })
    }
}

/// The common scale of both rows.
pub fn best_scale<R: RowStore>(table: &R, mixture: &Mixture) -> Result<i128, Excess>
    requires { IsMixture (R.content table.now) mixture.now }
    ensures { MatchResult result
        (λ scale. (scale_excess (R.content table.now) ≡ None) × (scale ≡ best_scale (R.content table.now)))
        (λ excess. scale_excess (R.content table.now) ≡ Some excess) }
{
    match product(&mixture.phase_part, &cost_den(table)) {
        Some(scale) => Ok(scale),
        None => Err(Excess {
            step: SCALE_STEP,
            at: 0,
        }),
    }
}

// How often the phase row is added before no real column is negative.
fn phases_added<R: RowStore>(table: &R, columns: u32) -> Result<i128, Excess>
    requires columns { HasColumns (R.content table.now) columns }
    requires phases { HasPhases (R.content table.now) }
    ensures { MatchResult result
        (λ phases. (first_below (phases_excess (R.content table.now)) (real_columns (R.content table.now)) ≡ None) × (phases ≡ pos (phases_added (R.content table.now))))
        (λ excess. first_below (phases_excess (R.content table.now)) (real_columns (R.content table.now)) ≡ Some excess) }
{
    let mut most = 0;
    for column in 0..columns {
        let wanted = phases_wanted(table, column)?;
        most = greater(&most, &wanted);
    }
    Ok(most)
}

// How often it is added before this column is not negative.
fn phases_wanted<R: RowStore>(table: &R, column: u32) -> Result<i128, Excess>
    requires column { column < real_columns (R.content table.now) }
    requires phases { HasPhases (R.content table.now) }
    ensures { MatchResult result
        (λ wanted. (phases_excess (R.content table.now) column ≡ None) × (wanted ≡ pos (phases_wanted (R.content table.now) column)))
        (λ excess. phases_excess (R.content table.now) column ≡ Some excess) }
{
    let cost = cost_number(table, column);
    let phase = phase_number(table, column);
    match phases_for(&cost, &cost_den(table), &phase, &phase_den(table)) {
        Some(phases) => Ok(phases),
        None => Err(Excess {
            step: PHASES_STEP,
            at: column.into(),
        }),
    }
}

// How often one number, over its denominator, has to be added to another before that is not negative.
fn phases_for(cost: &i128, cost_den: &i128, phase: &i128, phase_den: &i128) -> Option<i128>
    requires cost { IsWithin cost.now }
    requires cost_den { pos 0 <ℤ cost_den.now }
    requires phase { cost.now <ℤ pos 0 → pos 0 <ℤ phase.now }
    requires phase_den { pos 0 <ℤ phase_den.now }
    ensures { MatchOption result (phases_for_outgrown cost.now cost_den.now phase.now phase_den.now ≡ true)
        (λ phases. (phases_for_outgrown cost.now cost_den.now phase.now phase_den.now ≡ false) × (phases ≡ pos (phases_for cost.now cost_den.now phase.now phase_den.now))) }
{
    if *cost >= 0 {
        return Some(0);
    }
    let below_zero = opposite(cost);
    let Some(wanted) = product(&below_zero, phase_den) else {
        return None;
    };
    let Some(given) = product(phase, cost_den) else {
        return None;
    };
    Some(ceiling(&wanted, &given))
}
