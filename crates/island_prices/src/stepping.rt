//! Prices as steps: at each minute whose price is another than the one before.
ghost use Rattle.std.specs.Prelude.{◌≡◌, ◌≤◌, ◌<◌, ◌++◌, length, slice_index_or, pos, OnOk};
ghost use Rattle.island_prices.specs.Steps.{all_zero, is_minute_step, minute_step_where, steps_below};

use dual_bound::PriceStep;
use entries::NoMemory;

/// Puts the steps of a fleet's prices at a station behind those so far. The row has the price of each minute of the period, which is a
/// week at most.
pub(crate) fn push_steps(
    steps: &mut Vec<PriceStep>,
    row: &[i128],
    fleet: u32,
    station: u32,
) -> Result<(), NoMemory>
    requires { length row.now ≤ 10080 }
    ensures { OnOk result (steps.new.items ≡ steps.old.items ++ steps_below (length row.now) (λ m. slice_index_or row.now m (pos 0)) fleet station (length row.now)) }
{
    for minute in 0..row.len() as u16 {
        push_step(steps, row, fleet, station, minute)?;
    }
    Ok(())
}

// Puts the step at a minute behind those so far, where there is one.
fn push_step(
    steps: &mut Vec<PriceStep>,
    row: &[i128],
    fleet: u32,
    station: u32,
    minute: u16,
) -> Result<(), NoMemory>
    requires { minute < length row.now }
    ensures { OnOk result (steps.new.items ≡ steps.old.items ++ minute_step_where (length row.now) (λ m. slice_index_or row.now m (pos 0)) fleet station minute) }
{
    if !is_step(row, minute) {
        return Ok(());
    }
    steps.push(PriceStep {
        fleet,
        station,
        minute,
        value: row[minute as usize],
    })?;
    Ok(())
}

// Whether there is a step at a minute: at the first one where any price of the row is other than 0, at a later one where
// the price is another than a minute before.
#[tactic(auto, unfolding(crate::specs::Steps::is_minute_step))]
fn is_step(row: &[i128], minute: u16) -> bool
    requires { minute < length row.now }
    ensures { result ≡ is_minute_step (length row.now) (λ m. slice_index_or row.now m (pos 0)) minute }
{
    if minute == 0 {
        !are_zero(row)
    } else {
        row[minute as usize] != row[minute as usize - 1]
    }
}

// Whether all prices of a row are 0.
#[tactic(auto, unfolding(crate::specs::Steps::all_zero))]
fn are_zero(row: &[i128]) -> bool
    ensures { result ≡ all_zero (λ m. slice_index_or row.now m (pos 0)) (length row.now) }
{
    for minute in 0..row.len() {
        if row[minute] != 0 {
            return false;
        }
    }
    true
}
