//! The values of through pairs by the leg that arrives.
ghost use Rattle.std.specs.Prelude.{◌≡◌, ◌<◌, ℕ, length, slice_index, IfOk};
ghost use Rattle.sums.specs.Places.{list_below};
ghost use Rattle.fleet_model.specs.Schedule.{legs_in};
ghost use Rattle.plan_rotations.specs.through_flights.Worths.{listed_value, through_pair};

use entries::{Entries, NoMemory};
use fleet_model::Tables;
use std::alloc::Global;

/// What a leg is worth as a through pair with each leg after it, and 0 where they are none.
pub fn values_from(alloc: Global, tables: &Tables, arriving: u32) -> Result<Entries<u64>, NoMemory>
    ensures size { IfOk result (λ values. length values ≡ legs_in tables.now) }
    ensures each { IfOk result (λ values. (departing : ℕ) → departing < legs_in tables.now → slice_index values departing ≡ listed_value tables.now (through_pair arriving departing)) }
{
    let mut values = zeros(alloc, tables.legs.len())?;
    let entries = tables.throughs.as_slice();
    let mut left = entries.len();
    while left > 0 {
        left -= 1;
        let entry = &entries[left];
        if entry.arriving == arriving {
            values.set(entry.departing as usize, entry.value as u64);
        }
    }
    Ok(values)
}

/// As many zeros as a number says.
fn zeros(alloc: Global, size: usize) -> Result<Entries<u64>, NoMemory>
    ensures { IfOk result (λ zeros. zeros ≡ list_below (λ _. 0) size) }
{
    let mut zeros = Vec::new(alloc);
    for _ in 0..size {
        zeros.push(0)?;
    }
    Ok(Entries::from_vec(zeros))
}
