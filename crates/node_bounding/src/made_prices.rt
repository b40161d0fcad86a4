//! Prices that are made: copies, and those of 0.
ghost use Rattle.std.specs.Prelude.{◌≡◌, IfOk, pos};
ghost use Rattle.sums.specs.Places.{list_below};
ghost use Rattle.fleet_model.specs.Schedule.{fleets_in};
ghost use Rattle.node_bounding.specs.Causes.{zero_prices};

use dual_bound::{Charge, PriceStep, Prices};
use entries::{Entries, NoMemory};
use fleet_model::Tables;
use std::alloc::Global;

/// The same prices once more.
pub(crate) fn copied(alloc: Global, prices: &Prices) -> Result<Prices, NoMemory>
    ensures { IfOk result (λ copy. copy ≡ prices.now) }
{
    Ok(Prices {
        scale: prices.scale,
        rents: copied_rents(alloc, prices.rents.as_slice())?,
        steps: copied_steps(alloc, prices.steps.as_slice())?,
        charges: copied_charges(alloc, prices.charges.as_slice())?,
    })
}

fn copied_rents(alloc: Global, rents: &[i128]) -> Result<Entries<i128>, NoMemory>
    ensures { IfOk result (λ copy. copy ≡ rents.now) }
{
    Ok(Entries::from_vec(Vec::from_slice(alloc, rents)?))
}

fn copied_steps(alloc: Global, steps: &[PriceStep]) -> Result<Entries<PriceStep>, NoMemory>
    ensures { IfOk result (λ copy. copy ≡ steps.now) }
{
    Ok(Entries::from_vec(Vec::from_slice(alloc, steps)?))
}

fn copied_charges(alloc: Global, charges: &[Charge]) -> Result<Entries<Charge>, NoMemory>
    ensures { IfOk result (λ copy. copy ≡ charges.now) }
{
    Ok(Entries::from_vec(Vec::from_slice(alloc, charges)?))
}

/// Prices of 0 throughout, over the scale 1, with a rent for each fleet.
pub fn zeros(alloc: Global, tables: &Tables) -> Result<Prices, NoMemory>
    ensures { IfOk result (λ prices. prices ≡ zero_prices tables.now) }
{
    Ok(Prices {
        scale: 1,
        rents: zero_rents(alloc, tables)?,
        steps: Entries::from_vec(Vec::new(alloc)),
        charges: Entries::from_vec(Vec::new(alloc)),
    })
}

fn zero_rents(alloc: Global, tables: &Tables) -> Result<Entries<i128>, NoMemory>
    ensures { IfOk result (λ rents. rents ≡ list_below (λ f. pos 0) (fleets_in tables.now)) }
{
    let mut rents = Vec::new(alloc);
    for _ in 0..tables.fleet_count() {
        rents.push(0)?;
    }
    Ok(Entries::from_vec(rents))
}
