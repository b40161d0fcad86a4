//! The least idle minute of each station.
ghost use Rattle.std.specs.Prelude.{◌≡◌, ◌<◌, length, IfOk};
ghost use Rattle.island_prices.specs.Least.{least_idle, least_in};

use entries::{Entries, NoMemory};
use fleet_model::Tables;
use node_aggregate::island_cut::{Idle, idle};
use std::alloc::Global;

/// The least idle minute of each station, and 0 where there are no islands.
#[tactic(auto, using(crate::proofs::RoundsPay::rounds_pay), unfolding(crate::specs::Least::least_idle))]
pub fn least_idle(alloc: Global, tables: &Tables) -> Result<Entries<u16>, NoMemory>
    ensures { IfOk result (λ least. least ≡ least_idle tables.now) }
{
    let idle = idle(alloc, tables)?;
    let mut least = Vec::new(alloc);
    for station in 0..tables.station_count() {
        least.push(least_in(idle.as_slice(), station))?;
    }
    Ok(Entries::from_vec(least))
}

// The minute of the first entry of a station, and 0 where there is none.
#[tactic(auto, unfolding(crate::specs::Least::least_in))]
fn least_in(idle: &[Idle], station: u32) -> u16
    ensures { result ≡ least_in idle.now station }
{
    let mut left = idle;
    while let Some((entry, rest)) = left.split_first() {
        if entry.station == station {
            return entry.minute;
        }
        left = rest;
    }
    0
}
