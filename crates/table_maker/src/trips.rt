ghost use Rattle.std.specs.Prelude.{◌≡◌, ◌+◌, ◌<◌, IfOk};
ghost use Rattle.sums.specs.Places.{list_below};
ghost use Rattle.table_maker.specs.Draws.{next_state, number_below, state_after};
ghost use Rattle.table_maker.specs.Trips.{round_trip, trip_drawn};

use crate::draws::Draws;
use entries::NoMemory;
use std::alloc::Global;

/// A round trip from the hub: a flight out to a spoke, a stay there, and the flight back.
#[derive(Clone, Copy)]
pub struct RoundTrip {
    /// The spoke, from 0.
    pub spoke: u8,
    /// The clock minute at which it leaves the hub.
    pub departs: u16,
    /// The minutes of each of its two flights.
    pub block: u16,
    /// The minutes between its landing at the spoke and its departure there.
    pub stay: u16,
    /// What the flight out costs with the first and the second fleet, and then what the flight back does.
    pub costs: [u16; 4],
    /// What it is worth that an aircraft goes on from the flight back to the next round trip's flight out.
    pub value: u16,
}

/// So many round trips to so many spokes, by the draws of a number.
pub fn round_trips(
    alloc: Global,
    number: u32,
    trips: u32,
    spokes: u8,
) -> Result<Vec<RoundTrip>, NoMemory>
    requires { 0 < spokes }
    ensures { IfOk result (λ made. made.items ≡ list_below (trip_drawn number spokes) trips) }
{
    let mut draws = Draws::new(number);
    let mut made = Vec::new(alloc);
    for _trip in 0..trips {
        made.push(next_round_trip(&mut draws, spokes))?;
    }
    Ok(made)
}

/// The round trip that the next nine draws give.
fn next_round_trip(draws: &mut Draws, spokes: u8) -> RoundTrip
    requires { 0 < spokes }
    ensures trip { result ≡ round_trip spokes draws.old }
    ensures drawn { draws.new ≡ state_after draws.old 9 }
{
    let spoke = draws.below(u32::from(spokes)) as u8;
    let departs = 5 * draws.below(288) as u16;
    let block = 60 + 5 * draws.below(25) as u16;
    let stay = 60 + 5 * draws.below(13) as u16;
    let costs = [
        next_cost(draws),
        next_cost(draws),
        next_cost(draws),
        next_cost(draws),
    ];
    let value = draws.below(100) as u16;
    RoundTrip {
        spoke,
        departs,
        block,
        stay,
        costs,
        value,
    }
}

/// The cost that the next draw gives.
fn next_cost(draws: &mut Draws) -> u16
    ensures state { draws.new ≡ next_state draws.old }
    ensures cost { result ≡ 1000 + number_below draws.new 500 }
{
    1000 + draws.below(500) as u16
}
