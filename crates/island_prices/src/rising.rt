//! Rises of prices over ground arcs that went.
ghost use Rattle.std.specs.Prelude.{◌≡◌, ◌<◌, ◌++◌, ℕ, length, slice_index, ◌-ℤ◌, OnErr, OnOk, Some};
ghost use Rattle.fleet_model.specs.Schedule.{fleets_in, stations_in};
ghost use Rattle.dual_bound.specs.Prices.{AreWithin, price_of, rent_of};
ghost use Rattle.dual_bound.specs.Sizes.{IsUpTo};
ghost use Rattle.island_prices.specs.Arcs.{IsArc, rise_over, rise_where, shift_over};

use crate::rises::{Rise, Shift};
use dual_bound::PriceFinder;
use dual_bound::sized::{price, rent};
use entries::NoMemory;
use fleet_model::Tables;
use node_aggregate::node_end;

/// The ground arc from a node of a fleet at a station to the next one, or from the last to the first.
#[derive(Clone, Copy)]
pub struct Arc<'a> {
    /// The fleet, by its number.
    pub fleet: u32,
    /// The station, by its number.
    pub station: u32,
    /// The minutes at which the nodes of the fleet at the station start.
    pub starts: &'a [u16],
    /// The place of the node among them.
    pub place: u32,
}

/// Puts the rise of the price over an arc behind those so far, where the arc went and the price rises. The moment is that of
/// the arc, if it went; the prices are those by the nodes.
pub fn push_rise(
    rises: &mut Vec<Rise>,
    tables: &Tables,
    prices: &PriceFinder<'_>,
    arc: &Arc<'_>,
    moment: Option<u16>,
) -> Result<(), NoMemory>
    requires within { AreWithin tables.now prices.now }
    requires arc { IsArc tables.now arc.now.starts.now arc.now.fleet arc.now.station arc.now.place }
    ensures pushed { OnOk result (rises.new.items ≡ rises.old.items ++ rise_where tables.now prices.now arc.now.starts.now arc.now.fleet arc.now.station arc.now.place moment) }
    ensures unchanged { OnErr result (rises.new.items ≡ rises.old.items) }
{
    match moment {
        Some(moment) => push_over(rises, tables, prices, arc, moment),
        None => Ok(()),
    }
}

// Puts the rise over an arc that went to a moment behind those so far, where the price rises.
fn push_over(
    rises: &mut Vec<Rise>,
    tables: &Tables,
    prices: &PriceFinder<'_>,
    arc: &Arc<'_>,
    moment: u16,
) -> Result<(), NoMemory>
    requires within { AreWithin tables.now prices.now }
    requires arc { IsArc tables.now arc.now.starts.now arc.now.fleet arc.now.station arc.now.place }
    ensures pushed { OnOk result (rises.new.items ≡ rises.old.items ++ rise_where tables.now prices.now arc.now.starts.now arc.now.fleet arc.now.station arc.now.place (Some moment)) }
    ensures unchanged { OnErr result (rises.new.items ≡ rises.old.items) }
{
    let amount = rise_over(tables, prices, arc);
    if amount <= 0 {
        return Ok(());
    }
    rises.push(Rise {
        fleet: arc.fleet,
        station: arc.station,
        moment,
        shift: shift_over(tables, arc, moment),
        amount,
    })?;
    Ok(())
}

// By how much the price rises over an arc: to the next node, or from the last one to the first beyond the rent.
fn rise_over(tables: &Tables, prices: &PriceFinder<'_>, arc: &Arc<'_>) -> i128
    requires within { AreWithin tables.now prices.now }
    requires arc { IsArc tables.now arc.now.starts.now arc.now.fleet arc.now.station arc.now.place }
    ensures { result ≡ rise_over prices.now arc.now.starts.now arc.now.fleet arc.now.station arc.now.place }
{
    let next = arc.place as usize + 1;
    if next < arc.starts.len() {
        return inside(tables, prices, arc, next);
    }
    price(tables, prices, arc.fleet, arc.station, 0)
        - price(
            tables,
            prices,
            arc.fleet,
            arc.station,
            arc.starts[arc.place as usize],
        )
        - rent(tables, prices, arc.fleet)
}

// By how much the price at the start of a node passes that at the start of the arc's.
fn inside(tables: &Tables, prices: &PriceFinder<'_>, arc: &Arc<'_>, next: usize) -> i128
    requires within { AreWithin tables.now prices.now }
    requires arc { IsArc tables.now arc.now.starts.now arc.now.fleet arc.now.station arc.now.place }
    requires next { next < length arc.now.starts.now }
    ensures { result ≡ price_of prices.now arc.now.fleet arc.now.station (slice_index arc.now.starts.now next)
        -ℤ price_of prices.now arc.now.fleet arc.now.station (slice_index arc.now.starts.now arc.now.place) }
{
    price(tables, prices, arc.fleet, arc.station, arc.starts[next])
        - price(
            tables,
            prices,
            arc.fleet,
            arc.station,
            arc.starts[arc.place as usize],
        )
}

// Which minutes take another price: where the moment lies in the arc's node, those of the node behind it.
fn shift_over(tables: &Tables, arc: &Arc<'_>, moment: u16) -> Shift
    requires { arc.now.place < length arc.now.starts.now }
    ensures { result ≡ shift_over tables.now arc.now.starts.now arc.now.place moment }
{
    if arc.starts[arc.place as usize] <= moment {
        Shift::Raised {
            last: node_end(tables, arc.starts, arc.place as usize),
        }
    } else {
        Shift::Lowered
    }
}
