//! The worth of prices where a fleet may have another number of aircraft than the tables say.
ghost use Rattle.std.specs.Prelude.{◌≡◌, ◌<◌, ◌≤◌};
ghost use Rattle.fleet_model.specs.declared.limits.TheConstants.{MAX_AIRCRAFT};
ghost use Rattle.fleet_model.specs.declared.tables.Tables.{Tables};
ghost use Rattle.fleet_model.specs.Kept.{kept_by};
ghost use Rattle.fleet_model.specs.OtherSizes.{IsOtherSize};
ghost use Rattle.fleet_model.specs.Schedule.{fleets_in};
ghost use Rattle.fleet_model.specs.Sizes.{AreSizes, HoldsBy};
ghost use Rattle.frac_row.specs.Ratio.{IsCeiling};
ghost use Rattle.dual_bound.specs.Prices.{ArePrices, AreWithin, IsScale};
ghost use Rattle.dual_bound.specs.Sizes.{IsUpTo};
ghost use Rattle.dual_bound.specs.Worth.{worth_of};

use crate::price_finder::PriceFinder;
use crate::prices::Prices;
use crate::worth::{fleet_rents, rents_for, total_worth, worth};
use fleet_model::{Kept, Sizes, Tables};
use frac_row::ceil_div;

/// The worth of prices in a subproblem, as `worth` has it, where fleets have so many aircraft. Takes no memory.
pub fn worth_by(tables: &Tables, sizes: Sizes, kept: &Kept, prices: &Prices, k: u8) -> i128
    requires sizes { AreSizes tables.now sizes }
    requires scale { IsScale prices.now.scale }
    requires within { AreWithin tables.now prices.now }
    requires k { k ≤ 1 }
    ensures { HoldsBy tables.now sizes (λ u. result ≡ worth_of u (kept_by kept.now) prices.now k) }
{
    match sizes {
        Sizes::Own => worth(tables, kept, prices, k),
        Sizes::Other { fleet, count } => worth_as(tables, fleet, count, kept, prices, k),
    }
}

/// The worth of proper prices over their scale, rounded up, where fleets have so many aircraft: in cost units, a bound on
/// what each assignment of kept pairs costs that is legal then. Takes no memory.
#[inline(never)]
pub fn rounded_worth(tables: &Tables, sizes: Sizes, kept: &Kept, prices: &Prices) -> i128
    requires sizes { AreSizes tables.now sizes }
    requires proper { ArePrices tables.now prices.now }
    ensures { HoldsBy tables.now sizes (λ u. IsCeiling (worth_of u (kept_by kept.now) prices.now 1) prices.now.scale result) }
{
    ceil_div(worth_by(tables, sizes, kept, prices, 1), prices.scale)
}

// The worth of prices on the tables with another number of aircraft of one fleet.
fn worth_as(tables: &Tables, fleet: u32, count: u32, kept: &Kept, prices: &Prices, k: u8) -> i128
    requires fleet { fleet < fleets_in tables.now }
    requires count { count ≤ MAX_AIRCRAFT }
    requires scale { IsScale prices.now.scale }
    requires within { AreWithin tables.now prices.now }
    requires k { k ≤ 1 }
    ensures { (u : Tables) → IsOtherSize tables.now fleet count u → result ≡ worth_of u (kept_by kept.now) prices.now k }
{
    let prices = PriceFinder::new(prices);
    total_worth(tables, kept, &prices, k) + fleet_rents(tables, &prices, fleet)
        - rents_for(tables, &prices, fleet, count)
}
