//! Prices of dual values.
ghost use Rattle.std.specs.Prelude.{◌≡◌, ◌+◌, ◌<◌, ◌^◌, ◌++◌, ℕ, neg_ℤ, length, slice_index_or, pos, None, IfErr, IfOk, OnOk, MatchResult};
ghost use Rattle.sums.specs.Places.{list_below};
ghost use Rattle.frac_row.specs.Outgrown.{IsWithin};
ghost use Rattle.frac_row.specs.Row.{IsRow, reduced, width_of};
ghost use Rattle.fleet_model.specs.Schedule.{fleets_in, legs_in};
ghost use Rattle.lp_rows.specs.Layout.{concat_below, starts_in};
ghost use Rattle.lp_rows.specs.Outline.{IsOutlineOver};
ghost use Rattle.simplex_frac.specs.dual_lift.TooLarge.{IsLiftError};
ghost use Rattle.price_lift.specs.Steps.{charge_in, charge_where, prices_by};
ghost use Rattle.price_lift.specs.TooLarge.{prices_excess};
ghost use Rattle.price_lift.specs.Wanted.{IsWantedBehind};

use crate::lowest::lowest;
use crate::stepping::price_steps;
use dual_bound::{Charge, Prices};
use entries::{Entries, NoMemory};
use fleet_model::Tables;
use frac_row::FracRow;
use lp_rows::{Outline, Park};
use simplex_frac::dual_lift::LiftError;
use simplex_frac::dual_lift::numbers::opposite;
use std::alloc::Global;

/// The prices of dual values in lowest terms, where they are within their limits. There is one for each line with a
/// price.
pub(crate) fn prices_of(
    alloc: Global,
    tables: &Tables,
    outline: &Outline,
    duals: FracRow,
) -> Result<Prices, LiftError>
    requires outline { IsOutlineOver tables.now outline.now }
    requires row { IsRow duals }
    requires width { width_of duals ≡ length outline.now.nodes + outline.now.fleets + length outline.now.parks }
    ensures prices { MatchResult result
        (λ prices. (prices_excess (legs_in tables.now) duals ≡ None) × (prices ≡ prices_by tables.now (starts_in outline.now.network) (reduced duals)))
        (IsLiftError (prices_excess (legs_in tables.now) duals)) }
    ensures memory { IfErr result (IsWantedBehind (prices_excess (legs_in tables.now) duals)) }
{
    let lowest = lowest(outline.first_priced_line(), duals)?;
    let prices = prices(alloc, tables, outline, &lowest)?;
    Ok(prices)
}

// The prices of dual values: through a node the value of its balance line, and with the other sign, as rent of a fleet, that of
// its count line, and, as charge of a day of a station with a limit, that of its parking line.
fn prices(
    alloc: Global,
    tables: &Tables,
    outline: &Outline,
    duals: &FracRow,
) -> Result<Prices, NoMemory>
    requires outline { IsOutlineOver tables.now outline.now }
    requires row { IsRow duals.now }
    requires width { width_of duals.now ≡ length outline.now.nodes + outline.now.fleets + length outline.now.parks }
    ensures { IfOk result (λ prices. prices ≡ prices_by tables.now (starts_in outline.now.network) duals.now) }
{
    let values = duals.numbers.as_slice();
    let nodes = outline.nodes.as_slice();
    let of_nodes = node_values(outline, values);
    let steps = price_steps(alloc, tables, &outline.network, nodes, of_nodes)?;
    let rents = rents(alloc, outline, values)?;
    let charges = charges(alloc, outline, values)?;
    Ok(Prices {
        scale: duals.den,
        rents: Entries::from_vec(rents),
        steps: Entries::from_vec(steps),
        charges: Entries::from_vec(charges),
    })
}

// The values of the nodes, in their order, with others behind them.
fn node_values<'a>(outline: &Outline, values: &'a [i128]) -> &'a [i128]
    ensures { result.now ≡ values.now }
{
    let first = outline.first_balance_line() - outline.first_priced_line();
    &values[first as usize..]
}

// The rents, fleet by fleet, by the values of the lines with a price.
fn rents(alloc: Global, outline: &Outline, values: &[i128]) -> Result<Vec<i128>, NoMemory>
    requires within { (k : ℕ) → IsWithin (slice_index_or values.now k (pos 0)) }
    requires width { length values.now ≡ length outline.now.nodes + outline.now.fleets + length outline.now.parks }
    ensures { IfOk result (λ rents. rents.items ≡ list_below (λ f. neg_ℤ (slice_index_or values.now (length outline.now.nodes + f) (pos 0))) outline.now.fleets) }
{
    let mut rents = Vec::new(alloc);
    for fleet in 0..outline.fleets {
        let place = outline.count_line(fleet) - outline.first_priced_line();
        rents.push(opposite(&values[place as usize]))?;
    }
    Ok(rents)
}

// The charges, day by day of each station with a limit, by the values of the lines with a price.
fn charges(alloc: Global, outline: &Outline, values: &[i128]) -> Result<Vec<Charge>, NoMemory>
    requires within { (k : ℕ) → IsWithin (slice_index_or values.now k (pos 0)) }
    requires width { length values.now ≡ length outline.now.nodes + outline.now.fleets + length outline.now.parks }
    ensures { IfOk result (λ charges. charges.items ≡ concat_below (charge_in outline.now values.now) (length outline.now.parks)) }
{
    let parks = outline.parks.as_slice();
    let mut charges = Vec::new(alloc);
    for number in 0..parks.len() as u32 {
        let place = outline.parking_line(number) - outline.first_priced_line();
        let charge = opposite(&values[place as usize]);
        push_charge(&mut charges, parks[number as usize], &charge)?;
    }
    Ok(charges)
}

// Puts the charge of a day behind those so far, where it isn't 0.
fn push_charge(charges: &mut Vec<Charge>, park: Park, charge: &i128) -> Result<(), NoMemory>
    ensures { OnOk result (charges.new.items ≡ charges.old.items ++ charge_where park charge.now) }
{
    if *charge == 0 {
        return Ok(());
    }
    charges.push(Charge {
        station: park.station,
        day: park.day,
        charge: *charge,
    })?;
    Ok(())
}
