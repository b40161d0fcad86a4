use crate::box_prices::priced_lines::PricedLines;
use crate::box_prices::text_lines::{push_charge, push_rent, push_step, push_weight};
use basis_factors::fixed_numbers::{at, place_of};
use dual_bound::{Charge, PriceStep, Prices};
use entries::NoMemory;
use fleet_model::Tables;
use proof_lines::{Line, push_line};
use std::alloc::Global;

/// Appends the text of the prices that proper dual values over a scale are.
pub fn push_duals(
    alloc: Global,
    text: &mut Vec<u8>,
    tables: &Tables,
    priced: &PricedLines,
    duals: &[i128],
    scale: i128,
) -> Result<(), NoMemory> {
    push_line(alloc, text, tables, &Line::Scale { scale })?;
    for fleet in 0..priced.fleets {
        let dual = at(duals, priced.first_count().wrapping_add(fleet), 0);
        push_rent(alloc, text, tables, place_of(fleet), dual.wrapping_neg())?;
    }
    for number in 0..priced.parks.len() {
        let park = priced.parks[number];
        let dual = at(duals, priced.first_night().wrapping_add(number), 0);
        let charge = Charge {
            station: park.station,
            day: park.day,
            charge: dual.wrapping_neg(),
        };
        push_charge(alloc, text, tables, charge)?;
    }
    push_steps(alloc, text, tables, priced, duals)
}

// Appends the steps: at the first node of a fleet at a station where any price there isn't 0, and else where a price is another than
// before.
fn push_steps(
    alloc: Global,
    text: &mut Vec<u8>,
    tables: &Tables,
    priced: &PricedLines,
    duals: &[i128],
) -> Result<(), NoMemory> {
    for number in 0..priced.places.len() {
        let place = priced.places[number];
        let line = priced.first_node().wrapping_add(number);
        let value = at(duals, line, 0);
        let is_step = if place.is_first {
            is_any(priced, duals, number)
        } else {
            value != at(duals, line.wrapping_sub(1), 0)
        };
        if is_step {
            let step = PriceStep {
                fleet: place.fleet,
                station: place.station,
                minute: place.minute,
                value,
            };
            push_step(alloc, text, tables, step)?;
        }
    }
    Ok(())
}

// Whether a price isn't 0 from this node on to the last of its fleet at its station.
fn is_any(priced: &PricedLines, duals: &[i128], number: usize) -> bool {
    for place in number..priced.places.len() {
        if at(duals, priced.first_node().wrapping_add(place), 0) != 0 {
            return true;
        }
        if priced.places[place].is_last {
            return false;
        }
    }
    false
}

/// Appends the text of prices that are given as such.
pub fn push_prices(
    alloc: Global,
    text: &mut Vec<u8>,
    tables: &Tables,
    prices: &Prices,
) -> Result<(), NoMemory> {
    let scale = prices.scale;
    push_line(alloc, text, tables, &Line::Scale { scale })?;
    for fleet in 0..tables.fleet_count() {
        push_rent(alloc, text, tables, fleet, prices.rent(fleet))?;
    }
    for charge in prices.charges.as_slice() {
        push_charge(alloc, text, tables, *charge)?;
    }
    for step in prices.steps.as_slice() {
        push_step(alloc, text, tables, *step)?;
    }
    Ok(())
}

/// Appends the text of a fractional assignment: weights over a scale, by columns.
pub fn push_weights(
    alloc: Global,
    text: &mut Vec<u8>,
    tables: &Tables,
    priced: &PricedLines,
    weights: &[i128],
    scale: i128,
) -> Result<(), NoMemory> {
    push_line(alloc, text, tables, &Line::Mixed { scale })?;
    for column in 0..priced.pairs.len() {
        let weight = at(weights, column, 0);
        push_weight(alloc, text, tables, priced.pairs[column], weight)?;
    }
    Ok(())
}
