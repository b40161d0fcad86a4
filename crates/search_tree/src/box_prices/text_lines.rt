//! Single lines of the text of a proof. Each is written where it names what the tables have.
use dual_bound::{Charge, PriceStep};
use entries::NoMemory;
use fleet_model::{Pair, Tables};
use proof_lines::{Line, push_line};
use std::alloc::Global;

/// Appends the line of a step.
pub fn push_step(
    alloc: Global,
    text: &mut Vec<u8>,
    tables: &Tables,
    step: PriceStep,
) -> Result<(), NoMemory> {
    if step.fleet < tables.fleet_count() && step.station < tables.station_count() {
        let line = Line::At {
            fleet: step.fleet,
            station: step.station,
            minute: step.minute,
            value: step.value,
        };
        return push_line(alloc, text, tables, &line);
    }
    Ok(())
}

/// Appends the line of a rent, where it isn't 0.
pub fn push_rent(
    alloc: Global,
    text: &mut Vec<u8>,
    tables: &Tables,
    fleet: u32,
    rent: i128,
) -> Result<(), NoMemory> {
    if rent != 0 && fleet < tables.fleet_count() {
        return push_line(alloc, text, tables, &Line::Rent { fleet, rent });
    }
    Ok(())
}

/// Appends the line of a charge, where it isn't 0.
pub fn push_charge(
    alloc: Global,
    text: &mut Vec<u8>,
    tables: &Tables,
    charge: Charge,
) -> Result<(), NoMemory> {
    if charge.charge != 0 && charge.station < tables.station_count() {
        let line = Line::Charge {
            station: charge.station,
            day: charge.day,
            charge: charge.charge,
        };
        return push_line(alloc, text, tables, &line);
    }
    Ok(())
}

/// Appends the line of a weight, where it isn't 0.
pub fn push_weight(
    alloc: Global,
    text: &mut Vec<u8>,
    tables: &Tables,
    pair: Pair,
    weight: i128,
) -> Result<(), NoMemory> {
    let Pair { leg, choice } = pair;
    if weight != 0 && leg < tables.leg_count() && choice < tables.choice_count(leg) {
        let line = Line::Weight {
            leg,
            choice,
            weight,
        };
        return push_line(alloc, text, tables, &line);
    }
    Ok(())
}

/// Appends the first line of a trim.
pub fn push_trim(
    alloc: Global,
    text: &mut Vec<u8>,
    tables: &Tables,
    pair: Pair,
) -> Result<(), NoMemory> {
    let Pair { leg, choice } = pair;
    if leg < tables.leg_count() && choice < tables.choice_count(leg) {
        return push_line(alloc, text, tables, &Line::Trim { leg, choice });
    }
    Ok(())
}

/// Appends the first line of a split.
pub fn push_split(
    alloc: Global,
    text: &mut Vec<u8>,
    tables: &Tables,
    pair: Pair,
) -> Result<(), NoMemory> {
    let Pair { leg, choice } = pair;
    if leg < tables.leg_count() && choice < tables.choice_count(leg) {
        return push_line(alloc, text, tables, &Line::Split { leg, choice });
    }
    Ok(())
}

/// Appends the line of a leg that keeps no pair.
pub fn push_bare(
    alloc: Global,
    text: &mut Vec<u8>,
    tables: &Tables,
    leg: u32,
) -> Result<(), NoMemory> {
    if leg < tables.leg_count() {
        return push_line(alloc, text, tables, &Line::Bare { leg });
    }
    Ok(())
}
