//! The texts of made tables: a header, and one record after another.
ghost use Rattle.std.specs.Prelude.{◌≡◌, ◌++◌, ◌+◌, ◌-◌, ◌*◌, ◌/◌, ◌%◌, ◌≤◌, ◌∷◌, [], if◌then◌else◌, IfOk, OnOk, codes, length};
ghost use Rattle.std.specs.Fmt.{decimal};
ghost use Rattle.csv_fields.specs.Flag.{flag_text};
ghost use Rattle.table_rows.specs.fleet_tables.Costs.{cost_header};
ghost use Rattle.table_rows.specs.fleet_tables.Fleets.{fleet_header};
ghost use Rattle.plan_text.specs.Text.{record_line};
ghost use Rattle.sched_read.specs.Legs.{leg_header};
ghost use Rattle.sched_read.specs.Throughs.{through_header};
ghost use Rattle.table_rows.specs.station_table.Stations.{station_header};
ghost use Rattle.table_maker.specs.Fields.{fleet_name, flight_name, is_out};
ghost use Rattle.table_maker.specs.Records.{back_fields, cost_fields, fleet_fields, made_leg_fields, made_station_fields, out_fields, table_text, through_fields};

use crate::fields::{HUB, clock_text, fleet_name, flight_name, is_out, push_record, spoke_code};
use crate::trips::RoundTrip;
use entries::NoMemory;
use std::alloc::Global;

/// The stations: the hub, and so many spokes.
pub fn stations_text(alloc: Global, spokes: u8) -> Result<Vec<u8>, NoMemory>
    ensures { IfOk result (λ text. text.items ≡ table_text station_header made_station_fields (1 + spokes)) }
{
    let mut text = Vec::new(alloc);
    text.extend_from_slice(b"code,extra,maintenance\n")?;
    push_station(&mut text, HUB, true)?;
    for spoke in 0..spokes {
        push_station(&mut text, &spoke_code(spoke), spoke % 3 == 0)?;
    }
    Ok(text)
}

/// The fleets, for so many round trips: one with an aircraft for each, and one for every other.
pub fn fleets_text(alloc: Global, trips: usize) -> Result<Vec<u8>, NoMemory>
    ensures { IfOk result (λ text. text.items ≡ table_text fleet_header (fleet_fields trips) 2) }
{
    let mut text = Vec::new(alloc);
    text.extend_from_slice(b"fleet,aircraft,turn\n")?;
    push_fleet(alloc, &mut text, 0, trips, b"30")?;
    push_fleet(alloc, &mut text, 1, trips / 2, b"45")?;
    Ok(text)
}

/// The legs: of each round trip the flight out, and then the flight back.
pub fn legs_text(alloc: Global, trips: &[RoundTrip]) -> Result<Vec<u8>, NoMemory>
    requires { length trips.now ≤ 500 }
    ensures { IfOk result (λ text. text.items ≡ table_text leg_header (made_leg_fields trips.now) (2 * length trips.now)) }
{
    let mut text = Vec::new(alloc);
    text.extend_from_slice(b"flight,from,dep,to,arr\n")?;
    for leg in 0..2 * trips.len() {
        push_leg(alloc, &mut text, leg, &trips[leg / 2])?;
    }
    Ok(text)
}

/// The costs, by leg and then fleet.
pub fn costs_text(alloc: Global, trips: &[RoundTrip]) -> Result<Vec<u8>, NoMemory>
    requires { length trips.now ≤ 500 }
    ensures { IfOk result (λ text. text.items ≡ table_text cost_header (cost_fields trips.now) (4 * length trips.now)) }
{
    let mut text = Vec::new(alloc);
    text.extend_from_slice(b"flight,fleet,cost\n")?;
    for pair in 0..4 * trips.len() {
        push_cost(alloc, &mut text, pair, trips[pair / 4].costs[pair % 4])?;
    }
    Ok(text)
}

/// The through pairs: from each round trip's flight back to the next one's flight out.
pub fn throughs_text(alloc: Global, trips: &[RoundTrip]) -> Result<Vec<u8>, NoMemory>
    requires { length trips.now ≤ 500 }
    ensures { IfOk result (λ text. text.items ≡ table_text through_header (through_fields trips.now) (length trips.now - 1)) }
{
    let mut text = Vec::new(alloc);
    text.extend_from_slice(b"in,out,value\n")?;
    for trip in 0..trips.len().saturating_sub(1) {
        push_through(alloc, &mut text, trip, trips[trip].value)?;
    }
    Ok(text)
}

/// Appends the record of a station.
fn push_station(text: &mut Vec<u8>, code: &[u8], maintains: bool) -> Result<(), NoMemory>
    ensures { OnOk result (text.new.items ≡ text.old.items ++ record_line (code.now ∷ codes "0" ∷ flag_text maintains ∷ [])) }
{
    let flag = if maintains {
        b"yes".as_slice()
    } else {
        b"no".as_slice()
    };
    push_record(text, code, &[b"0".as_slice(), flag])
}

/// Appends the record of a fleet.
fn push_fleet(
    alloc: Global,
    text: &mut Vec<u8>,
    fleet: usize,
    aircraft: usize,
    turn: &[u8],
) -> Result<(), NoMemory>
    ensures { OnOk result (text.new.items ≡ text.old.items ++ record_line (fleet_name fleet ∷ decimal aircraft ∷ turn.now ∷ [])) }
{
    let aircraft = aircraft.to_string(alloc)?;
    push_record(text, fleet_name(fleet), &[aircraft.as_bytes(), turn])
}

/// Appends the record of a leg of a round trip.
fn push_leg(alloc: Global, text: &mut Vec<u8>, leg: usize, trip: &RoundTrip) -> Result<(), NoMemory>
    ensures { OnOk result (text.new.items ≡ text.old.items ++ record_line (flight_name leg ∷ (if is_out leg then out_fields trip.now else back_fields trip.now))) }
{
    let flight = flight_name(alloc, leg)?;
    let spoke = spoke_code(trip.spoke);
    let departs = u32::from(trip.departs);
    let lands = departs + u32::from(trip.block);
    let returns = lands + u32::from(trip.stay);
    if is_out(leg) {
        push_record(
            text,
            flight.as_bytes(),
            &[HUB, &clock_text(departs), &spoke, &clock_text(lands)],
        )
    } else {
        let back = returns + u32::from(trip.block);
        push_record(
            text,
            flight.as_bytes(),
            &[&spoke, &clock_text(returns), HUB, &clock_text(back)],
        )
    }
}

/// Appends the record of what a pair costs.
fn push_cost(alloc: Global, text: &mut Vec<u8>, pair: usize, cost: u16) -> Result<(), NoMemory>
    ensures { OnOk result (text.new.items ≡ text.old.items ++ record_line (flight_name (pair / 2) ∷ fleet_name (pair % 2) ∷ decimal cost ∷ [])) }
{
    let flight = flight_name(alloc, pair / 2)?;
    let cost = cost.to_string(alloc)?;
    push_record(
        text,
        flight.as_bytes(),
        &[fleet_name(pair % 2), cost.as_bytes()],
    )
}

/// Appends the record of a through pair: from a round trip's flight back to the next one's flight out.
fn push_through(alloc: Global, text: &mut Vec<u8>, trip: usize, value: u16) -> Result<(), NoMemory>
    requires { trip ≤ 500 }
    ensures { OnOk result (text.new.items ≡ text.old.items ++ record_line (flight_name (2 * trip + 1) ∷ flight_name (2 * trip + 2) ∷ decimal value ∷ [])) }
{
    let arriving = flight_name(alloc, 2 * trip + 1)?;
    let departing = flight_name(alloc, 2 * trip + 2)?;
    let value = value.to_string(alloc)?;
    push_record(
        text,
        arriving.as_bytes(),
        &[departing.as_bytes(), value.as_bytes()],
    )
}
