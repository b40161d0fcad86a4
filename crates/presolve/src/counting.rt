//! Counts of kept pairs, made once.
ghost use Rattle.std.specs.Prelude.{◌≡◌, ◌≤◌, ◌*◌, ◌<◌, ◌==◌, ◌&&◌, if◌then◌else◌, IfOk, ℕ, length, slice_index};
ghost use Rattle.fleet_model.specs.Kept.{kept_by, kept_on};
ghost use Rattle.fleet_model.specs.Schedule.{IsPair, fleets_in, legs_in, stations_in};
ghost use Rattle.fleet_model.specs.declared.limits.TheConstants.{MAX_CHOICES, MAX_LEGS};
ghost use Rattle.presolve.specs.Cells.{AreCells, AreMore, cell_of};
ghost use Rattle.presolve.specs.Ends.{end_station, kept_at};
ghost use Rattle.presolve.specs.Rules.{flies, kept_flown_on};
ghost use Rattle.presolve.specs.declared.cells.TheConstants.{CELL_WIDTH};

use crate::cells::{add_one, zeros};
use entries::NoMemory;
use fleet_model::limits::MAX_LEGS;
use fleet_model::{Kept, Pair, Tables};
use std::alloc::Global;

/// How many pairs each leg keeps.
pub(crate) fn counts_of(tables: &Tables, kept: &Kept) -> [u32; MAX_LEGS]
    ensures { (l : ℕ) → l < legs_in tables.now → slice_index result l ≡ kept_on tables.now (kept_by kept.now) l }
{
    let mut counts = [0; MAX_LEGS];
    for leg in 0..tables.leg_count() {
        counts[leg as usize] = kept.count_on(tables, leg);
    }
    counts
}

/// An end of a leg.
#[derive(Clone, Copy)]
pub(crate) enum End {
    /// Where it departs.
    From,
    /// Where it lands.
    To,
}

/// How many kept pairs of each fleet there are at each station, by an end of their legs.
pub(crate) fn all_at(
    alloc: Global,
    tables: &Tables,
    kept: &Kept,
    end: End,
) -> Result<Vec<u32>, NoMemory>
    ensures { IfOk result (λ cells. AreCells cells.items (kept_at tables.now (kept_by kept.now) end) (fleets_in tables.now) (stations_in tables.now)) }
{
    let mut cells = zeros(alloc, tables)?;
    for leg in 0..tables.leg_count() {
        add_leg(&mut cells, tables, kept, leg, end_station(tables, end, leg));
    }
    Ok(cells)
}

// The station at an end of a leg.
fn end_station(tables: &Tables, end: End, leg: u32) -> u32
    requires leg { leg < legs_in tables.now }
    ensures value { result ≡ end_station tables.now end leg }
    ensures known { result < stations_in tables.now }
{
    match end {
        End::From => tables.leg(leg).from,
        End::To => tables.leg(leg).to,
    }
}

// Adds the kept pairs of a leg to those of their fleets at a station.
fn add_leg(cells: &mut Vec<u32>, tables: &Tables, kept: &Kept, leg: u32, station: u32)
    requires width { length cells.old.items ≡ fleets_in tables.now * CELL_WIDTH }
    requires leg { leg < legs_in tables.now }
    requires station { station < stations_in tables.now }
    requires small { (f s : ℕ) → f < fleets_in tables.now → s < stations_in tables.now → cell_of cells.old.items f s ≤ leg * MAX_CHOICES }
    ensures { AreMore (λ f s. if station == s then kept_flown_on tables.now (kept_by kept.now) f leg else 0) (fleets_in tables.now) (stations_in tables.now) cells.old.items cells.new.items }
{
    for choice in 0..tables.choice_count(leg) {
        add_pair(cells, tables, kept, Pair { leg, choice }, station);
    }
}

// Adds a pair to those of its fleet at a station, where it is kept and a fleet flies it.
fn add_pair(cells: &mut Vec<u32>, tables: &Tables, kept: &Kept, pair: Pair, station: u32)
    requires width { length cells.old.items ≡ fleets_in tables.now * CELL_WIDTH }
    requires pair { IsPair tables.now pair }
    requires few { pair.choice < MAX_CHOICES }
    requires station { station < stations_in tables.now }
    requires small { (f s : ℕ) → f < fleets_in tables.now → s < stations_in tables.now → cell_of cells.old.items f s < MAX_LEGS * MAX_CHOICES }
    ensures { AreMore (λ f s. if (station == s) && flies tables.now (kept_by kept.now) f pair.leg pair.choice then 1 else 0) (fleets_in tables.now) (stations_in tables.now) cells.old.items cells.new.items }
{
    let fleet = tables.fleet_by(pair);
    if kept.kept(pair.leg, pair.choice) && fleet < tables.fleet_count() {
        add_one(cells, fleet, station);
    }
}
