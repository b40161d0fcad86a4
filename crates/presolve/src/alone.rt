//! The aircraft that legs without a choice keep busy.
ghost use Rattle.std.specs.Prelude.{◌≡◌, ◌+◌, ◌≤◌, ◌*◌, ◌<◌, ◌==◌, if◌then◌else◌, IfOk, ℕ, length, slice_index};
ghost use Rattle.fleet_model.specs.Kept.{kept_by, kept_on};
ghost use Rattle.fleet_model.specs.Schedule.{IsPair, fleet_by, fleets_in, legs_in, period_of};
ghost use Rattle.fleet_model.specs.declared.limits.TheConstants.{MAX_LEGS};
ghost use Rattle.presolve.specs.Cells.{AreCells, AreMore, cell_of};
ghost use Rattle.presolve.specs.Choices.{all_busy_alone};
ghost use Rattle.presolve.specs.Rules.{busy_alone, busy_at};
ghost use Rattle.presolve.specs.declared.cells.TheConstants.{CELL_WIDTH};

use crate::cells::{CELL_WIDTH, zeros};
use entries::NoMemory;
use fleet_model::limits::MAX_LEGS;
use fleet_model::{Kept, Pair, Tables};
use std::alloc::Global;

/// The aircraft that a pair keeps busy at the end of a minute.
pub(crate) fn busy_at(tables: &Tables, pair: Pair, minute: u16) -> u32
    requires pair { IsPair tables.now pair }
    ensures value { result ≡ busy_at tables.now pair minute }
    ensures few { result ≤ 3 }
{
    let departed = u32::from(tables.departure(pair) <= minute);
    let back = u32::from(tables.ready(pair) <= minute);
    (tables.laps(pair) + departed).saturating_sub(back)
}

/// The aircraft of each fleet that legs which keep one pair keep busy, by minutes.
pub(crate) fn all_alone(
    alloc: Global,
    tables: &Tables,
    kept: &Kept,
    counts: &[u32; MAX_LEGS],
) -> Result<Vec<u32>, NoMemory>
    requires { (l : ℕ) → l < legs_in tables.now → slice_index counts.now l ≡ kept_on tables.now (kept_by kept.now) l }
    ensures { IfOk result (λ cells. AreCells cells.items (all_busy_alone tables.now (kept_by kept.now)) (fleets_in tables.now) (period_of tables.now)) }
{
    let mut cells = zeros(alloc, tables)?;
    for leg in 0..tables.leg_count() {
        add_alone(&mut cells, tables, kept, counts, leg);
    }
    Ok(cells)
}

/// Adds the aircraft that a leg keeps busy, where it keeps one pair, to those of that pair's fleet.
pub(crate) fn add_alone(
    cells: &mut Vec<u32>,
    tables: &Tables,
    kept: &Kept,
    counts: &[u32; MAX_LEGS],
    leg: u32,
)
    requires width { length cells.old.items ≡ fleets_in tables.now * CELL_WIDTH }
    requires leg { leg < legs_in tables.now }
    requires count { slice_index counts.now leg ≡ kept_on tables.now (kept_by kept.now) leg }
    requires small { (f m : ℕ) → f < fleets_in tables.now → m < period_of tables.now → cell_of cells.old.items f m ≤ 3 * MAX_LEGS }
    ensures { AreMore (λ f m. busy_alone tables.now (kept_by kept.now) f m leg) (fleets_in tables.now) (period_of tables.now) cells.old.items cells.new.items }
{
    if counts[leg as usize] == 1 {
        add_only(cells, tables, kept, leg);
    }
}

// Adds the aircraft that the one pair which a leg keeps keeps busy.
fn add_only(cells: &mut Vec<u32>, tables: &Tables, kept: &Kept, leg: u32)
    requires width { length cells.old.items ≡ fleets_in tables.now * CELL_WIDTH }
    requires leg { leg < legs_in tables.now }
    requires one { kept_on tables.now (kept_by kept.now) leg ≡ 1 }
    requires small { (f m : ℕ) → f < fleets_in tables.now → m < period_of tables.now → cell_of cells.old.items f m ≤ 3 * MAX_LEGS }
    ensures { AreMore (λ f m. busy_alone tables.now (kept_by kept.now) f m leg) (fleets_in tables.now) (period_of tables.now) cells.old.items cells.new.items }
{
    for choice in 0..tables.choice_count(leg) {
        if kept.kept(leg, choice) {
            add_busy(cells, tables, Pair { leg, choice });
            return;
        }
    }
}

// Adds the aircraft that a pair keeps busy to those of its fleet, where a fleet flies it.
fn add_busy(cells: &mut Vec<u32>, tables: &Tables, pair: Pair)
    requires width { length cells.old.items ≡ fleets_in tables.now * CELL_WIDTH }
    requires pair { IsPair tables.now pair }
    requires small { (f m : ℕ) → f < fleets_in tables.now → m < period_of tables.now → cell_of cells.old.items f m ≤ 3 * MAX_LEGS }
    ensures { AreMore (λ f m. if fleet_by tables.now pair == f then busy_at tables.now pair m else 0) (fleets_in tables.now) (period_of tables.now) cells.old.items cells.new.items }
{
    let fleet = tables.fleet_by(pair);
    if fleet < tables.fleet_count() {
        add_minutes(cells, tables, pair, fleet);
    }
}

// Adds the aircraft that a pair keeps busy to those of a fleet, minute by minute.
fn add_minutes(cells: &mut Vec<u32>, tables: &Tables, pair: Pair, fleet: u32)
    requires width { length cells.old.items ≡ fleets_in tables.now * CELL_WIDTH }
    requires pair { IsPair tables.now pair }
    requires fleet { fleet < fleets_in tables.now }
    requires small { (m : ℕ) → m < period_of tables.now → cell_of cells.old.items fleet m ≤ 3 * MAX_LEGS }
    ensures { AreMore (λ f m. if fleet == f then busy_at tables.now pair m else 0) (fleets_in tables.now) (period_of tables.now) cells.old.items cells.new.items }
{
    for minute in 0..tables.period() {
        cells[fleet as usize * CELL_WIDTH + minute as usize] += busy_at(tables, pair, minute);
    }
}
