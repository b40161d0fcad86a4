//! Numbers for each fleet at each place, which is a station or a minute.
ghost use Rattle.std.specs.Prelude.{◌≡◌, ◌+◌, ◌*◌, ◌-◌, ◌<◌, IfOk, length, slice_set};
ghost use Rattle.fleet_model.specs.Schedule.{fleets_in};
ghost use Rattle.fleet_model.specs.declared.limits.TheConstants.{MAX_CHOICES, MAX_FLEETS, MAX_LEGS};
ghost use Rattle.presolve.specs.Cells.{AreCells, cell_of};
ghost use Rattle.presolve.specs.declared.cells.TheConstants.{CELL_WIDTH};

use entries::NoMemory;
use fleet_model::Tables;
use std::alloc::Global;

/// How many places a fleet has: enough for each minute of a week, and for each station.
pub(crate) const CELL_WIDTH: usize = 10080;

/// A 0 for each fleet at each place.
pub(crate) fn zeros(alloc: Global, tables: &Tables) -> Result<Vec<u32>, NoMemory>
    ensures { IfOk result (λ cells. AreCells cells.items (λ f k. 0) (fleets_in tables.now) CELL_WIDTH) }
{
    Ok(vec![in alloc; 0; tables.fleet_count() as usize * CELL_WIDTH]?)
}

/// The number of a fleet at a place.
pub(crate) fn cell(cells: &[u32], fleet: u32, place: u32) -> u32
    requires fleet { fleet < MAX_FLEETS }
    requires within { fleet * CELL_WIDTH + place < length cells.now }
    ensures { result ≡ cell_of cells.now fleet place }
{
    cells[fleet as usize * CELL_WIDTH + place as usize]
}

/// Makes the number of a fleet at a place one more.
pub(crate) fn add_one(cells: &mut Vec<u32>, fleet: u32, place: u32)
    requires fleet { fleet < MAX_FLEETS }
    requires within { fleet * CELL_WIDTH + place < length cells.old.items }
    requires few { cell_of cells.old.items fleet place < MAX_LEGS * MAX_CHOICES }
    ensures { cells.new.items ≡ slice_set cells.old.items (fleet * CELL_WIDTH + place) (cell_of cells.old.items fleet place + 1) }
{
    cells[fleet as usize * CELL_WIDTH + place as usize] += 1;
}

/// Makes the number of a fleet at a place one less.
pub(crate) fn take_one(cells: &mut Vec<u32>, fleet: u32, place: u32)
    requires fleet { fleet < MAX_FLEETS }
    requires within { fleet * CELL_WIDTH + place < length cells.old.items }
    requires some { 0 < cell_of cells.old.items fleet place }
    ensures { cells.new.items ≡ slice_set cells.old.items (fleet * CELL_WIDTH + place) (cell_of cells.old.items fleet place - 1) }
{
    cells[fleet as usize * CELL_WIDTH + place as usize] -= 1;
}
