//! The lines of the fleets.
ghost use Rattle.std.specs.Prelude.{◌≡◌, ◌++◌, ◌<◌, OnOk};
ghost use Rattle.rotation_report.specs.TextLines.{fleet_line, fleet_lines};
ghost use Rattle.fleet_model.specs.Legal.{IsAssignment};
ghost use Rattle.fleet_model.specs.Schedule.{fleets_in};

use entries::NoMemory;
use fleet_model::{Assignment, Tables};
use plan_judge::used;
use printed_lines::{Piece, push_line};
use std::alloc::Global;

/// Appends the line `fleet F: used N of M` of each fleet.
pub fn push_fleets(
    alloc: Global,
    text: &mut Vec<u8>,
    tables: &Tables,
    plan: &Assignment,
) -> Result<(), NoMemory>
    requires { IsAssignment tables.now plan.now }
    ensures { OnOk result (text.new.items ≡ text.old.items ++ fleet_lines tables.now plan.now (fleets_in tables.now)) }
{
    for fleet in 0..tables.fleet_count() {
        push_fleet(alloc, text, tables, plan, fleet)?;
    }
    Ok(())
}

/// Appends `fleet F: used N of M`.
fn push_fleet(
    alloc: Global,
    text: &mut Vec<u8>,
    tables: &Tables,
    plan: &Assignment,
    fleet: u32,
) -> Result<(), NoMemory>
    requires plan { IsAssignment tables.now plan.now }
    requires fleet { fleet < fleets_in tables.now }
    ensures { OnOk result (text.new.items ≡ text.old.items ++ fleet_line tables.now plan.now fleet) }
{
    let flown = tables.fleet(fleet);
    push_line(
        alloc,
        text,
        &[
            Piece::Text(b"fleet "),
            Piece::Text(flown.name.as_slice()),
            Piece::Text(b": used "),
            Piece::Count(u64::from(used(tables, plan, fleet))),
            Piece::Text(b" of "),
            Piece::Count(u64::from(flown.aircraft)),
        ],
    )
}
