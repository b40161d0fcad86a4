//! Why the tails of a fleet with a tour can't all come to maintenance in time.
ghost use Rattle.std.specs.Prelude.{◌≡◌, ◌++◌, ◌<◌, OnOk};
ghost use Rattle.due_report.specs.Lines.{lacking_line, late_at_line, late_line, number_line, place_name, some_at_line};
ghost use Rattle.fleet_model.specs.Schedule.{fleets_in};
ghost use Rattle.tail_dates.specs.Places.{IsPlace};

use entries::NoMemory;
use fleet_model::Tables;
use printed_lines::{Piece, push_line};
use std::alloc::Global;
use tail_dates::Place;

/// Appends `F: tails N of M`.
pub(crate) fn push_wrong_number(
    alloc: Global,
    text: &mut Vec<u8>,
    tables: &Tables,
    fleet: u32,
    tails: u64,
    used: u32,
) -> Result<(), NoMemory>
    requires { fleet < fleets_in tables.now }
    ensures { OnOk result (text.new.items ≡ text.old.items ++ number_line tables.now fleet tails used) }
{
    push_line(
        alloc,
        text,
        &[
            Piece::Text(tables.fleet(fleet).name.as_slice()),
            Piece::Text(b": tails "),
            Piece::Count(tails),
            Piece::Text(b" of "),
            Piece::Count(u64::from(used)),
        ],
    )
}

/// Appends `F: late within V, tails N, starts M`.
pub(crate) fn push_late(
    alloc: Global,
    text: &mut Vec<u8>,
    tables: &Tables,
    fleet: u32,
    within: u64,
    tails: u64,
    starts: u64,
) -> Result<(), NoMemory>
    requires { fleet < fleets_in tables.now }
    ensures { OnOk result (text.new.items ≡ text.old.items ++ late_line tables.now fleet within tails starts) }
{
    push_line(
        alloc,
        text,
        &[
            Piece::Text(tables.fleet(fleet).name.as_slice()),
            Piece::Text(b": late within "),
            Piece::Count(within),
            Piece::Text(b", tails "),
            Piece::Count(tails),
            Piece::Text(b", starts "),
            Piece::Count(starts),
        ],
    )
}

/// Appends `F: at N of M`.
pub(crate) fn push_some_at(
    alloc: Global,
    text: &mut Vec<u8>,
    tables: &Tables,
    fleet: u32,
    at: u64,
    tails: u64,
) -> Result<(), NoMemory>
    requires { fleet < fleets_in tables.now }
    ensures { OnOk result (text.new.items ≡ text.old.items ++ some_at_line tables.now fleet at tails) }
{
    push_line(
        alloc,
        text,
        &[
            Piece::Text(tables.fleet(fleet).name.as_slice()),
            Piece::Text(b": at "),
            Piece::Count(at),
            Piece::Text(b" of "),
            Piece::Count(tails),
        ],
    )
}

/// Appends `F: at P tails N, starts M`.
pub(crate) fn push_lacking(
    alloc: Global,
    text: &mut Vec<u8>,
    tables: &Tables,
    fleet: u32,
    place: Place,
    tails: u64,
    starts: u64,
) -> Result<(), NoMemory>
    requires fleet { fleet < fleets_in tables.now }
    requires place { IsPlace tables.now place }
    ensures { OnOk result (text.new.items ≡ text.old.items ++ lacking_line tables.now fleet place tails starts) }
{
    push_line(
        alloc,
        text,
        &[
            Piece::Text(tables.fleet(fleet).name.as_slice()),
            Piece::Text(b": at "),
            Piece::Text(name_of(tables, place)),
            Piece::Text(b" tails "),
            Piece::Count(tails),
            Piece::Text(b", starts "),
            Piece::Count(starts),
        ],
    )
}

/// Appends `F: late at P within V, tails N, starts M`.
pub(crate) fn push_late_at(
    alloc: Global,
    text: &mut Vec<u8>,
    tables: &Tables,
    fleet: u32,
    place: Place,
    within: u64,
    tails: u64,
    starts: u64,
) -> Result<(), NoMemory>
    requires fleet { fleet < fleets_in tables.now }
    requires place { IsPlace tables.now place }
    ensures { OnOk result (text.new.items ≡ text.old.items ++ late_at_line tables.now fleet place within tails starts) }
{
    push_line(
        alloc,
        text,
        &[
            Piece::Text(tables.fleet(fleet).name.as_slice()),
            Piece::Text(b": late at "),
            Piece::Text(name_of(tables, place)),
            Piece::Text(b" within "),
            Piece::Count(within),
            Piece::Text(b", tails "),
            Piece::Count(tails),
            Piece::Text(b", starts "),
            Piece::Count(starts),
        ],
    )
}

/// What a place is called: a station by its code, and a flight by its name.
fn name_of(tables: &Tables, place: Place) -> &[u8]
    requires { IsPlace tables.now place }
    ensures { result.now ≡ place_name tables.now place }
{
    match place {
        Place::Stands { station } => tables.station(station).code.as_slice(),
        Place::Flies { leg } => tables.leg(leg).flight.as_slice(),
    }
}
