//! The table of windows.
ghost use Rattle.std.specs.Prelude.{◌≡◌, ◌≤◌, [], IfOk, MatchResult, length, map};
ghost use Rattle.csv_fields.specs.Record.{records_of};
ghost use Rattle.fleet_model.specs.declared.limits.TheConstants.{MAX_LEGS};
ghost use Rattle.fleet_model.specs.declared.refusals.TableFile.TheVariants as file;
ghost use Rattle.table_rows.specs.fleet_tables.Costs.{flight_of};
ghost use Rattle.sched_read.specs.retime_windows.Keys.{fleet_counts, window_key};
ghost use Rattle.sched_read.specs.retime_windows.Times.{AreWindows};
ghost use Rattle.sched_read.specs.retime_windows.Windows.{WindowsBad, WindowsRead, shift_read, window_read};
ghost use Rattle.table_rows.specs.Outcome.{IsFirstFault};

use crate::retime_windows::seen::Seen;
use crate::retime_windows::window::Window;
use csv_fields::{FieldFault, flight_name, whole};
use entries::NoMemory;
use fleet_model::limits::{MAX_COST, MAX_SHIFT};
use fleet_model::refusals::{NOT_TEXT, UNKNOWN_FLIGHT, WRONG_WIDTH};
use fleet_model::{LoadError, TableFile, Tables};
use std::alloc::Global;
use table_rows::{Names, RecordError, RowReader, is_text, numbers_of, read_table, three_fields};

/// The header of `windows.csv`.
const HEADER: [&[u8]; 3] = [b"flight", b"shift", b"extra"];

/// The windows of `windows.csv`, in the order of its records, by the numbers of legs, or the first fault of the file.
pub fn read_windows(alloc: Global, tables: &Tables, bytes: &[u8]) -> Result<Vec<Window>, LoadError>
    ensures reads { MatchResult result (λ windows. WindowsRead tables.now (records_of bytes.now) windows.items)
        (IsFirstFault file.Windows (WindowsBad tables.now (records_of bytes.now))) }
    ensures kept { IfOk result (λ windows. AreWindows tables.now windows.items) }
{
    let mut reader = WindowReader::new(alloc, tables)?;
    read_table(alloc, TableFile::Windows, &HEADER, &mut reader, bytes)
}

/// Reads the records of `windows.csv`, by the flights of legs.
#[derive(Drop)]
struct WindowReader {
    flights: Names,
    seen: Seen,
    ghost few_legs: { length flights ≤ MAX_LEGS },
    ghost each_leg: { length seen.fleets.items ≡ length flights },
}

impl WindowReader {
    /// No window yet.
    fn new(alloc: Global, tables: &Tables) -> Result<Self, NoMemory>
        ensures flights { IfOk result (λ reader. reader.flights ≡ map flight_of tables.now.legs) }
        ensures fleets { IfOk result (λ reader. reader.seen.fleets.items ≡ fleet_counts tables.now) }
        ensures none { IfOk result (λ reader. reader.seen.windows.items ≡ []) }
    {
        Ok(WindowReader {
            flights: numbers_of(alloc, tables.legs.as_slice())?,
            seen: Seen::none(alloc, tables)?,
        })
    }
}

impl RowReader for WindowReader {
    type Entry = Window;

    ghost key = { window_key };

    ghost keys = { λ reader. map window_key reader.seen.windows.items };

    ghost read = { λ reader. window_read reader.flights reader.seen.fleets.items };

    #[tactic(auto, unfolding(crate::specs::retime_windows::Windows::window_read))]
    fn read_row(&mut self, _: Global, row: &[Vec<u8>]) -> Result<Window, RecordError> {
        let Some((flight, shift, extra)) = three_fields(row) else {
            return Err(RecordError::Bad { kind: WRONG_WIDTH });
        };
        if !(is_text(flight) && is_text(shift) && is_text(extra)) {
            return Err(RecordError::Bad { kind: NOT_TEXT });
        }
        flight_name(flight)?;
        let minutes = shift_minutes(shift)?;
        let extra = whole(extra, -MAX_COST, MAX_COST)?;
        let Some(leg) = self.flights.number(flight) else {
            return Err(RecordError::Bad {
                kind: UNKNOWN_FLIGHT,
            });
        };
        let leg = leg as u32;
        if let Some(kind) = self.seen.refusal(leg, minutes) {
            return Err(RecordError::Bad { kind });
        }
        let window = Window {
            leg,
            minutes,
            extra,
        };
        self.seen.add(window)?;
        Ok(window)
    }
}

/// The minutes that a field writes, by which a leg departs later or earlier.
fn shift_minutes(field: &[u8]) -> Result<i16, FieldFault>
    ensures reads { result ≡ shift_read field.now }
{
    let minutes = whole(field, -i128::from(MAX_SHIFT), i128::from(MAX_SHIFT))?;
    if minutes == 0 {
        return Err(FieldFault::OUT_OF_RANGE);
    }
    Ok(minutes as i16)
}
