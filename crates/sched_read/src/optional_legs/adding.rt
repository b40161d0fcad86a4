//! Tables whose legs may be left out.
ghost use Rattle.std.specs.Prelude.{◌≡◌, ◌≤◌, IfOk, MatchResult, length, slice_index_or};
ghost use Rattle.csv_fields.specs.Record.{records_of};
ghost use Rattle.fleet_model.specs.Windows.{no_leg};
ghost use Rattle.fleet_model.specs.declared.limits.TheConstants.{MAX_LEGS};
ghost use Rattle.fleet_model.specs.declared.refusals.TableFile.TheVariants as file;
ghost use Rattle.sched_read.specs.optional_legs.Adding.{HaveOptional, ReadsOptional, skip_in, skippable_leg};
ghost use Rattle.sched_read.specs.optional_legs.Optional.{AreOptional, OptionalBad};
ghost use Rattle.sums.specs.Places.{list_below};
ghost use Rattle.table_rows.specs.Outcome.{IsFirstFault};

use crate::optional_legs::optional::OptionalLeg;
use crate::optional_legs::reading::read_optional;
use entries::Entries;
use fleet_model::{Leg, LoadError, Tables};
use std::alloc::Global;

/// The tables with the optional legs of `optional.csv`, or the first fault of the file. A leg of the file may then be left out,
/// and no other; all else stays. The tables keep that the file was read, also where it has no record.
pub fn add_optional(alloc: Global, tables: Tables, bytes: &[u8]) -> Result<Tables, LoadError>
    ensures { MatchResult result (ReadsOptional tables bytes.now)
        (IsFirstFault file.Optional (OptionalBad tables (records_of bytes.now))) }
{
    let optional = read_optional(alloc, &tables, bytes)?;
    Ok(with_optional(tables, &optional))
}

// The tables with optional legs.
fn with_optional(tables: Tables, optional: &[OptionalLeg]) -> Tables
    requires { AreOptional tables optional.now }
    ensures { HaveOptional tables optional.now result }
{
    let mut legs = tables.legs.into_vec();
    give_skips(&mut legs, optional);
    Tables {
        stations: tables.stations,
        fleets: tables.fleets,
        legs: Entries::from_vec(legs),
        costs: tables.costs,
        throughs: tables.throughs,
        settings: tables.settings,
        departures: tables.departures,
        windows: tables.windows,
        optional: true,
    }
}

// Says of each leg what it costs to leave it out.
fn give_skips(legs: &mut Vec<Leg>, optional: &[OptionalLeg])
    requires { length legs.old.items ≤ MAX_LEGS }
    ensures { legs.new.items ≡ list_below (λ l. skippable_leg (slice_index_or legs.old.items l no_leg) (skip_in optional.now l)) (length legs.old.items) }
{
    for place in 0..legs.len() {
        give(&mut legs[place], skip_in(optional, place as u32));
    }
}

// Says of a leg what it costs to leave it out.
fn give(leg: &mut Leg, skip: Option<i128>)
    ensures { leg.new ≡ skippable_leg leg.old skip }
{
    leg.skip = skip;
}

// What it costs to leave a leg out, where it is optional.
fn skip_in(optional: &[OptionalLeg], leg: u32) -> Option<i128>
    ensures { result ≡ skip_in optional.now leg }
{
    let mut rest = optional;
    while let Some((first, later)) = rest.split_first() {
        if first.leg == leg {
            return Some(first.skip);
        }
        rest = later;
    }
    None
}
