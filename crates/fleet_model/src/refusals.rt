ghost use Rattle.std.specs.Prelude.{◌≡◌};
ghost use Rattle.fleet_model.specs.declared.refusals.LoadError.TheVariants as load;

use entries::NoMemory as OutOfMemory;
use std::alloc::{AllocError, AllocFailed};
use thiserror::Error;

/// The tables of a schedule, by their files, in the order in which they are read and judged. Tails are named beside a plan:
/// no schedule has them.
#[derive(Clone, Copy, Debug)]
pub enum TableFile {
    Stations,
    Fleets,
    Legs,
    Costs,
    Throughs,
    Windows,
    Optional,
    Tails,
}

/// The first fault of a table's file.
#[derive(Clone, Copy, Debug)]
pub struct BadInput {
    pub file: TableFile,
    /// The number of the record, from 1; the header is record 1. 0 where the file as a whole is meant.
    pub row: u64,
    /// What is wrong, by the numbers below.
    pub kind: u8,
}

/// Why tables could not be read.
#[derive(Clone, Copy, Debug, Error)]
pub enum LoadError {
    #[error("bad input: {0:?}")]
    Bad(BadInput),
    #[error("out of memory")]
    NoMemory,
}

impl From<OutOfMemory> for LoadError {
    ghost from_gives = { λ _ e. e ≡ load.NoMemory };

    fn from(_: OutOfMemory) -> LoadError {
        LoadError::NoMemory
    }
}

impl From<AllocError> for LoadError {
    ghost from_gives = { λ _ e. e ≡ load.NoMemory };

    fn from(_: AllocError) -> LoadError {
        LoadError::NoMemory
    }
}

impl<T: Drop> From<AllocFailed<T>> for LoadError {
    ghost from_gives = { λ _ e. e ≡ load.NoMemory };

    fn from(_: AllocFailed<T>) -> LoadError {
        LoadError::NoMemory
    }
}

/// The first record is not the header.
pub const WRONG_HEADER: u8 = 1;

/// A record has another number of fields.
pub const WRONG_WIDTH: u8 = 2;

/// A field is not UTF-8.
pub const NOT_TEXT: u8 = 3;

/// A field has not its form.
pub const BAD_FIELD: u8 = 4;

/// A station, fleet, flight or pair stands in an earlier record.
pub const DUPLICATE: u8 = 5;

/// A station is not in the table of stations.
pub const UNKNOWN_STATION: u8 = 6;

/// A flight is not in the table of legs.
pub const UNKNOWN_FLIGHT: u8 = 7;

/// A fleet is not in the table of fleets.
pub const UNKNOWN_FLEET: u8 = 8;

/// A leg arrives in the minute in which it departs.
pub const ZERO_BLOCK: u8 = 9;

/// A leg arrives at the station from which it departs.
pub const TO_ITSELF: u8 = 10;

/// There is one record more than the limit.
pub const TOO_MANY: u8 = 11;

/// The file is longer than the limit.
pub const TOO_LONG: u8 = 12;

/// There is one record of a flight more than a flight may have.
pub const TOO_MANY_OF_FLIGHT: u8 = 13;

/// With this record there are more pairs by which legs may be flown than the limit.
pub const TOO_MANY_CHOICES: u8 = 14;
