ghost use Rattle.std.specs.Prelude.{◌≡◌};
ghost use Rattle.plan_text.specs.declared.faults.PlanError.TheVariants as plan;

use entries::NoMemory as OutOfMemory;
use std::alloc::{AllocError, AllocFailed};
use thiserror::Error;

/// The first fault of a plan's text.
#[derive(Clone, Copy, Debug)]
pub struct PlanFault {
    /// The number of the record, from 1; the header is record 1. A record that is missing has the number that it
    /// would have.
    pub row: u64,
    /// What is wrong, by the numbers below. Of several the least.
    pub kind: u8,
}

/// Why a plan's text could not be read.
#[derive(Clone, Copy, Debug, Error)]
pub enum PlanError {
    #[error("bad plan: {0:?}")]
    Fault(PlanFault),
    #[error("out of memory")]
    NoMemory,
}

impl From<OutOfMemory> for PlanError {
    ghost from_gives = { λ _ e. e ≡ plan.NoMemory };

    fn from(_: OutOfMemory) -> PlanError {
        PlanError::NoMemory
    }
}

impl From<AllocError> for PlanError {
    ghost from_gives = { λ _ e. e ≡ plan.NoMemory };

    fn from(_: AllocError) -> PlanError {
        PlanError::NoMemory
    }
}

impl<T: Drop> From<AllocFailed<T>> for PlanError {
    ghost from_gives = { λ _ e. e ≡ plan.NoMemory };

    fn from(_: AllocFailed<T>) -> PlanError {
        PlanError::NoMemory
    }
}

impl From<PlanFault> for PlanError {
    ghost from_gives = { λ fault e. e ≡ plan.Fault fault };

    fn from(fault: PlanFault) -> PlanError {
        PlanError::Fault(fault)
    }
}

/// The first record is not the header.
pub const WRONG_HEADER: u8 = 1;

/// A record is not two fields of UTF-8, or three where legs may have other times than their own.
pub const WRONG_FIELDS: u8 = 2;

/// The flight is not the one that the schedule has at this place.
pub const WRONG_FLIGHT: u8 = 3;

/// The fleet is not in the table of fleets, or the leg has not this time, as it is written; or the fleet is `-` where no
/// leg may be left out, or beside a time other than 0.
pub const UNKNOWN_CHOICE: u8 = 4;

/// There is a record beyond the legs, whatever it holds, or the record of a leg is missing.
pub const WRONG_COUNT: u8 = 5;
