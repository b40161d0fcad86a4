ghost use Rattle.fleet_model.specs.declared.refusals.TheConstants.{BAD_FIELD};
ghost use Rattle.std.specs.Prelude.{◌≡◌, ◌+◌, ◌^◌, ◌<◌};
ghost use Rattle.table_rows.specs.Outcome.{headless, refusal_at};
ghost use Rattle.table_rows.specs.declared.faults.RecordError.TheVariants as refused;

use csv_fields::FieldFault;
use entries::NoMemory;
use fleet_model::refusals::{BAD_FIELD, WRONG_HEADER};
use fleet_model::{BadInput, LoadError, TableFile};
use std::alloc::{AllocError, AllocFailed};
use thiserror::Error;

/// Why a record does not read.
#[derive(Clone, Copy, Debug, Error)]
pub enum RecordError {
    /// The least kind of its faults.
    #[error("a record with a fault of kind {kind}")]
    Bad { kind: u8 },
    #[error("out of memory")]
    NoMemory,
}

impl From<FieldFault> for RecordError {
    ghost from_gives = { λ _ e. e ≡ refused.Bad BAD_FIELD };

    fn from(_: FieldFault) -> RecordError {
        RecordError::Bad { kind: BAD_FIELD }
    }
}

impl From<NoMemory> for RecordError {
    ghost from_gives = { λ _ e. e ≡ refused.NoMemory };

    fn from(_: NoMemory) -> RecordError {
        RecordError::NoMemory
    }
}

impl From<AllocError> for RecordError {
    ghost from_gives = { λ _ e. e ≡ refused.NoMemory };

    fn from(_: AllocError) -> RecordError {
        RecordError::NoMemory
    }
}

impl<T: Drop> From<AllocFailed<T>> for RecordError {
    ghost from_gives = { λ _ e. e ≡ refused.NoMemory };

    fn from(_: AllocFailed<T>) -> RecordError {
        RecordError::NoMemory
    }
}

/// The refusal of a table for a fault of the record at a place below its header, counted from 0.
pub fn at_record(file: TableFile, place: usize, error: RecordError) -> LoadError
    requires { place + 2 < 2 ^ 64 }
    ensures { result ≡ refusal_at file place error }
{
    match error {
        RecordError::Bad { kind } => LoadError::Bad(BadInput {
            file,
            row: place as u64 + 2,
            kind,
        }),
        RecordError::NoMemory => LoadError::NoMemory,
    }
}

/// The refusal of a table whose first record is not the header.
pub fn without_header(file: TableFile) -> LoadError
    ensures { result ≡ headless file }
{
    LoadError::Bad(BadInput {
        file,
        row: 1,
        kind: WRONG_HEADER,
    })
}
