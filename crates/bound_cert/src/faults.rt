ghost use Rattle.std.specs.Prelude.{◌≡◌};
ghost use Rattle.bound_cert.specs.declared.faults.CertError.TheVariants as cert;
ghost use Rattle.bound_cert.specs.declared.faults.Stop.TheVariants as stop;

use entries::NoMemory as OutOfMemory;
use std::alloc::{AllocError, AllocFailed};
use thiserror::Error;

/// The first fault of a proof's text.
#[derive(Clone, Copy, Debug)]
pub struct CertFault {
    /// The number of the line, from 1. A line that is missing has the number that it would have.
    pub line: u64,
    /// What is wrong, by the numbers below. Of several the least.
    pub kind: u8,
}

/// Why a proof's text could not be read.
#[derive(Clone, Copy, Debug, Error)]
pub enum CertError {
    #[error("bad proof: {0:?}")]
    Fault(CertFault),
    #[error("out of memory")]
    NoMemory,
}

impl From<OutOfMemory> for CertError {
    ghost from_gives = { λ _ e. e ≡ cert.NoMemory };

    fn from(_: OutOfMemory) -> CertError {
        CertError::NoMemory
    }
}

impl From<AllocError> for CertError {
    ghost from_gives = { λ _ e. e ≡ cert.NoMemory };

    fn from(_: AllocError) -> CertError {
        CertError::NoMemory
    }
}

/// The first line is not the head of a version that texts of the tables have, with its line feed.
pub const WRONG_HEAD: u8 = 1;

/// The line has no line feed, or a byte outside 32 to 126.
pub const BAD_LINE: u8 = 2;

/// The text ends where a line is due.
pub const TEXT_ENDS: u8 = 3;

/// The first word, or the second after `plan` and `open`, may not stand here; or a line stands after `end`.
pub const WRONG_WORD: u8 = 4;

/// The number of words is wrong, or spaces are.
pub const WRONG_WIDTH: u8 = 5;

/// A number isn't of its form or not in its range.
pub const WRONG_NUMBER: u8 = 6;

/// A flight, fleet or station is unknown.
pub const UNKNOWN_NAME: u8 = 7;

/// The line isn't in its order.
pub const WRONG_ORDER: u8 = 8;

/// More trims and splits than `MAX_DEPTH` stand above the node.
pub const TOO_DEEP: u8 = 9;

/// Where reading stopped.
#[derive(Clone, Copy)]
pub enum Stop {
    /// At a fault.
    Fault {
        /// How many lines were left, this one among them, and what stands behind the last line feed counted as one.
        left: usize,
        /// What is wrong.
        kind: u8,
    },
    /// No more memory.
    NoMemory,
}

impl From<OutOfMemory> for Stop {
    ghost from_gives = { λ _ e. e ≡ stop.NoMemory };

    fn from(_: OutOfMemory) -> Stop {
        Stop::NoMemory
    }
}

impl From<AllocError> for Stop {
    ghost from_gives = { λ _ e. e ≡ stop.NoMemory };

    fn from(_: AllocError) -> Stop {
        Stop::NoMemory
    }
}

impl<T: Drop> From<AllocFailed<T>> for Stop {
    ghost from_gives = { λ _ e. e ≡ stop.NoMemory };

    fn from(_: AllocFailed<T>) -> Stop {
        Stop::NoMemory
    }
}
