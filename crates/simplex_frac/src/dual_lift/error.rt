ghost use Rattle.std.specs.Prelude.{◌≡◌};
ghost use Rattle.simplex_frac.specs.declared.dual_lift.error.LiftError.TheVariants as lift;

use entries::NoMemory as OutOfMemory;
use std::alloc::{AllocError, AllocFailed};
use thiserror::Error;

/// A number that outgrew its limit, or passed that of scales or prices: first in this step, and there at this place.
/// The steps, by their numbers, are below.
#[derive(Clone, Copy, Debug, Error)]
#[error("too large in step {step} at {at}")]
pub struct Excess {
    pub step: u64,
    pub at: u64,
}

/// Why a last table gives no prices.
#[derive(Clone, Copy, Debug, Error)]
pub enum LiftError {
    /// A number is too large: first in this step, and there at this place.
    #[error("too large in step {step} at {at}")]
    TooLarge { step: u64, at: u64 },
    #[error("out of memory")]
    NoMemory,
}

impl From<Excess> for LiftError {
    ghost from_gives = { λ excess e. e ≡ lift.TooLarge excess.step excess.at };

    fn from(excess: Excess) -> LiftError {
        LiftError::TooLarge {
            step: excess.step,
            at: excess.at,
        }
    }
}

impl From<OutOfMemory> for LiftError {
    ghost from_gives = { λ _ e. e ≡ lift.NoMemory };

    fn from(_: OutOfMemory) -> LiftError {
        LiftError::NoMemory
    }
}

impl From<AllocError> for LiftError {
    ghost from_gives = { λ _ e. e ≡ lift.NoMemory };

    fn from(_: AllocError) -> LiftError {
        LiftError::NoMemory
    }
}

impl<T: Drop> From<AllocFailed<T>> for LiftError {
    ghost from_gives = { λ _ e. e ≡ lift.NoMemory };

    fn from(_: AllocFailed<T>) -> LiftError {
        LiftError::NoMemory
    }
}

/// How often the phase row is added to the cost row; the place is a real column.
pub const PHASES_STEP: u64 = 1;

/// The common scale of both rows; the place is 0.
pub const SCALE_STEP: u64 = 2;

/// The dual values; the place is a line.
pub const VALUES_STEP: u64 = 3;

/// The scale of the prices, in lowest terms; the place is 0.
pub const PRICE_SCALE_STEP: u64 = 4;

/// The prices and rents; the place is a line.
pub const PRICES_STEP: u64 = 5;

/// The scale of the weights; the place is a line.
pub const WEIGHTS_STEP: u64 = 6;

/// The prices and rents that are paid back; the place is a fleet.
pub const PAYBACK_STEP: u64 = 7;
