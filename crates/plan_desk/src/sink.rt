ghost use Rattle.std.specs.Prelude.{◌≡◌, ◌≤◌, ℕ, List, Option, OnOk, OnErr};
ghost use Rattle.plan_desk.specs.declared.sink.SinkError.TheVariants.{NoMemory};
ghost use Rattle.plan_desk.specs.Counts.{counted, once_more};
ghost use Rattle.plan_desk.specs.Sink.{handed_with, output_with, AppendsPrefix, MatchPutFailed, OnPutNoMemory, IsPutFailed, IsPutNotFailed};

use std::alloc::AllocError;
use thiserror::Error;

/// Why a piece was not put whole.
#[derive(Clone, Copy, Debug, PartialEq, Eq, Error)]
pub enum SinkError {
    /// A counted fault of the outside: the output could not be written.
    #[error("the output could not be written")]
    Failed,
    /// Want of memory.
    #[error("out of memory")]
    NoMemory,
}

impl From<AllocError> for SinkError {
    ghost from_gives = { λ _ e. e ≡ NoMemory };

    fn from(_: AllocError) -> SinkError {
        SinkError::NoMemory
    }
}

/// What takes the output, piece by piece.
///
/// A sink may tell what was put; the real output does not, and then the clauses on content say nothing.
/// `NoMemory` may come from `put` at any time, and no clause ties it to a cause. Nothing is put then.
pub trait Sink {
    /// The bytes that were put, where the sink tells.
    ghost output: { Self → Option (List ℕ) };

    /// How many puts were made, where the sink counts them. The count stays at 2^64 - 1 once there.
    ghost puts: { Self → Option ℕ };

    /// How many bytes the sink was handed, whatever became of them, where it counts them. The count stays at 2^64 - 1 once
    /// there.
    ghost handed: { Self → Option ℕ };

    /// How many faults were counted.
    ghost faults: { Self → ℕ };

    /// The next call is planned to fail.
    ghost fails_next: { Self → Type 0 };

    /// No call fails, from here on.
    ghost is_steady: { Self → Type 0 };

    /// Appends a piece to the output.
    fn put(&mut self, bytes: &[u8]) -> Result<(), SinkError>
        ensures put { OnOk result (output self.new ≡ output_with (output self.old) bytes.now) }
        ensures prefix { OnErr result (AppendsPrefix bytes.now (output self.old) (output self.new)) }
        ensures unchanged { OnPutNoMemory result (output self.new ≡ output self.old) }
        ensures puts { puts self.new ≡ once_more (puts self.old) }
        ensures handed { handed self.new ≡ handed_with (handed self.old) bytes.now }

        ensures faults { MatchPutFailed result (faults self.new ≡ counted (faults self.old) 1) (faults self.new ≡ faults self.old) }
        ensures faults_never_fall { faults self.old ≤ faults self.new }
        ensures planned { fails_next self.old → IsPutFailed result }
        ensures steady { is_steady self.old → IsPutNotFailed result }
        ensures stays_steady { is_steady self.old → is_steady self.new };

    /// How many faults were counted. The count stays at 2^64 - 1 once there.
    fn faults(&self) -> u64
        ensures { result ≡ faults self.now };
}
