ghost use Rattle.std.specs.Prelude.{◌≡◌, ◌+◌, ◌-◌, ◌<◌, ◌≤◌, ◌^◌, ℕ, List, Option, Some, None, length, IsSome, IfSome, IsSomeAnd, IfOk, OnOk, OnErr};
ghost use Rattle.plan_desk.specs.declared.file.DeskFile.{DeskFile};
ghost use Rattle.plan_desk.specs.declared.desk.DeskError.TheVariants.{NoMemory};
ghost use Rattle.plan_desk.specs.DeskFile.{path_of};
ghost use Rattle.plan_desk.specs.Counts.{counted, once_more, RoseBy};
ghost use Rattle.plan_desk.specs.Desk.{Files, held_with, ChangesOnly, MatchFailed, OnNoMemory, OnNotTooLong, OnTooLong, IsFailed, IsNotFailed};

use crate::DeskFile;
use std::alloc::{AllocError, AllocFailed, Global};
use thiserror::Error;

/// Why a call of a desk gave nothing.
#[derive(Clone, Copy, Debug, PartialEq, Eq, Error)]
pub enum DeskError {
    /// A counted fault of the outside: the file is missing, unreadable or cannot be written.
    #[error("the file could not be read or written")]
    Failed,
    /// More bytes stand there than the limit of the read.
    #[error("the file is too long")]
    TooLong,
    /// Want of memory.
    #[error("out of memory")]
    NoMemory,
}

impl From<AllocError> for DeskError {
    ghost from_gives = { λ _ e. e ≡ NoMemory };

    fn from(_: AllocError) -> DeskError {
        DeskError::NoMemory
    }
}

impl<T: Drop> From<AllocFailed<T>> for DeskError {
    ghost from_gives = { λ _ e. e ≡ NoMemory };

    fn from(_: AllocFailed<T>) -> DeskError {
        DeskError::NoMemory
    }
}

/// Files under names, read and written whole. A name is a folder, a slash and the name of a `DeskFile`.
///
/// A desk may tell what it holds; one over real files does not, and then the clauses on content say nothing.
/// `NoMemory` may come from `read` and `write` at any time, and no clause ties it to a cause. Nothing changes then.
pub trait Desk {
    /// What stands under each name, where the desk tells.
    ghost holds: { Self → Option Files };

    /// How many faults were counted.
    ghost faults: { Self → ℕ };

    /// The file of the last call that answered `Failed`.
    ghost blamed: { Self → Option DeskFile };

    /// How many bytes reads took.
    ghost taken: { Self → ℕ };

    /// How many calls were made, reads and writes together, where the desk counts them. The count stays at 2^64 - 1 once
    /// there.
    ghost calls: { Self → Option ℕ };

    /// The next call is planned to fail.
    ghost fails_next: { Self → Type 0 };

    /// Nothing but a missing file makes a call fail, from here on.
    ghost is_steady: { Self → Type 0 };

    /// The bytes of a file, of which there may be up to `limit`.
    fn read(
        &mut self,
        alloc: Global,
        dir: &str,
        file: DeskFile,
        limit: u64,
    ) -> Result<Vec<u8>, DeskError>
        ensures bytes { IfOk result (λ bytes. IfSome (holds self.old) (λ files. files (path_of dir.now file) ≡ Some bytes.items)) }
        ensures within { IfOk result (λ bytes. length bytes.items ≤ limit) }
        ensures holds { holds self.new ≡ holds self.old }

        // With `bytes` and `within`: `TooLong` exactly where more than the limit stands there.
        ensures too_long { OnTooLong result (IfSome (holds self.old) (λ files. IsSomeAnd (files (path_of dir.now file)) (λ bytes. limit < length bytes))) }
        ensures too_long_taken { OnTooLong result (RoseBy (limit + 1) (taken self.old) (taken self.new)) }
        ensures too_long_limit { OnTooLong result (limit < 2 ^ 63 - 1) }

        ensures taken { IfOk result (λ bytes. taken self.new ≡ counted (taken self.old) (length bytes.items)) }
        ensures taken_few { OnNotTooLong result (taken self.new ≤ taken self.old + (limit + 1)) }
        ensures taken_never_falls { taken self.old ≤ taken self.new }
        ensures calls { calls self.new ≡ once_more (calls self.old) }

        ensures faults { MatchFailed result (faults self.new ≡ counted (faults self.old) 1) (faults self.new ≡ faults self.old) }
        ensures faults_never_fall { faults self.old ≤ faults self.new }
        ensures blamed { MatchFailed result (blamed self.new ≡ Some file) (blamed self.new ≡ blamed self.old) }
        ensures planned { fails_next self.old → IsFailed result }
        ensures steady { is_steady self.old → IsSomeAnd (holds self.old) (λ files. IsSome (files (path_of dir.now file))) → IsNotFailed result }
        ensures stays_steady { is_steady self.old → is_steady self.new };

    /// Puts these bytes under the name, in the place of what stood there.
    fn write(
        &mut self,
        alloc: Global,
        dir: &str,
        file: DeskFile,
        bytes: &[u8],
    ) -> Result<(), DeskError>
        ensures written { OnOk result (holds self.new ≡ held_with (holds self.old) (path_of dir.now file) (Some bytes.now)) }
        ensures others_stay { OnErr result (ChangesOnly (path_of dir.now file) (holds self.old) (holds self.new)) }
        ensures unchanged { OnNoMemory result (holds self.new ≡ holds self.old) }
        ensures never_too_long { OnTooLong result ⊥ }
        ensures taken { taken self.new ≡ taken self.old }
        ensures calls { calls self.new ≡ once_more (calls self.old) }

        ensures faults { MatchFailed result (faults self.new ≡ counted (faults self.old) 1) (faults self.new ≡ faults self.old) }
        ensures faults_never_fall { faults self.old ≤ faults self.new }
        ensures blamed { MatchFailed result (blamed self.new ≡ Some file) (blamed self.new ≡ blamed self.old) }
        ensures planned { fails_next self.old → IsFailed result }
        ensures steady { is_steady self.old → IsNotFailed result }
        ensures stays_steady { is_steady self.old → is_steady self.new };

    /// The file of the last call that answered `Failed`, and `None` before any did.
    fn blamed(&self) -> Option<DeskFile>
        ensures { result ≡ blamed self.now };

    /// How many bytes reads took. The count stays at 2^64 - 1 once there.
    fn taken(&self) -> u64
        ensures { result ≡ taken self.now };

    /// How many faults were counted. The count stays at 2^64 - 1 once there.
    fn faults(&self) -> u64
        ensures { result ≡ faults self.now };

    /// Only a desk that tells what it holds is steady.
    ghost steady_tells: { (desk : Self) → is_steady desk → IsSome (holds desk) };
}
