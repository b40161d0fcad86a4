ghost use Rattle.std.specs.Prelude.{◌≡◌, ◌≤◌, Some, None};
ghost use Rattle.plan_desk.specs.Counts.{counted};
ghost use Rattle.plan_desk.specs.Desk.{MatchFailed};

use crate::counts::count_up;
use crate::{DeskError, DeskFile};

/// How many faults a desk has counted, and the file of the last.
#[derive(Drop)]
pub struct FaultCount {
    pub count: u64,
    pub blamed: Option<DeskFile>,
}

impl FaultCount {
    /// No fault so far.
    pub fn new() -> FaultCount
        ensures count { result.count ≡ 0 }
        ensures blamed { result.blamed ≡ None }
    {
        FaultCount {
            count: 0,
            blamed: None,
        }
    }

    /// Counts a fault of a call on the file, and gives the answer for it.
    pub fn blame(&mut self, file: DeskFile) -> DeskError
        ensures failed { result ≡ DeskError.Failed }
        ensures count { self.new.count ≡ counted self.old.count 1 }
        ensures never_falls { self.old.count ≤ self.new.count }
        ensures blamed { self.new.blamed ≡ Some file }
    {
        count_up(&mut self.count, 1);
        self.blamed = Some(file);
        DeskError::Failed
    }

    /// Counts a fault of a call on the file where its answer is `Failed`.
    pub fn note<T>(&mut self, file: DeskFile, answer: Result<T, DeskError>) -> Result<T, DeskError>
        ensures answer { result ≡ answer }
        ensures count { MatchFailed result (self.new.count ≡ counted self.old.count 1) (self.new.count ≡ self.old.count) }
        ensures never_falls { self.old.count ≤ self.new.count }
        ensures blamed { MatchFailed result (self.new.blamed ≡ Some file) (self.new.blamed ≡ self.old.blamed) }
    {
        match answer {
            Err(DeskError::Failed) => Err(self.blame(file)),
            answer => answer,
        }
    }
}
