ghost use Rattle.std.specs.Prelude.{◌≡◌, ◌+◌, ◌≤◌, ◌↔◌, ℕ, false, List, [], ◌++◌, Option, Some, length, OnOk, OnErr, ⊤};
ghost use Rattle.plan_desk.specs.Counts.{counted};
ghost use Rattle.plan_desk.specs.Sink.{output_with, AppendsPrefix, MatchPutFailed, OnPutFailed, OnPutNoMemory, IsPutFailed, IsPutNotFailed};
ghost use Rattle.test_desks.specs.Failing.{IsListed};
ghost use Rattle.test_desks.specs.Memory.{put_bytes_of, puts_of, handed_of, failing_puts_of, put_faults_of, put_had_no_memory, IsPutToFail, IsCutPut};

use crate::FailingCall;
use crate::failing::{CallPlan, first_bytes};
use plan_desk::{Sink, SinkError, count_up};

/// A sink that keeps the output in memory. It tells what was put, and puts of its own choice fail, for tests.
///
/// Puts are counted from 1, and so are the bytes that they are handed. A put that is to fail appends its first bytes, as
/// many as the list says.
#[derive(Drop)]
pub struct MemorySink {
    output: Vec<u8>,
    plan: CallPlan,
    handed: u64,
    faults: u64,
    no_memory: bool,
}

impl MemorySink {
    /// A sink with no output yet, and the puts that are to fail. Takes no memory.
    pub fn new(failing: Vec<FailingCall>) -> MemorySink
        ensures output { put_bytes_of result ≡ [] }
        ensures failing { failing_puts_of result ≡ failing.items }
        ensures puts { puts_of result ≡ 0 }
        ensures no_memory { put_had_no_memory result ≡ false }
        ensures counts { ⟦<MemorySink as Sink>⟧.puts result ≡ Some 0 }
        ensures handed { ⟦<MemorySink as Sink>⟧.handed result ≡ Some 0 }
        ensures tells { ⟦<MemorySink as Sink>⟧.output result ≡ Some [] }
        ensures faults { ⟦<MemorySink as Sink>⟧.faults result ≡ 0 }
        ensures fails_next { ⟦<MemorySink as Sink>⟧.fails_next result ↔ IsListed 1 failing.items }
        ensures steady { ⟦<MemorySink as Sink>⟧.is_steady result ↔ (failing.items ≡ []) }
    {
        MemorySink {
            output: Vec::new(*failing.allocator()),
            plan: CallPlan::new(failing),
            handed: 0,
            faults: 0,
            no_memory: false,
        }
    }

    /// The bytes that were put.
    pub fn put_bytes(&self) -> &[u8]
        ensures { result.now ≡ put_bytes_of self.now }
    {
        self.output.as_slice()
    }

    /// Whether the last put that was to fail had no memory for the bytes that it appends, and appended nothing.
    pub fn had_no_memory(&self) -> bool
        ensures { result ≡ put_had_no_memory self.now }
    {
        self.no_memory
    }
}

impl Sink for MemorySink {
    ghost output = { λ sink. Some (put_bytes_of sink) };

    ghost puts = { λ sink. Some (puts_of sink) };

    ghost handed = { λ sink. Some (handed_of sink) };

    ghost faults = { put_faults_of };

    ghost fails_next = { IsPutToFail };

    ghost is_steady = { λ sink. failing_puts_of sink ≡ [] };

    /// Also says that `Failed` comes only of a listed put and counts one fault, and what was put then: the first bytes of
    /// the piece, or, where memory was refused for them, nothing of it.
    fn put(&mut self, bytes: &[u8]) -> Result<(), SinkError>
        ensures put { OnOk result (put_bytes_of self.new ≡ put_bytes_of self.old ++ bytes.now) }
        ensures cut { OnPutFailed result (IsCutPut bytes.now self.old self.new) }
        ensures unchanged { OnPutNoMemory result (put_bytes_of self.new ≡ put_bytes_of self.old) }
        ensures prefix { OnErr result (AppendsPrefix bytes.now (Some (put_bytes_of self.old)) (Some (put_bytes_of self.new))) }
        ensures faults { MatchPutFailed result (put_faults_of self.new ≡ counted (put_faults_of self.old) 1) (put_faults_of self.new ≡ put_faults_of self.old) }
        ensures faults_never_fall { put_faults_of self.old ≤ put_faults_of self.new }
        ensures planned { IsPutToFail self.old → IsPutFailed result }
        ensures failed_only { OnPutFailed result (IsPutToFail self.old) }
        ensures puts { puts_of self.new ≡ counted (puts_of self.old) 1 }
        ensures handed { handed_of self.new ≡ counted (handed_of self.old) (length bytes.now) }
        ensures failing { failing_puts_of self.new ≡ failing_puts_of self.old }
        ensures no_memory { MatchPutFailed result ⊤ (put_had_no_memory self.new ≡ put_had_no_memory self.old) }
    {
        count_up(&mut self.handed, bytes.len() as u64);
        if let Some(count) = self.plan.next_failing() {
            let left = first_bytes(bytes, count);
            self.no_memory = self.output.extend_from_slice(left).is_err();
            count_up(&mut self.faults, 1);
            return Err(SinkError::Failed);
        }
        self.output.extend_from_slice(bytes)?;
        Ok(())
    }

    fn faults(&self) -> u64 {
        self.faults
    }
}
