ghost use Rattle.std.specs.Prelude.{◌≡◌, ◌+◌, ◌-◌, ◌<◌, ◌≤◌, ◌^◌, ◌⊎◌, ◌↔◌, ℕ, false, List, [], Option, Some, None, length, option_copied, string_bytes, IsSome, IsNone, IfSome, IsSomeAnd, IfOk, OnOk, OnErr, ⊤};
ghost use Rattle.std.proofs.Common.{rules};
ghost use Rattle.plan_desk.specs.DeskFile.{path_of};
ghost use Rattle.plan_desk.specs.Counts.{counted, RoseBy};
ghost use Rattle.plan_desk.specs.Desk.{Files, with_file, held_with, ChangesOnly, MatchAnswer, MatchFailed, OnFailed, OnNoMemory, OnTooLong, IsFailed, IsNotFailed};
ghost use Rattle.test_desks.specs.Failing.{IsListed};
ghost use Rattle.test_desks.specs.Memory.{files_in, laid_down, files_of, calls_of, failing_of, faults_of, blamed_of, taken_of, had_no_memory, IsToFail, IsCutWrite};

use crate::FailingCall;
use crate::failing::{CallPlan, first_bytes};
use entries::NoMemory;
use plan_desk::{Desk, DeskError, DeskFile, FaultCount, count_up, path};
use std::alloc::{AllocError, Global};
use std::collections::BTreeMap;

/// A desk whose files are in memory. It tells what it holds, and calls of its own choice fail, for tests.
///
/// Calls are counted from 1, reads and writes together. A read that is to fail does nothing else; a write that is to
/// fail leaves its first bytes under the name, as many as the list says. A read of a name under which nothing stands is
/// a counted fault.
#[derive(Drop)]
pub struct MemoryDesk {
    files: BTreeMap<String, Vec<u8>>,
    plan: CallPlan,
    faults: FaultCount,
    taken: u64,
    no_memory: bool,
}

impl MemoryDesk {
    /// A desk with these files, of which a later one of a name stands, and the calls that are to fail.
    pub fn new(
        alloc: Global,
        files: Vec<(String, Vec<u8>)>,
        failing: Vec<FailingCall>,
    ) -> Result<MemoryDesk, NoMemory>
        ensures files { IfOk result (λ desk. files_of desk ≡ laid_down files.items) }
        ensures failing { IfOk result (λ desk. failing_of desk ≡ failing.items) }
        ensures calls { IfOk result (λ desk. calls_of desk ≡ 0) }
        ensures no_memory { IfOk result (λ desk. had_no_memory desk ≡ false) }
        ensures holds { IfOk result (λ desk. ⟦<MemoryDesk as Desk>⟧.holds desk ≡ Some (laid_down files.items)) }
        ensures faults { IfOk result (λ desk. ⟦<MemoryDesk as Desk>⟧.faults desk ≡ 0) }
        ensures blamed { IfOk result (λ desk. ⟦<MemoryDesk as Desk>⟧.blamed desk ≡ None) }
        ensures taken { IfOk result (λ desk. ⟦<MemoryDesk as Desk>⟧.taken desk ≡ 0) }
        ensures counts { IfOk result (λ desk. ⟦<MemoryDesk as Desk>⟧.calls desk ≡ Some 0) }
        ensures fails_next { IfOk result (λ desk. ⟦<MemoryDesk as Desk>⟧.fails_next desk ↔ IsListed 1 failing.items) }
        ensures steady { IfOk result (λ desk. ⟦<MemoryDesk as Desk>⟧.is_steady desk ↔ (failing.items ≡ [])) }
    {
        let mut held = BTreeMap::new(alloc);
        for (name, bytes) in files {
            lay_down(&mut held, name, bytes)?;
        }
        Ok(MemoryDesk {
            files: held,
            plan: CallPlan::new(failing),
            faults: FaultCount::new(),
            taken: 0,
            no_memory: false,
        })
    }

    /// The bytes that stand under a name.
    pub fn file(&self, name: &str) -> Option<&[u8]>
        ensures { option_copied result ≡ files_of self.now name.now }
    {
        match self.files.get(name) {
            Some(bytes) => Some(bytes.as_slice()),
            None => None,
        }
    }

    /// Whether the last write that was to fail had no memory for the bytes that it leaves, and changed nothing.
    pub fn had_no_memory(&self) -> bool
        ensures { result ≡ had_no_memory self.now }
    {
        self.no_memory
    }
}

/// Puts a copy of bytes under the name of a file of the folder.
fn lay_copy(
    files: &mut BTreeMap<String, Vec<u8>>,
    alloc: Global,
    dir: &str,
    file: DeskFile,
    bytes: &[u8],
) -> Result<(), AllocError>
    ensures laid_down { OnOk result (files_in files.new ≡ with_file (files_in files.old) (path_of dir.now file) (Some bytes.now)) }
    ensures unchanged { OnErr result (files_in files.new ≡ files_in files.old) }
{
    let name = path(alloc, dir, file)?;
    let bytes = bytes.to_vec(alloc)?;
    lay_down(files, name, bytes)
}

/// Puts bytes under a name, in the place of what stood there.
fn lay_down(
    files: &mut BTreeMap<String, Vec<u8>>,
    name: String,
    bytes: Vec<u8>,
) -> Result<(), AllocError>
    ensures laid_down { OnOk result (files_in files.new ≡ with_file (files_in files.old) (string_bytes name) (Some bytes.items)) }
    ensures unchanged { OnErr result (files_in files.new ≡ files_in files.old) }
{
    files.insert(name, bytes)?;
    Ok(())
}

impl Desk for MemoryDesk {
    ghost holds = { λ desk. Some (files_of desk) };

    ghost faults = { faults_of };

    ghost blamed = { blamed_of };

    ghost taken = { taken_of };

    ghost calls = { λ desk. Some (calls_of desk) };

    ghost fails_next = { IsToFail };

    ghost is_steady = { λ desk. failing_of desk ≡ [] };

    ghost steady_tells = { λ desk steady. Prim.search rules };

    /// Also says that `Failed` comes only of a listed call or a missing name, and counts one fault; and how many bytes each
    /// answer takes.
    fn read(
        &mut self,
        alloc: Global,
        dir: &str,
        file: DeskFile,
        limit: u64,
    ) -> Result<Vec<u8>, DeskError>
        ensures bytes { IfOk result (λ bytes. files_of self.old (path_of dir.now file) ≡ Some bytes.items) }
        ensures within { IfOk result (λ bytes. length bytes.items ≤ limit) }
        ensures files { files_of self.new ≡ files_of self.old }

        ensures too_long { OnTooLong result (IsSomeAnd (files_of self.old (path_of dir.now file)) (λ bytes. limit < length bytes)) }
        ensures too_long_taken { OnTooLong result (RoseBy (limit + 1) (taken_of self.old) (taken_of self.new)) }
        ensures too_long_limit { OnTooLong result (limit < 2 ^ 63 - 1) }

        ensures taken { IfOk result (λ bytes. taken_of self.new ≡ counted (taken_of self.old) (length bytes.items)) }
        ensures taken_else { MatchAnswer result (λ bytes. ⊤) (taken_of self.new ≡ taken_of self.old)
            (IsSomeAnd (files_of self.old (path_of dir.now file)) (λ bytes. taken_of self.new ≡ counted (taken_of self.old) (length bytes)))
            (taken_of self.new ≡ taken_of self.old) }
        ensures taken_never_falls { taken_of self.old ≤ taken_of self.new }

        ensures faults { MatchFailed result (faults_of self.new ≡ counted (faults_of self.old) 1) (faults_of self.new ≡ faults_of self.old) }
        ensures faults_never_fall { faults_of self.old ≤ faults_of self.new }
        ensures blamed { MatchFailed result (blamed_of self.new ≡ Some file) (blamed_of self.new ≡ blamed_of self.old) }
        ensures planned { IsToFail self.old → IsFailed result }
        ensures failed_only { OnFailed result (IsToFail self.old ⊎ IsNone (files_of self.old (path_of dir.now file))) }
        ensures calls { calls_of self.new ≡ counted (calls_of self.old) 1 }
        ensures failing { failing_of self.new ≡ failing_of self.old }
        ensures no_memory { had_no_memory self.new ≡ had_no_memory self.old }
    {
        if self.plan.next_failing().is_some() {
            return Err(self.faults.blame(file));
        }
        let name = path(alloc, dir, file)?;
        let Some(bytes) = self.file(name.as_str()) else {
            return Err(self.faults.blame(file));
        };
        let len = bytes.len() as u64;
        if len > limit {
            count_up(&mut self.taken, len);
            return Err(DeskError::TooLong);
        }
        let copy = bytes.to_vec(alloc)?;
        count_up(&mut self.taken, len);
        Ok(copy)
    }

    /// Also says that `Failed` comes only of a listed call and counts one fault, and what stands then: the first bytes,
    /// or, where memory was refused for them, what stood before.
    #[tactic(auto, using(crate::proofs::FilesLemmas::unchanged_changes_only))]
    fn write(
        &mut self,
        alloc: Global,
        dir: &str,
        file: DeskFile,
        bytes: &[u8],
    ) -> Result<(), DeskError>
        ensures written { OnOk result (files_of self.new ≡ with_file (files_of self.old) (path_of dir.now file) (Some bytes.now)) }
        ensures cut { OnFailed result (IsCutWrite (path_of dir.now file) bytes.now self.old self.new) }
        ensures unchanged { OnNoMemory result (files_of self.new ≡ files_of self.old) }
        ensures others_stay { OnErr result (ChangesOnly (path_of dir.now file) (Some (files_of self.old)) (Some (files_of self.new))) }
        ensures never_too_long { OnTooLong result ⊥ }
        ensures taken { taken_of self.new ≡ taken_of self.old }

        ensures faults { MatchFailed result (faults_of self.new ≡ counted (faults_of self.old) 1) (faults_of self.new ≡ faults_of self.old) }
        ensures faults_never_fall { faults_of self.old ≤ faults_of self.new }
        ensures blamed { MatchFailed result (blamed_of self.new ≡ Some file) (blamed_of self.new ≡ blamed_of self.old) }
        ensures planned { IsToFail self.old → IsFailed result }
        ensures failed_only { OnFailed result (IsToFail self.old) }
        ensures calls { calls_of self.new ≡ counted (calls_of self.old) 1 }
        ensures failing { failing_of self.new ≡ failing_of self.old }
        ensures no_memory { MatchFailed result ⊤ (had_no_memory self.new ≡ had_no_memory self.old) }
    {
        if let Some(count) = self.plan.next_failing() {
            let left = first_bytes(bytes, count);
            self.no_memory = lay_copy(&mut self.files, alloc, dir, file, left).is_err();
            return Err(self.faults.blame(file));
        }
        lay_copy(&mut self.files, alloc, dir, file, bytes)?;
        Ok(())
    }

    fn blamed(&self) -> Option<DeskFile> {
        self.faults.blamed
    }

    fn taken(&self) -> u64 {
        self.taken
    }

    fn faults(&self) -> u64 {
        self.faults.count
    }
}
