//! What commands need of a folder's files, read and judged one after another, or the refusal of the first that is not right.
ghost use Rattle.std.specs.Prelude.{◌≡◌, ◌<◌, ◌^◌, IfOk, Some, length};
ghost use Rattle.bound_cert.specs.ReadProof.{ReadsAs};
ghost use Rattle.csv_fields.specs.Record.{records_of};
ghost use Rattle.dual_bound.specs.OfTables.{IsOfTables};
ghost use Rattle.fleet_model.specs.Legal.{IsAssignment};
ghost use Rattle.fleet_model.specs.Limits.{AreSettings};
ghost use Rattle.fleet_model.specs.Schedule.{fleet_names, fleets_in};
ghost use Rattle.folder_answers.specs.Halted.{MatchHalt};
ghost use Rattle.plan_judge.specs.LegalPlans.{IsLegalPlan};
ghost use Rattle.folder_answers.specs.Refusals.{RefusesFleet, RefusesPlan, RefusesProof, RefusesTables, RefusesTails, RefusesVerdict, fleet_named};
ghost use Rattle.folder_answers.specs.Skeletons.{OnPlan};
ghost use Rattle.plan_text.specs.Reading.{PlanReads};
ghost use Rattle.sched_read.specs.retime_windows.Settled.{CanSettle};
ghost use Rattle.sched_read.specs.Files.{FilesRead, all_bytes};
ghost use Rattle.tail_dates.specs.TailTable.{TailsRead};

use crate::halting::Halt;
use crate::refusing::{fleet_refused, plan_fault, proof_fault, tables_refused, verdict_refused};
use bound_cert::{CertError, Proof, read_proof};
use entries::NoMemory;
use fleet_model::{Assignment, LoadError, TableOptions, Tables};
use plan_judge::{LegalPlan, Verdict, judge};
use plan_text::{PlanError, read_plan};
use sched_read::{TableTexts, load_files};
use std::alloc::Global;
use table_rows::{Names, numbers_of};
use tail_dates::{TailState, read_tails};

/// The tables of a folder. Plans can be settled on them.
pub fn tables_of(alloc: Global, reading: TableOptions, texts: &TableTexts) -> Result<Tables, Halt>
    requires { AreSettings reading.settings }
    ensures read { MatchHalt result (FilesRead (all_bytes texts.now) reading) (RefusesTables (all_bytes texts.now) reading) }
    ensures settles { IfOk result CanSettle }
{
    match load_files(alloc, texts, reading) {
        Ok(tables) => Ok(tables),
        Err(LoadError::Bad(bad)) => Err(tables_refused(alloc, bad)),
        Err(LoadError::NoMemory) => Err(Halt::NoMemory),
    }
}

/// The named tails of a folder, by the bytes of their table.
pub fn tails_of(alloc: Global, tables: &Tables, bytes: &[u8]) -> Result<Vec<TailState>, Halt>
    ensures { MatchHalt result (λ tails. TailsRead tables.now (records_of bytes.now) tails.items) (RefusesTails tables.now bytes.now) }
{
    match read_tails(alloc, tables, bytes) {
        Ok(tails) => Ok(tails),
        Err(LoadError::Bad(bad)) => Err(tables_refused(alloc, bad)),
        Err(LoadError::NoMemory) => Err(Halt::NoMemory),
    }
}

/// The number of the fleet of this name.
pub fn fleet_of(alloc: Global, tables: &Tables, name: &str) -> Result<u32, Halt>
    ensures named { MatchHalt result (λ fleet. fleet_named tables.now name.now ≡ Some fleet) (RefusesFleet tables.now name.now) }
    ensures known { IfOk result (λ fleet. fleet < fleets_in tables.now) }
{
    let names = fleet_names(alloc, tables)?;
    match names.number(name.as_bytes()) {
        Some(fleet) => Ok(fleet as u32),
        None => Err(fleet_refused(alloc, name)),
    }
}

/// The names of the fleets.
fn fleet_names(alloc: Global, tables: &Tables) -> Result<Names, NoMemory>
    ensures same { IfOk result (λ names. names ≡ fleet_names tables.now) }
    ensures many { IfOk result (λ names. length names ≡ fleets_in tables.now) }
    ensures fit { IfOk result (λ names. length names < 2 ^ 32) }
{
    numbers_of(alloc, tables.fleets.as_slice())
}

/// The plan of a folder, legal or not, by its bytes.
pub fn plan_of(alloc: Global, tables: &Tables, bytes: &[u8]) -> Result<Assignment, Halt>
    ensures read { MatchHalt result (PlanReads tables.now (records_of bytes.now)) (RefusesPlan tables.now bytes.now) }
    ensures fits { IfOk result (IsAssignment tables.now) }
{
    match read_plan(alloc, tables, bytes) {
        Ok(plan) => Ok(plan),
        Err(PlanError::Fault(fault)) => Err(plan_fault(alloc, fault)),
        Err(PlanError::NoMemory) => Err(Halt::NoMemory),
    }
}

/// The plan of a folder where it is legal, by its bytes; else its fault, or its verdict.
pub fn legal_plan(alloc: Global, tables: &Tables, bytes: &[u8]) -> Result<LegalPlan, Halt>
    ensures read { MatchHalt result (λ plan. PlanReads tables.now (records_of bytes.now) plan.assignment) (OnPlan tables.now bytes.now (RefusesVerdict tables.now)) }
    ensures legal { IfOk result (IsLegalPlan tables.now) }
{
    let plan = plan_of(alloc, tables, bytes)?;
    match judge(tables, &plan) {
        Verdict::Legal { cost } => Ok(LegalPlan {
            assignment: plan,
            cost,
        }),
        verdict => Err(verdict_refused(alloc, tables, &plan, verdict)),
    }
}

/// The proof of a folder, by its bytes. All that its tree names is of the tables.
pub fn proof_of(alloc: Global, tables: &Tables, bytes: &[u8]) -> Result<Proof, Halt>
    ensures read { MatchHalt result (ReadsAs tables.now bytes.now) (RefusesProof tables.now bytes.now) }
    ensures known { IfOk result (λ proof. IsOfTables tables.now proof.tree) }
{
    match read_proof(alloc, tables, bytes) {
        Ok(proof) => Ok(proof),
        Err(CertError::Fault(fault)) => Err(proof_fault(alloc, fault)),
        Err(CertError::NoMemory) => Err(Halt::NoMemory),
    }
}
