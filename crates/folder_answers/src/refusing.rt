//! Refusals of what was read.
ghost use Rattle.std.specs.Prelude.{◌≡◌, IfOk, IsOkAnd};
ghost use Rattle.folder_answers.specs.Halted.{WhereRefused};
ghost use Rattle.folder_answers.specs.Refusals.{says, verdict_status};
ghost use Rattle.folder_answers.specs.Texts.{bad_input_text, desk_file_of, plan_refused_text, proof_refused_text, unknown_fleet_text, verdict_text};
ghost use Rattle.folder_answers.specs.declared.status.TheConstants.{BAD_INPUT, REFUSED};
ghost use Rattle.fleet_model.specs.Legal.{IsAssignment};
ghost use Rattle.fleet_model.specs.declared.refusals.TheConstants.{TOO_LONG};
ghost use Rattle.plan_judge.specs.Verdicts.{IsVerdict};

use crate::answer::Answer;
use crate::halting::Halt;
use crate::judging::tell_verdict;
use crate::status::{BAD_INPUT, REFUSED};
use crate::texts::{bad_input, plan_refused, proof_refused, unknown_fleet};
use bound_cert::CertFault;
use entries::NoMemory;
use fleet_model::refusals::TOO_LONG;
use fleet_model::{Assignment, BadInput, TableFile, Tables};
use plan_desk::DeskFile;
use plan_judge::Verdict;
use plan_text::PlanFault;
use std::alloc::Global;

/// A file that is longer than its limit.
pub fn too_long(alloc: Global, file: DeskFile) -> Result<Answer, NoMemory>
    ensures { IfOk result (λ answer. answer ≡ says BAD_INPUT (bad_input_text file 0 TOO_LONG)) }
{
    let text = bad_input(alloc, file, 0, TOO_LONG)?;
    Ok(Answer::says(alloc, BAD_INPUT, text))
}

/// Tables that don't read.
pub fn tables_refused(alloc: Global, bad: BadInput) -> Halt
    ensures { WhereRefused result (λ answer. answer ≡ says BAD_INPUT (bad_input_text (desk_file_of bad.file) bad.row bad.kind)) }
{
    let text = bad_input(alloc, desk_file(bad.file), bad.row, bad.kind);
    refused(alloc, BAD_INPUT, text)
}

/// A name that no fleet has.
pub fn fleet_refused(alloc: Global, name: &str) -> Halt
    ensures { WhereRefused result (λ answer. answer ≡ says REFUSED (unknown_fleet_text name.now)) }
{
    refused(alloc, REFUSED, unknown_fleet(alloc, name))
}

/// A plan whose text has a fault.
pub fn plan_fault(alloc: Global, fault: PlanFault) -> Halt
    ensures { WhereRefused result (λ answer. answer ≡ says REFUSED (plan_refused_text fault.row fault.kind)) }
{
    refused(alloc, REFUSED, plan_refused(alloc, fault.row, fault.kind))
}

/// A plan that its verdict refuses.
pub fn verdict_refused(alloc: Global, tables: &Tables, plan: &Assignment, verdict: Verdict) -> Halt
    requires plan { IsAssignment tables.now plan.now }
    requires verdict { IsVerdict tables.now plan.now verdict }
    ensures { WhereRefused result (λ answer. answer ≡ says (verdict_status verdict) (verdict_text tables.now plan.now verdict)) }
{
    match tell_verdict(alloc, tables, plan, verdict) {
        Ok(answer) => Halt::Refused(answer),
        Err(NoMemory) => Halt::NoMemory,
    }
}

/// A proof whose text has a fault.
pub fn proof_fault(alloc: Global, fault: CertFault) -> Halt
    ensures { WhereRefused result (λ answer. answer ≡ says REFUSED (proof_refused_text fault.line fault.kind)) }
{
    refused(alloc, REFUSED, proof_refused(alloc, fault.line, fault.kind))
}

/// A refusal by a text, where there was memory for it.
fn refused(alloc: Global, code: u8, text: Result<Vec<u8>, NoMemory>) -> Halt
    ensures { WhereRefused result (λ answer. IsOkAnd text (λ bytes. answer ≡ says code bytes.items)) }
{
    match text {
        Ok(text) => Halt::Refused(Answer::says(alloc, code, text)),
        Err(NoMemory) => Halt::NoMemory,
    }
}

/// The file of a table.
fn desk_file(table: TableFile) -> DeskFile
    ensures { result ≡ desk_file_of table }
{
    match table {
        TableFile::Stations => DeskFile::Stations,
        TableFile::Fleets => DeskFile::Fleets,
        TableFile::Legs => DeskFile::Legs,
        TableFile::Costs => DeskFile::Costs,
        TableFile::Throughs => DeskFile::Throughs,
        TableFile::Windows => DeskFile::Windows,
        TableFile::Optional => DeskFile::Optional,
        TableFile::Tails => DeskFile::Tails,
    }
}
