//! Writing the files of an answer, in their order.
ghost use Rattle.std.specs.Prelude.{◌≡◌, ◌≤◌, OnErr, OnOk, Some, length, ⊤};
ghost use Rattle.folder_answers.specs.Failed.{MatchFailure};
ghost use Rattle.folder_answers.specs.Written.{HaveLengths, WriteFails, WritesFirst, WritesPart, held_with_texts};
ghost use Rattle.plan_desk.specs.Counts.{CallsAtMost, counted, once_more};
ghost use Rattle.plan_desk.specs.Desk.{ChangesOnly, held_with};
ghost use Rattle.plan_desk.specs.DeskFile.{path_of};
ghost use Rattle.plan_desk.specs.declared.file.TheConstants.{PROOF_LIMIT};

use crate::answer::{Failure, FileText};
use plan_desk::{Desk, DeskError};
use std::alloc::Global;

/// Writes files into a folder, in their order, up to the first that fails. Want of memory leaves those before it alone.
pub fn write_all<D: Desk>(
    alloc: Global,
    desk: &mut D,
    dir: &str,
    texts: &[FileText],
) -> Result<(), Failure>
    ensures written { OnOk result (D.holds desk.new ≡ held_with_texts (D.holds desk.old) dir.now texts.now) }
    ensures part { OnErr result (WritesPart dir.now texts.now (D.holds desk.old) (D.holds desk.new)) }
    ensures stopped { MatchFailure result (λ _. ⊤) (WriteFails dir.now texts.now (D.holds desk.old) (D.holds desk.new) (D.blamed desk.new)) ⊤ }
    ensures first { MatchFailure result (λ _. ⊤) ⊤ (WritesFirst dir.now texts.now (D.holds desk.old) (D.holds desk.new)) }
    ensures lengths { OnOk result (HaveLengths texts.now) }
    ensures faults { MatchFailure result (λ _. D.faults desk.new ≡ D.faults desk.old) (D.faults desk.new ≡ counted (D.faults desk.old) 1) (D.faults desk.new ≡ D.faults desk.old) }
    ensures taken { D.taken desk.new ≡ D.taken desk.old }
    ensures calls { CallsAtMost (length texts.now) (D.calls desk.old) (D.calls desk.new) }
    ensures steady { D.is_steady desk.old → MatchFailure result (λ _. ⊤) ⊥ ⊤ }
{
    for text in texts {
        if let Err(failure) = write_one(alloc, desk, dir, text) {
            return Err(failure);
        }
    }
    Ok(())
}

/// Writes one file into a folder.
fn write_one<D: Desk>(
    alloc: Global,
    desk: &mut D,
    dir: &str,
    text: &FileText,
) -> Result<(), Failure>
    ensures written { OnOk result (D.holds desk.new ≡ held_with (D.holds desk.old) (path_of dir.now text.now.file) (Some text.now.bytes)) }
    ensures others { OnErr result (ChangesOnly (path_of dir.now text.now.file) (D.holds desk.old) (D.holds desk.new)) }
    ensures unchanged { MatchFailure result (λ _. ⊤) ⊤ (D.holds desk.new ≡ D.holds desk.old) }
    ensures faults { MatchFailure result (λ _. D.faults desk.new ≡ D.faults desk.old) (D.faults desk.new ≡ counted (D.faults desk.old) 1) (D.faults desk.new ≡ D.faults desk.old) }
    ensures blamed { MatchFailure result (λ _. ⊤) (D.blamed desk.new ≡ Some text.now.file) ⊤ }
    ensures length { length text.now.bytes ≤ PROOF_LIMIT }
    ensures taken { D.taken desk.new ≡ D.taken desk.old }
    ensures calls { D.calls desk.new ≡ once_more (D.calls desk.old) }
    ensures steady { D.is_steady desk.old → MatchFailure result (λ _. ⊤) ⊥ ⊤ }
    ensures stays_steady { D.is_steady desk.old → D.is_steady desk.new }
{
    match desk.write(alloc, dir, text.file, text.bytes.as_slice()) {
        Ok(()) => Ok(()),
        Err(DeskError::Failed) => Err(Failure::Fault),
        Err(DeskError::NoMemory) => Err(Failure::NoMemory),
        Err(DeskError::TooLong) => unreachable!(),
    }
}
