//! Reading the files of a folder, in their order.
ghost use Rattle.std.specs.Prelude.{◌≡◌, ◌≢◌, ◌+◌, ◌<◌, ◌≤◌, Some, None, IfSome, IsSomeAnd, length, ⊤};
ghost use Rattle.folder_answers.specs.Contents.{file_content};
ghost use Rattle.folder_answers.specs.Gathered.{AllHeld, CalledTooLong, ComesTo, IsAmong, IsFirstTooLong, MatchStop, ReadFailsAmong, limit_of};
ghost use Rattle.folder_answers.specs.declared.gathering.Stop.TheVariants as stop;
ghost use Rattle.plan_desk.specs.Counts.{CallsAtMost, RoseBy, counted, once_more};
ghost use Rattle.plan_desk.specs.DeskFile.{path_of};
ghost use Rattle.plan_desk.specs.declared.file.DeskFile.TheVariants as desk_file;
ghost use Rattle.plan_desk.specs.declared.file.TheConstants.{PROOF_LIMIT, TABLE_LIMIT};

use crate::contents::Contents;
use entries::Entries;
use plan_desk::{Desk, DeskError, DeskFile, PROOF_LIMIT, TABLE_LIMIT};
use std::alloc::Global;

/// Why reading ends before its end.
#[derive(Clone, Copy)]
pub enum Stop {
    /// The desk failed; it tells which file is to blame.
    Fault,
    /// A file is longer than its limit.
    TooLong { file: DeskFile },
    NoMemory,
}

/// What the files of a folder hold, each within its limit, read in the order of the list.
pub fn read_files<D: Desk>(
    alloc: Global,
    desk: &mut D,
    dir: &str,
    files: &[DeskFile],
) -> Result<Contents, Stop>
    ensures told { IfSome (D.holds desk.old) (λ held. MatchStop result
        (λ contents. AllHeld held dir.now files.now (file_content contents)) ⊤ (IsFirstTooLong held dir.now (ComesTo held dir.now files.now)) ⊤) }
    ensures too_long { MatchStop result (λ _. ⊤) ⊤ (CalledTooLong (RoseBy (TABLE_LIMIT + 1) (D.taken desk.old) (D.taken desk.new)) (IsAmong files.now)) ⊤ }
    ensures taken { D.taken desk.old ≤ D.taken desk.new }
    ensures holds { D.holds desk.new ≡ D.holds desk.old }
    ensures calls { CallsAtMost (length files.now) (D.calls desk.old) (D.calls desk.new) }

    // One fault is counted exactly where reading stops at one, and then a file of the list is blamed.
    ensures faults { MatchStop result (λ _. D.faults desk.new ≡ D.faults desk.old) (D.faults desk.new ≡ counted (D.faults desk.old) 1)
        (λ _. D.faults desk.new ≡ D.faults desk.old) (D.faults desk.new ≡ D.faults desk.old) }
    ensures blamed { MatchStop result (λ _. ⊤) (ReadFailsAmong (D.is_steady desk.old) (D.holds desk.old) dir.now files.now (D.blamed desk.new)) (λ _. ⊤) ⊤ }
    ensures stays_steady { D.is_steady desk.old → D.is_steady desk.new }
{
    let mut contents = Contents::new(alloc);
    for file in files {
        let bytes = read_file(alloc, desk, dir, *file)?;
        contents.put(*file, bytes);
    }
    Ok(contents)
}

/// What one file of a folder holds, within its limit.
pub fn read_file<D: Desk>(
    alloc: Global,
    desk: &mut D,
    dir: &str,
    file: DeskFile,
) -> Result<Entries<u8>, Stop>
    ensures told { IfSome (D.holds desk.old) (λ held. MatchStop result (λ bytes. held (path_of dir.now file) ≡ Some bytes) ⊤
        (λ long. IsSomeAnd (held (path_of dir.now file)) (λ bytes. limit_of file < length bytes)) ⊤) }
    ensures within { MatchStop result (λ bytes. length bytes ≤ limit_of file) ⊤ (λ long. long ≡ file) ⊤ }
    ensures too_long_taken { MatchStop result (λ _. ⊤) ⊤ (λ _. RoseBy (TABLE_LIMIT + 1) (D.taken desk.old) (D.taken desk.new)) ⊤ }
    ensures not_proof { MatchStop result (λ _. ⊤) ⊤ (λ _. file ≢ desk_file.Proof) ⊤ }
    ensures taken { D.taken desk.old ≤ D.taken desk.new }
    ensures holds { D.holds desk.new ≡ D.holds desk.old }
    ensures calls { D.calls desk.new ≡ once_more (D.calls desk.old) }
    ensures faults { MatchStop result (λ _. D.faults desk.new ≡ D.faults desk.old) (D.faults desk.new ≡ counted (D.faults desk.old) 1)
        (λ _. D.faults desk.new ≡ D.faults desk.old) (D.faults desk.new ≡ D.faults desk.old) }
    ensures blamed { MatchStop result (λ _. ⊤) (D.blamed desk.new ≡ Some file) (λ _. ⊤) ⊤ }
    ensures missing { MatchStop result (λ _. ⊤) (D.is_steady desk.old → IfSome (D.holds desk.old) (λ held. held (path_of dir.now file) ≡ None)) (λ _. ⊤) ⊤ }
    ensures stays_steady { D.is_steady desk.old → D.is_steady desk.new }
{
    match desk.read(alloc, dir, file, limit_of(file)) {
        Ok(bytes) => Ok(Entries::from_vec(bytes)),
        Err(DeskError::Failed) => Err(Stop::Fault),
        Err(DeskError::TooLong) => Err(Stop::TooLong { file }),
        Err(DeskError::NoMemory) => Err(Stop::NoMemory),
    }
}

/// The most bytes of a file that are read.
#[tactic(auto, unfolding(crate::specs::Gathered::limit_of))]
fn limit_of(file: DeskFile) -> u64
    ensures limit { result ≡ limit_of file }
    ensures table { result < PROOF_LIMIT → result ≡ TABLE_LIMIT }
    ensures not_proof { result < PROOF_LIMIT → file ≢ desk_file.Proof }
{
    match file {
        DeskFile::Proof => PROOF_LIMIT,
        DeskFile::Stations
        | DeskFile::Fleets
        | DeskFile::Legs
        | DeskFile::Costs
        | DeskFile::Throughs
        | DeskFile::Windows
        | DeskFile::Optional
        | DeskFile::Tails
        | DeskFile::Plan
        | DeskFile::Rotation => TABLE_LIMIT,
    }
}
