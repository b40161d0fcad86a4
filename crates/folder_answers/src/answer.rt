ghost use Rattle.std.specs.Prelude.{◌≡◌};
ghost use Rattle.folder_answers.specs.Refusals.{says};
ghost use Rattle.folder_answers.specs.declared.answer.Failure.TheVariants as failure;

use crate::status::Status;
use entries::{Entries, NoMemory};
use plan_desk::DeskFile;
use std::alloc::Global;

/// A file that a run writes, whole.
#[derive(Drop)]
pub struct FileText {
    pub file: DeskFile,
    pub bytes: Entries<u8>,
}

/// What a run answers: how it ends, what it puts, and the files that it writes before, in this order.
#[derive(Drop)]
pub struct Answer {
    pub status: Status,
    pub text: Entries<u8>,
    pub files: Entries<FileText>,
}

/// Why a run has no answer.
#[derive(Clone, Copy)]
pub enum Failure {
    /// The desk failed; it tells which file is to blame.
    Fault,
    NoMemory,
}

impl From<NoMemory> for Failure {
    ghost from_gives = { λ _ e. e ≡ failure.NoMemory };

    fn from(_: NoMemory) -> Failure {
        Failure::NoMemory
    }
}

impl Answer {
    /// A status and a text, and no file. Takes no memory.
    pub fn says(alloc: Global, code: u8, text: Vec<u8>) -> Answer
        ensures { result ≡ says code text.items }
    {
        Answer {
            status: Status { code },
            text: Entries::from_vec(text),
            files: Entries::from_vec(Vec::new(alloc)),
        }
    }
}
