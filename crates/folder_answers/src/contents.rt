//! What was read for a command.
ghost use Rattle.std.specs.Prelude.{◌≡◌, []};
ghost use Rattle.folder_answers.specs.Contents.{no_contents, with_content};

use entries::Entries;
use plan_desk::DeskFile;
use sched_read::TableTexts;
use std::alloc::Global;

/// What the files of a folder hold, as far as they were read: nothing of one that wasn't.
#[derive(Drop)]
pub struct Contents {
    pub tables: TableTexts,
    pub tails: Entries<u8>,
    pub plan: Entries<u8>,
    pub proof: Entries<u8>,
    pub rotation: Entries<u8>,
}

impl Contents {
    /// Nothing was read. Takes no memory.
    pub fn new(alloc: Global) -> Contents
        ensures { result ≡ no_contents }
    {
        Contents {
            tables: TableTexts {
                stations: nothing(alloc),
                fleets: nothing(alloc),
                legs: nothing(alloc),
                costs: nothing(alloc),
                throughs: nothing(alloc),
                windows: nothing(alloc),
                optional: nothing(alloc),
            },
            tails: nothing(alloc),
            plan: nothing(alloc),
            proof: nothing(alloc),
            rotation: nothing(alloc),
        }
    }

    /// Puts the bytes of a file in the place of what was read of it before.
    pub fn put(&mut self, file: DeskFile, bytes: Entries<u8>)
        ensures { self.new ≡ with_content self.old file bytes }
    {
        match file {
            DeskFile::Stations => self.tables.stations = bytes,
            DeskFile::Fleets => self.tables.fleets = bytes,
            DeskFile::Legs => self.tables.legs = bytes,
            DeskFile::Costs => self.tables.costs = bytes,
            DeskFile::Throughs => self.tables.throughs = bytes,
            DeskFile::Windows => self.tables.windows = bytes,
            DeskFile::Optional => self.tables.optional = bytes,
            DeskFile::Tails => self.tails = bytes,
            DeskFile::Plan => self.plan = bytes,
            DeskFile::Proof => self.proof = bytes,
            DeskFile::Rotation => self.rotation = bytes,
        }
    }
}

/// No bytes.
fn nothing(alloc: Global) -> Entries<u8>
    ensures { result ≡ [] }
{
    Entries::from_vec(Vec::new(alloc))
}
