ghost use Rattle.std.specs.Prelude.{◌≡◌, None};

use crate::faults::FaultCount;
use crate::file::path;
use crate::transfer::{read_whole, write_whole};
use crate::{Desk, DeskError, DeskFile};
use std::alloc::Global;
use std::fs::File;
use std::rt::Files;

/// A desk over real files: the path of a file is its name. It tells nothing of what it holds.
///
/// Whatever the system refuses is a counted fault: a missing file, a folder in the place of a file, no permission, a
/// full disk. What only shows once a file is closed is not seen.
#[derive(Drop)]
pub struct FileDesk<R: Files> {
    rt: R,
    faults: FaultCount,
    taken: u64,
}

impl<R: Files> FileDesk<R> {
    /// A desk over the files of the runtime.
    pub fn new(rt: R) -> FileDesk<R>
        ensures faults { ⟦<FileDesk<R> as Desk>⟧.faults result ≡ 0 }
        ensures blamed { ⟦<FileDesk<R> as Desk>⟧.blamed result ≡ None }
        ensures taken { ⟦<FileDesk<R> as Desk>⟧.taken result ≡ 0 }
    {
        FileDesk {
            rt,
            faults: FaultCount::new(),
            taken: 0,
        }
    }
}

impl<R: Files> Desk for FileDesk<R> {
    ghost holds = { λ desk. None };

    ghost faults = { λ desk. desk.faults.count };

    ghost blamed = { λ desk. desk.faults.blamed };

    ghost taken = { λ desk. desk.taken };

    ghost calls = { λ desk. None };

    ghost fails_next = { λ desk. ⊥ };

    ghost is_steady = { λ desk. ⊥ };

    ghost steady_tells = { λ desk steady. absurd steady };

    fn read(
        &mut self,
        alloc: Global,
        dir: &str,
        file: DeskFile,
        limit: u64,
    ) -> Result<Vec<u8>, DeskError> {
        let path = path(alloc, dir, file)?;
        let Ok(mut source) = File::open(&self.rt, path.as_str()) else {
            return Err(self.faults.blame(file));
        };
        let answer = read_whole(alloc, &mut source, limit, &mut self.taken);
        self.faults.note(file, answer)
    }

    fn write(
        &mut self,
        alloc: Global,
        dir: &str,
        file: DeskFile,
        bytes: &[u8],
    ) -> Result<(), DeskError> {
        let path = path(alloc, dir, file)?;
        let Ok(mut target) = File::create(&self.rt, path.as_str()) else {
            return Err(self.faults.blame(file));
        };
        if write_whole(&mut target, bytes).is_err() {
            return Err(self.faults.blame(file));
        }
        Ok(())
    }

    fn blamed(&self) -> Option<DeskFile> {
        self.faults.blamed
    }

    fn taken(&self) -> u64 {
        self.taken
    }

    fn faults(&self) -> u64 {
        self.faults.count
    }
}
