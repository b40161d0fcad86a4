//! Files of a folder in the order in which they are read.
ghost use Rattle.std.specs.Prelude.{◌≡◌, ◌<◌, ◌≤◌, ◌++◌, [], ◌∷◌, List, length, take};
ghost use Rattle.plan_desk.specs.declared.file.DeskFile.{DeskFile};
ghost use Rattle.folder_answers.specs.declared.files.TheConstants.{MOST_FILES};
ghost use Rattle.folder_answers.specs.FileLists.{due_files, five_tables, tables_and, tables_of};

use fleet_model::TableOptions;
use plan_desk::DeskFile;
use std::marker::Model;

/// The most files of a list: each that a desk holds, once.
pub const MOST_FILES: usize = 11;

/// Files of a folder, in the order in which they are read. Contracts see the list.
///
/// It lies in a row of fixed size, so that no call on it takes memory.
#[derive(Drop)]
pub struct FileList {
    files: [DeskFile; MOST_FILES],
    count: usize,
}

impl Model for FileList {
    ghost Value = { List DeskFile };

    ghost view = { λ list. take list.count list.files };

    ghost invariant = { λ list. list.count ≤ MOST_FILES };
}

impl FileList {
    /// No file.
    pub fn empty() -> Self
        ensures { result ≡ [] }
    {
        FileList {
            files: [DeskFile::Stations; MOST_FILES],
            count: 0,
        }
    }

    /// The tables that are read by these options.
    pub fn tables(reading: TableOptions) -> Self
        ensures { result ≡ tables_of reading }
    {
        let mut files = FileList::five_tables();
        if reading.windows {
            files.push(DeskFile::Windows);
        }
        if reading.optional {
            files.push(DeskFile::Optional);
        }
        files
    }

    /// The five tables.
    fn five_tables() -> Self
        ensures { result ≡ five_tables }
    {
        let mut files = FileList::empty();
        files.push(DeskFile::Stations);
        files.push(DeskFile::Fleets);
        files.push(DeskFile::Legs);
        files.push(DeskFile::Costs);
        files.push(DeskFile::Throughs);
        files
    }

    /// The tables, and a file after them.
    pub fn tables_and(reading: TableOptions, last: DeskFile) -> Self
        ensures { result ≡ tables_and reading (last ∷ []) }
    {
        let mut files = FileList::tables(reading);
        files.push(last);
        files
    }

    /// The tables, the table of tails, and the plan.
    pub fn tables_and_tails(reading: TableOptions) -> Self
        ensures { result ≡ due_files reading }
    {
        let mut files = FileList::tables_and(reading, DeskFile::Tails);
        files.push(DeskFile::Plan);
        files
    }

    /// Reads a file after these.
    pub fn push(&mut self, file: DeskFile)
        requires { length self.old < MOST_FILES }
        ensures { self.new ≡ self.old ++ file ∷ [] }
    {
        self.files[self.count] = file;
        self.count += 1;
    }

    /// The files in their order.
    pub fn as_slice(&self) -> &[DeskFile]
        ensures { result.now ≡ self.now }
    {
        &self.files[..self.count]
    }
}
