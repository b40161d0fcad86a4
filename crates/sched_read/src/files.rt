ghost use Rattle.std.specs.Prelude.{MatchResult};
ghost use Rattle.fleet_model.specs.Limits.{AreSettings};
ghost use Rattle.sched_read.specs.Reading.{TableBytes};
ghost use Rattle.sched_read.specs.Files.{AllBytes, FilesRead, IsFirstBad, MovedRead, all_bytes};

use crate::loading::load;
use crate::optional_legs::add_optional;
use crate::retime_windows::add_windows;
use entries::Entries;
use fleet_model::{LoadError, TableOptions, Tables};
use std::alloc::Global;

/// The bytes of the files of tables. Those that aren't asked for are not looked at.
#[derive(Drop)]
pub struct TableTexts {
    pub stations: Entries<u8>,
    pub fleets: Entries<u8>,
    pub legs: Entries<u8>,
    pub costs: Entries<u8>,
    pub throughs: Entries<u8>,
    pub windows: Entries<u8>,
    pub optional: Entries<u8>,
}

/// The tables that files hold, or their first fault: files are judged in the order of the fields, and those of windows and of
/// optional legs where the options ask for them. In a file the first bad record decides, and in a record the least kind.
pub fn load_files(
    alloc: Global,
    texts: &TableTexts,
    options: TableOptions,
) -> Result<Tables, LoadError>
    requires { AreSettings options.settings }
    ensures { MatchResult result (FilesRead (all_bytes texts.now) options) (IsFirstBad (all_bytes texts.now) options) }
{
    let moved = load_moved(alloc, texts, options)?;
    if options.optional {
        return add_optional(alloc, moved, texts.optional.as_slice());
    }
    Ok(moved)
}

// The tables that the five files hold, with windows where the options ask for them, or the first fault.
fn load_moved(alloc: Global, texts: &TableTexts, options: TableOptions) -> Result<Tables, LoadError>
    requires { AreSettings options.settings }
    ensures { MatchResult result (MovedRead (all_bytes texts.now) options) (IsFirstBad (all_bytes texts.now) options) }
{
    let tables = load(
        alloc,
        texts.stations.as_slice(),
        texts.fleets.as_slice(),
        texts.legs.as_slice(),
        texts.costs.as_slice(),
        texts.throughs.as_slice(),
        options.settings,
    )?;
    if options.windows {
        return add_windows(alloc, tables, texts.windows.as_slice());
    }
    Ok(tables)
}
