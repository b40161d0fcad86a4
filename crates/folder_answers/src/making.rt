//! Made tables: what they read as, and the answer of solving them with their files before its own.
ghost use Rattle.std.specs.Prelude.{◌≡◌, IfOk};
ghost use Rattle.command_words.specs.declared.command.TheConstants.{DEFAULT_READING};
ghost use Rattle.folder_answers.specs.Making.{after_files, made_files};
ghost use Rattle.sched_read.specs.Reading.{Reads};
ghost use Rattle.table_maker.specs.Laws.{made_bytes};
ghost use Rattle.table_maker.specs.Made.{CanBeMade, made_tables};

use crate::answer::{Answer, FileText};
use crate::solution::with_file;
use command_words::DEFAULT_READING;
use entries::{Entries, NoMemory};
use fleet_model::{LoadError, Tables};
use plan_desk::DeskFile;
use sched_read::load;
use std::alloc::Global;
use table_maker::MadeTables;

/// The tables that made texts read as.
pub fn load_made(
    alloc: Global,
    number: u32,
    legs: u32,
    made: &MadeTables,
) -> Result<Tables, NoMemory>
    requires can { CanBeMade number legs }
    requires made { made.now ≡ made_tables number legs }
    ensures { IfOk result (Reads (made_bytes made.now) DEFAULT_READING.settings) }
{
    let loaded = load(
        alloc,
        made.stations.as_slice(),
        made.fleets.as_slice(),
        made.legs.as_slice(),
        made.costs.as_slice(),
        made.throughs.as_slice(),
        DEFAULT_READING.settings,
    );
    match loaded {
        Ok(tables) => Ok(tables),
        Err(LoadError::Bad(_)) => unreachable!(),
        Err(LoadError::NoMemory) => Err(NoMemory),
    }
}

/// An answer with the files of made tables before its own.
pub fn after_tables(alloc: Global, made: MadeTables, solving: Answer) -> Result<Answer, NoMemory>
    ensures { IfOk result (λ answer. answer ≡ after_files (made_files made) solving) }
{
    let mut files = made_files(alloc, made)?;
    let mut solved = solving.files.into_vec();
    files.append(&mut solved)?;
    Ok(Answer {
        status: solving.status,
        text: solving.text,
        files: Entries::from_vec(files),
    })
}

/// The files of made tables, in the order in which they are loaded.
#[tactic(auto, unfolding(crate::specs::Making::made_files))]
fn made_files(alloc: Global, made: MadeTables) -> Result<Vec<FileText>, NoMemory>
    ensures { IfOk result (λ files. files.items ≡ made_files made) }
{
    let files = with_file(
        Ok(Vec::new(alloc)),
        DeskFile::Stations,
        Ok(made.stations.into_vec()),
    );
    let files = with_file(files, DeskFile::Fleets, Ok(made.fleets.into_vec()));
    let files = with_file(files, DeskFile::Legs, Ok(made.legs.into_vec()));
    let files = with_file(files, DeskFile::Costs, Ok(made.costs.into_vec()));
    with_file(files, DeskFile::Throughs, Ok(made.throughs.into_vec()))
}
