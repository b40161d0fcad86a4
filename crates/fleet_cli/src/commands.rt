//! What each command reads first, and what that comes to. One case for each command.
ghost use Rattle.std.specs.Prelude.{◌≡◌, Some};
ghost use Rattle.command_words.specs.Words.{HasDates, HasLimits, HasSettings, asked_by};
ghost use Rattle.fleet_cli.specs.Opened.{AnswersAtOnce, IsOpened};
ghost use Rattle.fleet_cli.specs.Reading.{first_files, folder_of};
ghost use Rattle.folder_answers.specs.Contents.{file_content};
ghost use Rattle.folder_answers.specs.Halted.{MatchHalt};

use crate::solving::{make_and_solve, solve_on};
use command_words::Command;
use folder_answers::{
    Contents, FileList, Halt, Opened, Question, answered, due_on, judge_on, open_of_fleet,
    open_proof, tables_of, tails_on,
};
use plan_desk::DeskFile;
use std::alloc::Global;

/// The folder of a command.
pub fn folder<'a>(command: &Command<'a>) -> &'a str
    ensures { result.now ≡ folder_of (Some (asked_by command.now)) }
{
    match command {
        Command::Judge { dir, .. }
        | Command::Solve { dir, .. }
        | Command::Check { dir, .. }
        | Command::Tails { dir, .. }
        | Command::Due { dir, .. }
        | Command::Make { dir, .. }
        | Command::Whatif { dir, .. } => *dir,
    }
}

/// The files that a command reads first, in their order.
pub fn first_files(command: &Command<'_>) -> FileList
    ensures { result ≡ first_files (Some (asked_by command.now)) }
{
    match command {
        Command::Judge { reading, .. } | Command::Tails { reading, .. } => {
            FileList::tables_and(*reading, DeskFile::Plan)
        }
        Command::Due { reading, .. } => FileList::tables_and_tails(*reading),
        Command::Solve { reading, .. } => FileList::tables(*reading),
        Command::Check { reading, .. } | Command::Whatif { reading, .. } => {
            FileList::tables_and(*reading, DeskFile::Proof)
        }
        Command::Make { .. } => FileList::empty(),
    }
}

/// What the first files of a command come to, by what was read of them. Its tables are read here, and each command is a
/// function of them.
pub fn answer_on(alloc: Global, command: &Command<'_>, contents: &Contents) -> Result<Opened, Halt>
    requires settings { HasSettings command.now }
    requires limits { HasLimits command.now }
    requires dates { HasDates command.now }
    ensures { MatchHalt result (IsOpened (Some (asked_by command.now)) (file_content contents.now)) (AnswersAtOnce (Some (asked_by command.now)) (file_content contents.now)) }
{
    match command {
        Command::Judge { reading, .. } => {
            let tables = tables_of(alloc, *reading, &contents.tables)?;
            answered(judge_on(alloc, &tables, contents.plan.as_slice()))
        }
        Command::Solve {
            reading,
            options,
            ..
        } => {
            let tables = tables_of(alloc, *reading, &contents.tables)?;
            Ok(Opened::Answered(solve_on(alloc, &tables, *options)?))
        }
        Command::Check { reading, .. } => {
            let tables = tables_of(alloc, *reading, &contents.tables)?;
            open_proof(alloc, tables, Question::Holds, contents.proof.as_slice())
        }
        Command::Tails {
            reading,
            rotations,
            dates,
            ..
        } => {
            let tables = tables_of(alloc, *reading, &contents.tables)?;
            answered(tails_on(alloc, &tables, *rotations, dates, contents.plan.as_slice()))
        }
        Command::Due {
            reading,
            rotations,
            dates,
            ..
        } => {
            let tables = tables_of(alloc, *reading, &contents.tables)?;
            let tails = contents.tails.as_slice();
            answered(due_on(
                alloc,
                &tables,
                *rotations,
                dates,
                tails,
                contents.plan.as_slice(),
            ))
        }
        Command::Make { number, legs, .. } => {
            Ok(Opened::Answered(make_and_solve(alloc, *number, *legs)?))
        }
        Command::Whatif {
            reading,
            fleet,
            count,
            ..
        } => {
            let tables = tables_of(alloc, *reading, &contents.tables)?;
            open_of_fleet(alloc, tables, fleet, *count, contents.proof.as_slice())
        }
    }
}
