//! The answer to the words of a call, by what the desk holds.
ghost use Rattle.std.specs.Prelude.{◌≡◌, ◌+◌, Option, Some, IfOk, IfSome, map, string_bytes, ⊤};
ghost use Rattle.command_words.specs.Words.{Asked, HasDates, HasLimits, HasSettings, asked, asked_by};
ghost use Rattle.fleet_cli.specs.Answer.{Answers, AnswersSome};
ghost use Rattle.folder_answers.specs.Refusals.{says};
ghost use Rattle.fleet_cli.specs.Awaited.{AwaitsThere};
ghost use Rattle.folder_answers.specs.Contents.{FileBytes};
ghost use Rattle.folder_answers.specs.Failed.{MatchFailure, StopsAs};
ghost use Rattle.folder_answers.specs.Gathered.{ReadFails};
ghost use Rattle.fleet_cli.specs.Opened.{Awaits};
ghost use Rattle.folder_answers.specs.Opened.{IsReady};
ghost use Rattle.fleet_cli.specs.Reading.{IsMissing, IsRead, folder_of, most_reads};
ghost use Rattle.folder_answers.specs.Texts.{usage_text};
ghost use Rattle.folder_answers.specs.declared.status.TheConstants.{USAGE};
ghost use Rattle.plan_desk.specs.Counts.{CallsAtMost, RoseBy, counted, once_more};
ghost use Rattle.plan_desk.specs.declared.file.TheConstants.{TABLE_LIMIT};

use crate::commands::{answer_on, first_files, folder};
use command_words::{Command, command_of};
use entries::NoMemory;
use folder_answers::{
    Answer, Checking, Failure, Opened, Stop, USAGE, USAGE_LINE, or_refused, read_file, read_files,
    tell_with_plan, too_long,
};
use plan_desk::{Desk, DeskFile};
use std::alloc::Global;

/// An answer, and the folder that its files are written into.
#[derive(Drop)]
pub struct Reply<'a> {
    pub dir: &'a str,
    pub answer: Answer,
}

/// The answer to words, the first of them the program's name. It writes nothing yet.
#[tactic(auto, using(folder_answers::proofs::CallCounts::no_calls))]
pub fn reply_to<'a, D: Desk>(
    alloc: Global,
    words: &'a [String],
    desk: &mut D,
) -> Result<Reply<'a>, Failure>
    ensures told { IfSome (D.holds desk.old) (λ held. IfOk result (λ reply. Answers held (asked (map string_bytes words.now)) reply.answer)) }
    ensures some { IfOk result (λ reply. AnswersSome (RoseBy (TABLE_LIMIT + 1) (D.taken desk.old) (D.taken desk.new)) (asked (map string_bytes words.now)) reply.answer) }
    ensures folder { IfOk result (λ reply. reply.dir.now ≡ folder_of (asked (map string_bytes words.now))) }
    ensures holds { D.holds desk.new ≡ D.holds desk.old }
    ensures calls { CallsAtMost (most_reads (asked (map string_bytes words.now))) (D.calls desk.old) (D.calls desk.new) }
    ensures faults { MatchFailure result (λ _. D.faults desk.new ≡ D.faults desk.old) (D.faults desk.new ≡ counted (D.faults desk.old) 1) (D.faults desk.new ≡ D.faults desk.old) }
    ensures blamed { MatchFailure result (λ _. ⊤) (ReadFails (D.is_steady desk.old) (D.holds desk.old) (IsRead (asked (map string_bytes words.now))) (IsMissing (asked (map string_bytes words.now))) (D.blamed desk.new)) ⊤ }
    ensures stays_steady { D.is_steady desk.old → D.is_steady desk.new }
{
    match command_of(alloc, words) {
        Ok(Some(command)) => match answer_to(alloc, &command, desk) {
            Ok(answer) => Ok(Reply {
                dir: folder(&command),
                answer,
            }),
            Err(failure) => Err(failure),
        },
        Ok(None) => Ok(Reply {
            dir: "",
            answer: usage(alloc)?,
        }),
        Err(NoMemory) => Err(Failure::NoMemory),
    }
}

/// The answer to a command: its first files are read in their order, and the plan where they ask for it.
fn answer_to<D: Desk>(alloc: Global, command: &Command<'_>, desk: &mut D) -> Result<Answer, Failure>
    requires settings { HasSettings command.now }
    requires limits { HasLimits command.now }
    requires dates { HasDates command.now }
    ensures told { IfSome (D.holds desk.old) (λ held. IfOk result (Answers held (Some (asked_by command.now)))) }
    ensures some { IfOk result (AnswersSome (RoseBy (TABLE_LIMIT + 1) (D.taken desk.old) (D.taken desk.new)) (Some (asked_by command.now))) }
    ensures holds { D.holds desk.new ≡ D.holds desk.old }
    ensures calls { CallsAtMost (most_reads (Some (asked_by command.now))) (D.calls desk.old) (D.calls desk.new) }
    ensures faults { MatchFailure result (λ _. D.faults desk.new ≡ D.faults desk.old) (D.faults desk.new ≡ counted (D.faults desk.old) 1) (D.faults desk.new ≡ D.faults desk.old) }
    ensures blamed { MatchFailure result (λ _. ⊤) (ReadFails (D.is_steady desk.old) (D.holds desk.old) (IsRead (Some (asked_by command.now))) (IsMissing (Some (asked_by command.now))) (D.blamed desk.new)) ⊤ }
    ensures stays_steady { D.is_steady desk.old → D.is_steady desk.new }
{
    let dir = folder(command);
    let files = first_files(command);
    let opened = match read_files(alloc, desk, dir, files.as_slice()) {
        Ok(contents) => answer_on(alloc, command, &contents),
        Err(stop) => return stopped(alloc, stop),
    };
    match or_refused(opened)? {
        Opened::Answered(answer) => Ok(answer),
        Opened::WantsPlan(checking) => answer_with_plan(alloc, &checking, desk, dir),
    }
}

/// The answer to a command whose first files ask for the plan, which is read.
fn answer_with_plan<D: Desk>(
    alloc: Global,
    checking: &Checking,
    desk: &mut D,
    dir: &str,
) -> Result<Answer, Failure>
    requires { IsReady checking.now }
    ensures told { (call : Option Asked) → (bytes : FileBytes) → AwaitsThere (D.holds desk.old) dir.now call bytes checking.now → IfSome (D.holds desk.old) (λ held. IfOk result (Answers held call)) }
    ensures some { (call : Option Asked) → (bytes : FileBytes) → Awaits call bytes checking.now → IfOk result (AnswersSome (RoseBy (TABLE_LIMIT + 1) (D.taken desk.old) (D.taken desk.new)) call) }
    ensures holds { D.holds desk.new ≡ D.holds desk.old }
    ensures calls { D.calls desk.new ≡ once_more (D.calls desk.old) }
    ensures faults { MatchFailure result (λ _. D.faults desk.new ≡ D.faults desk.old) (D.faults desk.new ≡ counted (D.faults desk.old) 1) (D.faults desk.new ≡ D.faults desk.old) }
    ensures blamed { (call : Option Asked) → (bytes : FileBytes) → AwaitsThere (D.holds desk.old) dir.now call bytes checking.now →
        MatchFailure result (λ _. ⊤) (ReadFails (D.is_steady desk.old) (D.holds desk.old) (IsRead call) (IsMissing call) (D.blamed desk.new)) ⊤ }
    ensures stays_steady { D.is_steady desk.old → D.is_steady desk.new }
{
    match read_file(alloc, desk, dir, DeskFile::Plan) {
        Ok(plan) => Ok(tell_with_plan(alloc, checking, plan.as_slice())?),
        Err(stop) => stopped(alloc, stop),
    }
}

/// The answer where reading stopped: the refusal of a file that is too long, and else none.
fn stopped(alloc: Global, stop: Stop) -> Result<Answer, Failure>
    ensures { StopsAs stop result }
{
    match stop {
        Stop::TooLong { file } => Ok(too_long(alloc, file)?),
        Stop::Fault => Err(Failure::Fault),
        Stop::NoMemory => Err(Failure::NoMemory),
    }
}

/// The usage line.
fn usage(alloc: Global) -> Result<Answer, NoMemory>
    ensures { IfOk result (λ answer. answer ≡ says USAGE usage_text) }
{
    Ok(Answer::says(alloc, USAGE, Vec::from_slice(alloc, USAGE_LINE)?))
}
