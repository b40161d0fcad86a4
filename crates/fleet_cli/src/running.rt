ghost use Rattle.std.specs.Prelude.{◌≡◌, ◌≢◌, ◌⊎◌, ◌+◌, None, IfSome, IsSome, IsSomeAnd, length, map, string_bytes};
ghost use Rattle.fleet_cli.specs.Reading.{NamesStand, most_calls};
ghost use Rattle.fleet_cli.specs.Gave.{Gave};
ghost use Rattle.fleet_cli.specs.Headline.{Headline};
ghost use Rattle.fleet_cli.specs.Ran.{telling};
ghost use Rattle.fleet_cli.specs.Run.{AnswersExactly, AnswersInFull, BlamesMissing, CountsOneFault, FailsAt, IsAnswered, IsComplete, IsEnd, IsRefusalStatus, KeepsOthers, LeavesFiles, PutsFault, PutsPart, SomeInFull};
ghost use Rattle.folder_answers.specs.Texts.{usage_text};
ghost use Rattle.command_words.specs.Words.{asked};
ghost use Rattle.folder_answers.specs.Written.{HaveLengths, StandsAfter, WriteFails, WritesFirst, held_with_texts};
ghost use Rattle.folder_answers.specs.declared.status.TheConstants.{FAULT, NO_MEMORY, USAGE};
ghost use Rattle.plan_desk.specs.Counts.{CallsAtMost, IsOneMoreAtMost, RoseBy, counted, once_more};
ghost use Rattle.plan_desk.specs.Sink.{AppendsPrefix, handed_with, output_with};
ghost use Rattle.plan_desk.specs.declared.file.TheConstants.{TABLE_LIMIT};

use crate::answers::reply_to;
use folder_answers::{Answer, FAULT, Failure, NO_MEMORY, Status, fault_line, write_all};
use plan_desk::{Desk, Sink, SinkError};
use std::alloc::Global;

/// Does all that the program does: reads what the words ask for from the desk, writes what it makes, and puts the
/// answer.
///
/// The words include the program's name. The order of refusals is: the words (2), each file in turn (7, or 6 with
/// kind 12, or 8), the tables (6), the plan (9). All texts are made before the first write. The output is one put;
/// the line of a desk's fault is one put as well, and takes no memory.
pub fn run<D: Desk, S: Sink>(alloc: Global, words: &[String], desk: &mut D, out: &mut S) -> Status
    // Every status but want of memory and a fault is the answer to the words by what the desk holds; all of its
    // files were written, in their order, and all of its text was put.
    ensures answer { IsAnswered result.code (IfSome (D.holds desk.old) (λ held.
        AnswersInFull held (asked (map string_bytes words.now)) result.code (D.holds desk.new) (S.output out.old) (S.output out.new))) }

    // The headline. Solving leaves one legal plan with its exact cost and a bound that no legal assignment undercuts,
    // or says that none is legal, or gives a bound alone; the texts of plan, proof and rotations stand, and the summary was
    // put. The rotations are right by that plan.
    ensures headline { IsAnswered result.code (IfSome (D.holds desk.old) (λ held.
        Headline held (asked (map string_bytes words.now)) result.code (D.holds desk.new) (S.output out.old) (S.output out.new))) }

    // No answer but the definition's is given, so each of these statuses comes exactly by its cause.
    ensures exactly { IsAnswered result.code (IfSome (D.holds desk.old) (λ held.
        AnswersExactly held (asked (map string_bytes words.now)) result.code (S.output out.old) (S.output out.new))) }

    // What is good is never refused.
    ensures complete { IsAnswered result.code (IsComplete (D.holds desk.old) (asked (map string_bytes words.now)) result.code) }

    // The same of a desk that tells nothing: the answer is right of some contents, and a file is called too long
    // only where more than the limit was taken.
    ensures some_answer { IsAnswered result.code (SomeInFull (RoseBy (TABLE_LIMIT + 1) (D.taken desk.old) (D.taken desk.new))
        (asked (map string_bytes words.now)) result.code (S.output out.old) (S.output out.new) (S.handed out.old) (S.handed out.new)) }

    // Usage comes exactly where the words ask for nothing, and its line was put.
    ensures usage { asked (map string_bytes words.now) ≡ None → IsAnswered result.code (result.code ≡ USAGE) }
    ensures only_usage { result.code ≡ USAGE → asked (map string_bytes words.now) ≡ None }
    ensures usage_line { result.code ≡ USAGE → S.output out.new ≡ output_with (S.output out.old) usage_text }

    // A run stops at its first fault: it counts one of the desk, and of the sink one at most, whose put is that of the
    // fault's line; or one of the sink alone. At every other status neither count moves.
    ensures one_fault { result.code ≡ FAULT → CountsOneFault (D.faults desk.old) (D.faults desk.new) (S.faults out.old) (S.faults out.new) }
    ensures quiet_desk { result.code ≢ FAULT → D.faults desk.new ≡ D.faults desk.old }
    ensures quiet_sink { result.code ≢ FAULT → S.faults out.new ≡ S.faults out.old }
    ensures steady { D.is_steady desk.old → S.is_steady out.old → IsSomeAnd (D.holds desk.old) (NamesStand (asked (map string_bytes words.now))) → result.code ≢ FAULT }

    // Over a steady desk that tells and a steady sink a fault means that a name which is read is missing. It is the
    // first one in the order of reading, those before it stand there within their limits, and its file is blamed.
    ensures missing { result.code ≡ FAULT → D.is_steady desk.old → S.is_steady out.old →
        IfSome (D.holds desk.old) (BlamesMissing (asked (map string_bytes words.now)) (D.blamed desk.new)) }

    // After a fault of the desk its whole line was handed over, a part of it was put, and nothing else. The file to blame is one that is read, and
    // then no file was written; or the next file to be written, and those before it stand. Where the desk didn't fail
    // the sink did: all files stand, the whole answer was handed over, and a part of it was put.
    ensures fault_line { result.code ≡ FAULT →
        (D.faults desk.new ≡ counted (D.faults desk.old) 1) × PutsFault (D.blamed desk.new) (S.output out.old) (S.output out.new) (S.handed out.old) (S.handed out.new) × FailsAt (D.is_steady desk.old) (D.holds desk.old) (asked (map string_bytes words.now)) (D.holds desk.new) (D.blamed desk.new)
        ⊎ (D.faults desk.new ≡ D.faults desk.old) × PutsPart (D.holds desk.old) (asked (map string_bytes words.now)) (D.holds desk.new) (S.output out.old) (S.output out.new) (S.handed out.old) (S.handed out.new) }

    // After want of memory some first files of the answer stand, or all of them; nothing else changed, and nothing was put.
    ensures no_memory { result.code ≡ NO_MEMORY → LeavesFiles (D.holds desk.old) (asked (map string_bytes words.now)) (D.holds desk.new) }
    ensures nothing_put { result.code ≡ NO_MEMORY → S.output out.new ≡ S.output out.old }

    // There is one put in a run, and none but where memory is wanted.
    ensures one_put { result.code ≢ NO_MEMORY → S.puts out.new ≡ once_more (S.puts out.old) }
    ensures one_put_at_most { (S.puts out.new ≡ S.puts out.old) ⊎ (S.puts out.new ≡ once_more (S.puts out.old)) }

    // There are no more calls of the desk than files that may be read and written.
    ensures calls { CallsAtMost (most_calls (asked (map string_bytes words.now))) (D.calls desk.old) (D.calls desk.new) }

    // A refusal writes no file, and no name changes but those that what is asked for writes.
    ensures refusals { IsRefusalStatus result.code → D.holds desk.new ≡ D.holds desk.old }
    ensures files { KeepsOthers (asked (map string_bytes words.now)) (D.holds desk.old) (D.holds desk.new) }
{
    match reply_to(alloc, words, desk) {
        Ok(reply) => give(alloc, desk, out, reply.dir, &reply.answer),
        Err(Failure::Fault) => put_fault(desk, out),
        Err(Failure::NoMemory) => Status { code: NO_MEMORY },
    }
}

/// Gives an answer: writes its files into a folder, and puts its text.
fn give<D: Desk, S: Sink>(
    alloc: Global,
    desk: &mut D,
    out: &mut S,
    dir: &str,
    answer: &Answer,
) -> Status
    requires { IsEnd answer.now.status.code }
    ensures { Gave (D.is_steady desk.old) (S.is_steady out.old) dir.now answer.now result
        (telling (D.holds desk.old) (D.blamed desk.old) (D.faults desk.old) (D.taken desk.old) (D.calls desk.old) (S.output out.old) (S.puts out.old) (S.handed out.old) (S.faults out.old))
        (telling (D.holds desk.new) (D.blamed desk.new) (D.faults desk.new) (D.taken desk.new) (D.calls desk.new) (S.output out.new) (S.puts out.new) (S.handed out.new) (S.faults out.new)) }
{
    match write_all(alloc, desk, dir, answer.files.as_slice()) {
        Ok(()) => put_answer(out, answer.text.as_slice(), answer.status),
        Err(Failure::Fault) => put_fault(desk, out),
        Err(Failure::NoMemory) => Status { code: NO_MEMORY },
    }
}

/// Puts the text of an answer.
fn put_answer<S: Sink>(out: &mut S, text: &[u8], status: Status) -> Status
    requires { IsEnd status.code }
    ensures status { IsAnswered result.code (result ≡ status) }
    ensures put { IsAnswered result.code (S.output out.new ≡ output_with (S.output out.old) text.now) }
    ensures part { AppendsPrefix text.now (S.output out.old) (S.output out.new) }
    ensures handed { S.handed out.new ≡ handed_with (S.handed out.old) text.now }
    ensures nothing_put { result.code ≡ NO_MEMORY → S.output out.new ≡ S.output out.old }
    ensures one_fault { result.code ≡ FAULT → S.faults out.new ≡ counted (S.faults out.old) 1 }
    ensures quiet { result.code ≢ FAULT → S.faults out.new ≡ S.faults out.old }
    ensures steady { S.is_steady out.old → result.code ≢ FAULT }
    ensures one_put { S.puts out.new ≡ once_more (S.puts out.old) }
{
    match out.put(text) {
        Ok(()) => status,
        Err(SinkError::Failed) => Status { code: FAULT },
        Err(SinkError::NoMemory) => Status { code: NO_MEMORY },
    }
}

/// Puts the line of a desk's fault, as far as the sink takes it.
fn put_fault<D: Desk, S: Sink>(desk: &D, out: &mut S) -> Status
    requires { IsSome (D.blamed desk.now) }
    ensures status { result.code ≡ FAULT }
    ensures put { PutsFault (D.blamed desk.now) (S.output out.old) (S.output out.new) (S.handed out.old) (S.handed out.new) }
    ensures one_fault { IsOneMoreAtMost (S.faults out.old) (S.faults out.new) }
    ensures one_put { S.puts out.new ≡ once_more (S.puts out.old) }
{
    if let Some(file) = desk.blamed() {
        // The status stands whether the sink takes the line or not.
        let _ = out.put(fault_line(file));
    }
    Status { code: FAULT }
}
