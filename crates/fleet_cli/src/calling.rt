//! What the program does with the words of its call.
ghost use Rattle.std.specs.Prelude.{◌≡◌, ◌≢◌, None, IfErr, IfOk, IfSome, IsErr, IsOk, map, string_bytes, true};
ghost use Rattle.std.specs.IoError.{error_kind};
ghost use Rattle.std.specs.Process.{exit_status};
ghost use Rattle.command_words.specs.Words.{asked};
ghost use Rattle.fleet_cli.specs.Program.{given_words, is_no_text, words_in};
ghost use Rattle.fleet_cli.specs.Ran.{Ran, telling};
ghost use Rattle.fleet_cli.specs.Run.{CountsOneFault};
ghost use Rattle.folder_answers.specs.declared.status.TheConstants.{FAULT, NO_MEMORY};

use crate::running::run;
use entries::NoMemory;
use folder_answers::NO_MEMORY;
use plan_desk::{Desk, Sink};
use std::alloc::Global;
use std::env::Args;
use std::io;
use std::process::ExitCode;

/// Runs the program over the words that the system gives, the program's name among them, and ends with the status of
/// `run`. Where some words are no text there are none, which asks for nothing. Where there is no memory for them, the
/// status is 8, and nothing is put or written.
pub fn program<D: Desk, S: Sink>(
    alloc: Global,
    given: io::Result<Args>,
    desk: &mut D,
    out: &mut S,
) -> ExitCode
    // All that `run` says, the headline among it, of the words that were given.
    ensures ran { IfSome (given_words given) (λ words. Ran (D.is_steady desk.old) (S.is_steady out.old) (asked words) (exit_status result)
        (telling (D.holds desk.old) (D.blamed desk.old) (D.faults desk.old) (D.taken desk.old) (D.calls desk.old) (S.output out.old) (S.puts out.old) (S.handed out.old) (S.faults out.old))
        (telling (D.holds desk.new) (D.blamed desk.new) (D.faults desk.new) (D.taken desk.new) (D.calls desk.new) (S.output out.new) (S.puts out.new) (S.handed out.new) (S.faults out.new))) }
    ensures one_fault { exit_status result ≡ FAULT → CountsOneFault (D.faults desk.old) (D.faults desk.new) (S.faults out.old) (S.faults out.new) }
    ensures quiet_desk { exit_status result ≢ FAULT → D.faults desk.new ≡ D.faults desk.old }
    ensures quiet_sink { exit_status result ≢ FAULT → S.faults out.new ≡ S.faults out.old }

    // Where the words are not known for want of memory, nothing is done.
    ensures no_words { given_words given ≡ None → exit_status result ≡ NO_MEMORY }
    ensures no_output { given_words given ≡ None → S.output out.new ≡ S.output out.old }
    ensures no_files { given_words given ≡ None → D.holds desk.new ≡ D.holds desk.old }
    ensures no_put { given_words given ≡ None → S.puts out.new ≡ S.puts out.old }
{
    match words_of(alloc, given) {
        Ok(words) => ExitCode::from(run(alloc, words.as_slice(), desk, out).code),
        Err(NoMemory) => ExitCode::from(NO_MEMORY),
    }
}

/// The words of a call.
fn words_of(alloc: Global, given: io::Result<Args>) -> Result<Vec<String>, NoMemory>
    ensures words { IfOk result (λ words. IfSome (given_words given) (λ all. map string_bytes words.items ≡ all)) }
    ensures none { given_words given ≡ None → IsErr result }
    ensures no_text { IfErr given (λ error. is_no_text (error_kind error) ≡ true → IsOk result) }
{
    match given {
        Ok(args) => all_of(alloc, args),
        Err(error) => match error.kind() {
            io::ErrorKind::InvalidData => Ok(Vec::new(alloc)),
            _ => Err(NoMemory),
        },
    }
}

/// The words that are still to come.
fn all_of(alloc: Global, args: Args) -> Result<Vec<String>, NoMemory>
    ensures { IfOk result (λ words. map string_bytes words.items ≡ words_in args) }
{
    let mut words = Vec::new(alloc);
    for word in args {
        words.push(word)?;
    }
    Ok(words)
}
