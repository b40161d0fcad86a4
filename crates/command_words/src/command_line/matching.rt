//! What `clap` finds for words.
ghost use Rattle.std.specs.Prelude.{◌≡◌, ◌↔◌, IfOk, IsErr, None, map, option_and_then, string_bytes};
ghost use Rattle.clap.specs.Words.{subcommand_rows_of};
ghost use Rattle.command_words.specs.Found.{found};

use crate::command_line::program::program;
use clap::ArgMatches;
use clap::error::ErrorKind;
use entries::NoMemory;
use std::alloc::Global;

/// The match of words, the first of them the program's name: the command, and what was found for its arguments.
/// None where the words are no command's, as where they ask for help. Takes memory for clap's parts, and gives it back.
pub fn matched<'a>(alloc: Global, words: &'a [String]) -> Result<Option<ArgMatches<'a>>, NoMemory>
    ensures { IfOk result (λ matches. option_and_then subcommand_rows_of matches ≡ found (map string_bytes words.now)) }
{
    match program(alloc)?.try_get_matches_from(words) {
        Ok(matches) => Ok(Some(matches)),
        Err(error) => no_match(error.kind()),
    }
}

/// What an error of clap comes to: want of memory, or no match, whatever the fault of the words.
fn no_match<'a>(kind: ErrorKind) -> Result<Option<ArgMatches<'a>>, NoMemory>
    ensures memory { IsErr result ↔ (kind ≡ ErrorKind.OutOfMemory) }
    ensures none { IfOk result (λ matches. matches ≡ None) }
{
    match kind {
        ErrorKind::OutOfMemory => Err(NoMemory),
        _ => Ok(None),
    }
}
