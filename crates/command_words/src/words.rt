ghost use Rattle.std.specs.Prelude.{◌≡◌, IfOk, IfSome, map, option_and_then, option_map, string_bytes};
ghost use Rattle.clap.specs.Words.{subcommand_rows_of};
ghost use Rattle.command_words.specs.Arguments.{rows_found};
ghost use Rattle.command_words.specs.Words.{HasDates, HasLimits, HasSettings, IsInRange, asked, asked_by, check_in, command_in, judge_in, make_in, solve_in, tails_in, whatif_in, due_in};

use crate::arguments::{
    aircraft_of, dates_of, made_legs_of, made_number_of, options_of, reading_of, rotations_of,
    value_of,
};
use crate::command::Command;
use crate::command_line::matched;
use clap::ArgMatches;
use entries::NoMemory;
use std::alloc::Global;

/// The command that words ask for, the first of them the program's name. None where they match no command, as where
/// they ask for help, and where a value doesn't read or is out of its range. Takes memory for clap's parts, and
/// gives it back.
pub fn command_of<'a>(alloc: Global, words: &'a [String]) -> Result<Option<Command<'a>>, NoMemory>
    ensures asked { IfOk result (λ command. option_map asked_by command ≡ asked (map string_bytes words.now)) }
    ensures settings { IfOk result (λ command. IfSome command HasSettings) }
    ensures limits { IfOk result (λ command. IfSome command HasLimits) }
    ensures dates { IfOk result (λ command. IfSome command HasDates) }
{
    match matched(alloc, words)? {
        Some(matches) => Ok(command_met(&matches)),
        None => Ok(None),
    }
}

/// The command of a match.
fn command_met<'a>(matches: &ArgMatches<'a>) -> Option<Command<'a>>
    ensures asked { option_map asked_by result ≡ option_and_then command_in (subcommand_rows_of matches.now) }
    ensures fit { IfSome result IsInRange }
{
    let (name, found) = named(matches)?;
    match name {
        "judge" => judge_of(found),
        "solve" => solve_of(found),
        "check" => check_of(found),
        "tails" => tails_of(found),
        "due" => due_of(found),
        "make" => make_of(found),
        "whatif" => whatif_of(found),
        _ => None,
    }
}

/// The command's name, and what was found for its arguments.
fn named<'a, 'm>(matches: &'m ArgMatches<'a>) -> Option<(&'a str, &'m ArgMatches<'a>)>
    ensures { option_map (λ command. (command.0.now, rows_found command.1.now)) result ≡ subcommand_rows_of matches.now }
{
    matches.subcommand()
}

/// Judging, with what was found for it.
fn judge_of<'a>(found: &ArgMatches<'a>) -> Option<Command<'a>>
    ensures asked { option_map asked_by result ≡ judge_in (rows_found found.now) }
    ensures fit { IfSome result IsInRange }
{
    let dir = value_of(found, "dir")?;
    let reading = reading_of(found)?;
    Some(Command::Judge { dir, reading })
}

/// Solving, with what was found for it.
fn solve_of<'a>(found: &ArgMatches<'a>) -> Option<Command<'a>>
    ensures asked { option_map asked_by result ≡ solve_in (rows_found found.now) }
    ensures fit { IfSome result IsInRange }
{
    Some(Command::Solve {
        dir: value_of(found, "dir")?,
        reading: reading_of(found)?,
        options: options_of(found)?,
    })
}

/// Checking, with what was found for it.
fn check_of<'a>(found: &ArgMatches<'a>) -> Option<Command<'a>>
    ensures asked { option_map asked_by result ≡ check_in (rows_found found.now) }
    ensures fit { IfSome result IsInRange }
{
    let dir = value_of(found, "dir")?;
    let reading = reading_of(found)?;
    Some(Command::Check { dir, reading })
}

/// Printing tails, with what was found for it.
fn tails_of<'a>(found: &ArgMatches<'a>) -> Option<Command<'a>>
    ensures asked { option_map asked_by result ≡ tails_in (rows_found found.now) }
    ensures fit { IfSome result IsInRange }
{
    Some(Command::Tails {
        dir: value_of(found, "dir")?,
        reading: reading_of(found)?,
        rotations: rotations_of(found)?,
        dates: dates_of(found)?,
    })
}

/// Printing what named tails fly, with what was found for it.
fn due_of<'a>(found: &ArgMatches<'a>) -> Option<Command<'a>>
    ensures asked { option_map asked_by result ≡ due_in (rows_found found.now) }
    ensures fit { IfSome result IsInRange }
{
    Some(Command::Due {
        dir: value_of(found, "dir")?,
        reading: reading_of(found)?,
        rotations: rotations_of(found)?,
        dates: dates_of(found)?,
    })
}

/// Making tables, with what was found for it.
fn make_of<'a>(found: &ArgMatches<'a>) -> Option<Command<'a>>
    ensures asked { option_map asked_by result ≡ make_in (rows_found found.now) }
    ensures fit { IfSome result IsInRange }
{
    let dir = value_of(found, "dir")?;
    let number = made_number_of(found)?;
    let legs = made_legs_of(found)?;
    Some(Command::Make { dir, number, legs })
}

/// Asking about another size of a fleet, with what was found for it.
fn whatif_of<'a>(found: &ArgMatches<'a>) -> Option<Command<'a>>
    ensures asked { option_map asked_by result ≡ whatif_in (rows_found found.now) }
    ensures fit { IfSome result IsInRange }
{
    Some(Command::Whatif {
        dir: value_of(found, "dir")?,
        reading: reading_of(found)?,
        fleet: value_of(found, "fleet")?,
        count: aircraft_of(found)?,
    })
}
