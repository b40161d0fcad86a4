//! A line, written.
ghost use Rattle.std.specs.Prelude.{◌≡◌, ◌++◌, ◌∷◌, [], ◌<◌, OnOk};
ghost use Rattle.std.specs.Fmt.{decimal, signed_decimal};
ghost use Rattle.fleet_model.specs.Schedule.{IsPair, fleet_of, fleets_in, leg_of, leg_on, legs_in, station_of, stations_in};
ghost use Rattle.proof_lines.specs.Forms.{form_of, keywords};
ghost use Rattle.proof_lines.specs.LineText.{IsNamed, fields_of, figures_of, fleet_word, flier_word, minutes_by, names_of, pair_words, shift_words, station_word, text_of};
ghost use Rattle.proof_lines.specs.Words.{joined, spaced, spaced_words};
ghost use Rattle.proof_lines.specs.declared.line.Line.TheVariants as line;

use crate::forms::Form;
use crate::line::Line;
use entries::NoMemory;
use fleet_model::{Pair, Tables};
use std::alloc::Global;

/// Appends a line with its line feed. The one error is want of memory.
pub fn push_line(
    alloc: Global,
    text: &mut Vec<u8>,
    tables: &Tables,
    line: &Line,
) -> Result<(), NoMemory>
    requires { IsNamed tables.now line.now }
    ensures { OnOk result (text.new.items ≡ text.old.items ++ text_of tables.now line.now) }
{
    push_keywords(text, line.form())?;
    push_fields(alloc, text, tables, line)?;
    push_bytes(text, b"\n")
}

/// Appends bytes.
fn push_bytes(text: &mut Vec<u8>, bytes: &[u8]) -> Result<(), NoMemory>
    ensures { OnOk result (text.new.items ≡ text.old.items ++ bytes.now) }
{
    text.extend_from_slice(bytes)?;
    Ok(())
}

/// Appends the words with which a line begins.
fn push_keywords(text: &mut Vec<u8>, form: Form) -> Result<(), NoMemory>
    ensures { OnOk result (text.new.items ≡ text.old.items ++ joined (keywords form)) }
{
    push_bytes(text, form.first_word())?;
    let second = form.second_word();
    if second.is_empty() {
        return Ok(());
    }
    push_word(text, second)
}

/// Appends a space and a word.
fn push_word(text: &mut Vec<u8>, word: &[u8]) -> Result<(), NoMemory>
    ensures { OnOk result (text.new.items ≡ text.old.items ++ spaced word.now) }
{
    push_bytes(text, b" ")?;
    push_bytes(text, word)
}

/// Appends what stands behind the first words of a line.
fn push_fields(
    alloc: Global,
    text: &mut Vec<u8>,
    tables: &Tables,
    line: &Line,
) -> Result<(), NoMemory>
    requires { IsNamed tables.now line.now }
    ensures { OnOk result (text.new.items ≡ text.old.items ++ spaced_words (fields_of tables.now line.now)) }
{
    push_names(alloc, text, tables, line)?;
    push_figures(alloc, text, line)
}

/// Appends what a line names.
fn push_names(
    alloc: Global,
    text: &mut Vec<u8>,
    tables: &Tables,
    line: &Line,
) -> Result<(), NoMemory>
    requires { IsNamed tables.now line.now }
    ensures { OnOk result (text.new.items ≡ text.old.items ++ spaced_words (names_of tables.now line.now)) }
{
    match line {
        Line::Bare { leg } => push_word(text, tables.leg(*leg).flight.as_slice()),
        Line::Trim { leg, choice }
        | Line::Split { leg, choice }
        | Line::Weight { leg, choice, .. } => push_pair(alloc, text, tables, *leg, *choice),
        Line::Rent { fleet, .. } => push_word(text, tables.fleet(*fleet).name.as_slice()),
        Line::Charge { station, .. } => {
            push_word(text, tables.station(*station).code.as_slice())
        }
        Line::At { fleet, station, .. } => push_place(text, tables, *fleet, *station),
        _ => Ok(()),
    }
}

/// Appends the figures of a line.
fn push_figures(alloc: Global, text: &mut Vec<u8>, line: &Line) -> Result<(), NoMemory>
    ensures { OnOk result (text.new.items ≡ text.old.items ++ spaced_words (figures_of line.now)) }
{
    match line {
        Line::Head(version) => push_word(text, version.word()),
        Line::OpenPivots { made } => push_count(alloc, text, *made),
        Line::OpenGrew {
            pivots,
            row,
            column,
        } => push_grown(alloc, text, *pivots, *row, *column),
        Line::OpenLift { step, at } => push_counts(alloc, text, *step, *at),
        Line::Scale { scale: number }
        | Line::Mixed { scale: number }
        | Line::Rent { rent: number, .. }
        | Line::Weight { weight: number, .. } => push_number(alloc, text, *number),
        Line::Charge { day, charge, .. } => push_timed(alloc, text, u64::from(*day), *charge),
        Line::At { minute, value, .. } => push_timed(alloc, text, u64::from(*minute), *value),
        _ => Ok(()),
    }
}

/// Appends how many pivots were made, and the row and the column of what grew.
fn push_grown(
    alloc: Global,
    text: &mut Vec<u8>,
    pivots: u64,
    row: u64,
    column: u64,
) -> Result<(), NoMemory>
    ensures { OnOk result (text.new.items ≡ text.old.items ++ spaced_words (decimal pivots ∷ decimal row ∷ decimal column ∷ [])) }
{
    push_count(alloc, text, pivots)?;
    push_counts(alloc, text, row, column)
}

/// Appends two numbers without a sign.
fn push_counts(alloc: Global, text: &mut Vec<u8>, first: u64, second: u64) -> Result<(), NoMemory>
    ensures { OnOk result (text.new.items ≡ text.old.items ++ spaced_words (decimal first ∷ decimal second ∷ [])) }
{
    push_count(alloc, text, first)?;
    push_count(alloc, text, second)
}

/// Appends a day or a minute, and what is said of it.
fn push_timed(alloc: Global, text: &mut Vec<u8>, time: u64, value: i128) -> Result<(), NoMemory>
    ensures { OnOk result (text.new.items ≡ text.old.items ++ spaced_words (decimal time ∷ signed_decimal value ∷ [])) }
{
    push_count(alloc, text, time)?;
    push_number(alloc, text, value)
}

/// Appends the words of a pair.
fn push_pair(
    alloc: Global,
    text: &mut Vec<u8>,
    tables: &Tables,
    leg: u32,
    choice: u32,
) -> Result<(), NoMemory>
    requires { IsPair tables.now (leg_on leg choice) }
    ensures { OnOk result (text.new.items ≡ text.old.items ++ spaced_words (pair_words tables.now leg choice)) }
{
    push_word(text, tables.leg(leg).flight.as_slice())?;
    push_flier(text, tables, leg, choice)?;
    push_shift(alloc, text, tables, leg, choice)
}

/// Appends the name of the fleet that flies a leg by this choice, and `-` where the leg is left out.
fn push_flier(text: &mut Vec<u8>, tables: &Tables, leg: u32, choice: u32) -> Result<(), NoMemory>
    requires { IsPair tables.now (leg_on leg choice) }
    ensures { OnOk result (text.new.items ≡ text.old.items ++ spaced (flier_word tables.now leg choice)) }
{
    let fleet = tables.fleet_by(Pair { leg, choice });
    if fleet < tables.fleet_count() {
        push_word(text, tables.fleet(fleet).name.as_slice())
    } else {
        push_word(text, b"-")
    }
}

/// Appends the minutes by which the leg departs later than at its own time, where the tables have windows.
fn push_shift(
    alloc: Global,
    text: &mut Vec<u8>,
    tables: &Tables,
    leg: u32,
    choice: u32,
) -> Result<(), NoMemory>
    requires { IsPair tables.now (leg_on leg choice) }
    ensures { OnOk result (text.new.items ≡ text.old.items ++ spaced_words (shift_words tables.now.windows (signed_decimal (minutes_by tables.now leg choice)))) }
{
    if tables.windows {
        push_number(alloc, text, minutes_by(tables, leg, choice))
    } else {
        Ok(())
    }
}

/// By how many minutes the leg departs later than at its own time, and 0 where it is left out.
fn minutes_by(tables: &Tables, leg: u32, choice: u32) -> i128
    requires { IsPair tables.now (leg_on leg choice) }
    ensures { result ≡ minutes_by tables.now leg choice }
{
    let pair = Pair { leg, choice };
    if tables.fleet_by(pair) < tables.fleet_count() {
        i128::from(tables.shift_by(pair).minutes)
    } else {
        0
    }
}

/// Appends a fleet and a station.
fn push_place(text: &mut Vec<u8>, tables: &Tables, fleet: u32, station: u32) -> Result<(), NoMemory>
    requires fleet { fleet < fleets_in tables.now }
    requires station { station < stations_in tables.now }
    ensures { OnOk result (text.new.items ≡ text.old.items ++ spaced (fleet_word tables.now fleet) ++ spaced (station_word tables.now station)) }
{
    push_word(text, tables.fleet(fleet).name.as_slice())?;
    push_word(text, tables.station(station).code.as_slice())
}

/// Appends a number without a sign.
fn push_count(alloc: Global, text: &mut Vec<u8>, count: u64) -> Result<(), NoMemory>
    ensures { OnOk result (text.new.items ≡ text.old.items ++ spaced (decimal count)) }
{
    let digits = count.to_string(alloc)?;
    push_word(text, digits.as_bytes())
}

/// Appends a signed number.
fn push_number(alloc: Global, text: &mut Vec<u8>, number: i128) -> Result<(), NoMemory>
    ensures { OnOk result (text.new.items ≡ text.old.items ++ spaced (signed_decimal number)) }
{
    let digits = number.to_string(alloc)?;
    push_word(text, digits.as_bytes())
}
