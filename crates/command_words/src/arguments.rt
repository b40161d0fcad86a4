//! The values of a command's arguments, by what clap found for them.
ghost use Rattle.std.specs.Prelude.{◌≡◌, ◌≤◌, ◌<◌, IfSome, Some, codes, option_map};
ghost use Rattle.calendar_dates.specs.Days.{day_on};
ghost use Rattle.clap.specs.Words.{first_of};
ghost use Rattle.command_words.specs.Arguments.{AreDates, AreLimits, AreOptions, AreRotationLimits, IsLegCount, aircraft_told, budget_of, dates_in, day_start_in, is_given, least_night_in, legs_read, legs_told, number_told, options_in, past_at, period_in, reading_in, rotations_in, rows_found, search_in, settings_in, through_max_in, way_in, way_read};
ghost use Rattle.command_words.specs.Values.{number_read, value_or_default};
ghost use Rattle.command_words.specs.Words.{dates_by};
ghost use Rattle.fleet_model.specs.Limits.{AreSettings};
ghost use Rattle.fleet_model.specs.declared.limits.TheConstants.{MAX_AIRCRAFT, MINUTES_PER_DAY};
ghost use Rattle.command_words.specs.declared.command.TheConstants.{MAX_LEAST_NIGHT};

use crate::command::{
    DEFAULT_DAY_START, DEFAULT_DAYS, DEFAULT_LEAST_NIGHT, DEFAULT_NODES, DEFAULT_PERIOD,
    DEFAULT_PIVOTS, DEFAULT_THROUGH_MAX, DEFAULT_VISITS, DEFAULT_WAY, Dates, MAX_DATES, MAX_DAYS,
    MAX_LEAST_NIGHT, MAX_MADE_LEGS, MAX_NODES, MAX_NUMBER, MAX_PERIOD, MAX_PIVOTS, MAX_THROUGH_MAX,
    MAX_VISITS, MIN_DATES, MIN_DAYS, MIN_PERIOD, RotationLimits, SearchLimits, SearchWay,
    SolveOptions,
};
use crate::values::{minute_of_day, number_between};
use calendar_dates::{Date, civil_date, days_between, ends_in_calendar};
use clap::ArgMatches;
use fleet_model::limits::MAX_AIRCRAFT;
use fleet_model::{Settings, TableOptions};

/// How the tables are read, as the options say.
pub(crate) fn reading_of(found: &ArgMatches<'_>) -> Option<TableOptions>
    ensures read { result ≡ reading_in (rows_found found.now) }
    ensures fit { IfSome result (λ reading. AreSettings reading.settings) }
{
    Some(TableOptions {
        settings: settings_of(found)?,
        windows: is_given(found, "windows"),
        optional: is_given(found, "optional"),
    })
}

/// The settings that the options give.
fn settings_of(found: &ArgMatches<'_>) -> Option<Settings>
    ensures read { result ≡ settings_in (rows_found found.now) }
    ensures fit { IfSome result AreSettings }
{
    Some(Settings {
        day_start: day_start_of(found)?,
        through_max: through_max_of(found)?,
        least_night: least_night_of(found)?,
        period: period_of(found)?,
    })
}

/// The day start that an option gives, or its default.
fn day_start_of(found: &ArgMatches<'_>) -> Option<u16>
    ensures read { result ≡ day_start_in (rows_found found.now) }
    ensures fits { IfSome result (λ minute. minute < MINUTES_PER_DAY) }
{
    match value_of(found, "day-start") {
        Some(text) => minute_of_day(text),
        None => Some(DEFAULT_DAY_START),
    }
}

/// The longest wait of a through pair that an option gives, or its default, as where the command has no such option.
fn through_max_of(found: &ArgMatches<'_>) -> Option<u16>
    ensures read { result ≡ through_max_in (rows_found found.now) }
    ensures fits { IfSome result (λ wait. wait < MINUTES_PER_DAY) }
{
    let default = u64::from(DEFAULT_THROUGH_MAX);
    let wait = number_of(found, "through-max", default, 0, u64::from(MAX_THROUGH_MAX))?;
    Some(wait as u16)
}

/// The least minutes of a night for maintenance that an option gives, or their default, as where the command has no such
/// option.
fn least_night_of(found: &ArgMatches<'_>) -> Option<u16>
    ensures read { result ≡ least_night_in (rows_found found.now) }
    ensures fits { IfSome result (λ least. least ≤ MAX_LEAST_NIGHT) }
{
    let default = u64::from(DEFAULT_LEAST_NIGHT);
    let least = number_of(found, "least-night", default, 0, u64::from(MAX_LEAST_NIGHT))?;
    Some(least as u16)
}

/// The days of the period that an option gives, or their default.
fn period_of(found: &ArgMatches<'_>) -> Option<u16>
    ensures read { result ≡ period_in (rows_found found.now) }
    ensures some { IfSome result (λ days. MIN_PERIOD ≤ days) }
    ensures few { IfSome result (λ days. days ≤ MAX_PERIOD) }
{
    let default = u64::from(DEFAULT_PERIOD);
    let days = number_of(
        found,
        "period",
        default,
        u64::from(MIN_PERIOD),
        u64::from(MAX_PERIOD),
    )?;
    Some(days as u16)
}

/// How a plan is searched for, as the options say.
pub(crate) fn options_of(found: &ArgMatches<'_>) -> Option<SolveOptions>
    ensures read { result ≡ options_in (rows_found found.now) }
    ensures fit { IfSome result AreOptions }
{
    Some(SolveOptions {
        way: way_of(found)?,
        search: search_of(found)?,
        rotations: rotations_of(found)?,
        json: is_given(found, "json"),
    })
}

/// How a search makes its choices, as an option says, or its default.
fn way_of(found: &ArgMatches<'_>) -> Option<SearchWay>
    ensures { result ≡ way_in (rows_found found.now) }
{
    match value_of(found, "search") {
        Some(text) => way_named(text),
        None => Some(DEFAULT_WAY),
    }
}

/// The way of searching that a text names, in just these letters.
fn way_named(text: &str) -> Option<SearchWay>
    ensures { result ≡ way_read text.now }
{
    match text {
        "fixed" => Some(SearchWay::Fixed),
        "free" => Some(SearchWay::Free),
        _ => None,
    }
}

/// The limits of a search that the options give.
fn search_of(found: &ArgMatches<'_>) -> Option<SearchLimits>
    ensures read { result ≡ search_in (rows_found found.now) }
    ensures fit { IfSome result AreLimits }
{
    let nodes = number_of(found, "nodes", DEFAULT_NODES, 0, MAX_NODES)?;
    let pivots = number_of(found, "pivots", DEFAULT_PIVOTS, 0, MAX_PIVOTS)?;
    let pivots = budget_of(is_given(found, "all-pivots"), pivots);
    Some(SearchLimits { nodes, pivots })
}

/// The limit of pivots: none where all are allowed, whatever number is given.
fn budget_of(all: bool, pivots: u64) -> Option<u64>
    ensures { result ≡ budget_of all pivots }
{
    if all { None } else { Some(pivots) }
}

/// The limits of rotations that the options give.
pub(crate) fn rotations_of(found: &ArgMatches<'_>) -> Option<RotationLimits>
    ensures read { result ≡ rotations_in (rows_found found.now) }
    ensures fit { IfSome result AreRotationLimits }
{
    let days = small_number_of(found, "days", DEFAULT_DAYS, MIN_DAYS, MAX_DAYS)?;
    let visits = small_number_of(found, "visits", DEFAULT_VISITS, 0, MAX_VISITS)?;
    Some(RotationLimits { days, visits })
}

/// The dates that the words give.
pub(crate) fn dates_of(found: &ArgMatches<'_>) -> Option<Dates>
    ensures read { option_map dates_by result ≡ dates_in (rows_found found.now) }
    ensures fit { IfSome result AreDates }
{
    let first = civil_date(value_of(found, "date")?)?;
    let count = count_of(value_of(found, "count")?)?;
    let past = past_of(found, first)?;
    if !ends_in_calendar(first, count) {
        return None;
    }
    Some(Dates { first, count, past })
}

/// How many days a date comes after the first day of a period that an option gives. It is one itself where none is given.
fn past_of(found: &ArgMatches<'_>, date: Date) -> Option<u32>
    ensures read { result ≡ past_at (first_of (codes "first-day") (rows_found found.now)) (Some (day_on date)) }
    ensures few { IfSome result (λ days. days ≤ 3652058) }
{
    match value_of(found, "first-day") {
        Some(text) => days_between(civil_date(text)?, date),
        None => Some(0),
    }
}

/// The number of dates that a text writes.
fn count_of(text: &str) -> Option<u32>
    ensures read { result ≡ number_read MIN_DATES MAX_DATES text.now }
    ensures some { IfSome result (λ count. MIN_DATES ≤ count) }
    ensures few { IfSome result (λ count. count ≤ MAX_DATES) }
{
    let count = number_between(text, u64::from(MIN_DATES), u64::from(MAX_DATES))?;
    Some(count as u32)
}

/// The number that tables are made of.
pub(crate) fn made_number_of(found: &ArgMatches<'_>) -> Option<u32>
    ensures read { result ≡ number_told (rows_found found.now) }
    ensures fits { IfSome result (λ number. number ≤ MAX_NUMBER) }
{
    let number = number_between(value_of(found, "number")?, 0, u64::from(MAX_NUMBER))?;
    Some(number as u32)
}

/// How many legs are made.
pub(crate) fn made_legs_of(found: &ArgMatches<'_>) -> Option<u32>
    ensures read { result ≡ legs_told (rows_found found.now) }
    ensures fits { IfSome result IsLegCount }
{
    made_legs(value_of(found, "legs")?)
}

/// The number of legs that a text writes. It is even, since legs are made out and back.
fn made_legs(text: &str) -> Option<u32>
    ensures read { result ≡ legs_read text.now }
    ensures fits { IfSome result IsLegCount }
{
    let legs = number_between(text, 0, u64::from(MAX_MADE_LEGS))?;
    if legs % 2 == 0 {
        Some(legs as u32)
    } else {
        None
    }
}

/// The number of aircraft that a word gives.
pub(crate) fn aircraft_of(found: &ArgMatches<'_>) -> Option<u32>
    ensures read { result ≡ aircraft_told (rows_found found.now) }
    ensures fits { IfSome result (λ count. count ≤ MAX_AIRCRAFT) }
{
    let count = number_between(value_of(found, "count")?, 0, u64::from(MAX_AIRCRAFT))?;
    Some(count as u32)
}

/// The number of 32 bits that an option gives, or its default.
fn small_number_of(
    found: &ArgMatches<'_>,
    option: &str,
    default: u32,
    least: u32,
    greatest: u32,
) -> Option<u32>
    requires default_least { least ≤ default }
    requires default_greatest { default ≤ greatest }
    ensures read { result ≡ value_or_default default (number_read least greatest) (first_of option.now (rows_found found.now)) }
    ensures least { IfSome result (λ number. least ≤ number) }
    ensures greatest { IfSome result (λ number. number ≤ greatest) }
{
    let default = u64::from(default);
    let number = number_of(
        found,
        option,
        default,
        u64::from(least),
        u64::from(greatest),
    )?;
    Some(number as u32)
}

/// The number that an option gives, or its default.
fn number_of(
    found: &ArgMatches<'_>,
    option: &str,
    default: u64,
    least: u64,
    greatest: u64,
) -> Option<u64>
    requires default_least { least ≤ default }
    requires default_greatest { default ≤ greatest }
    ensures read { result ≡ value_or_default default (number_read least greatest) (first_of option.now (rows_found found.now)) }
    ensures least { IfSome result (λ number. least ≤ number) }
    ensures greatest { IfSome result (λ number. number ≤ greatest) }
{
    match value_of(found, option) {
        Some(text) => number_between(text, least, greatest),
        None => Some(default),
    }
}

/// Whether a flag is given.
fn is_given(found: &ArgMatches<'_>, flag: &str) -> bool
    ensures { result ≡ is_given flag.now (rows_found found.now) }
{
    match value_of(found, flag) {
        Some(text) => text == "true",
        None => false,
    }
}

/// The value of an argument, where it was given one.
pub(crate) fn value_of<'a>(found: &ArgMatches<'a>, argument: &str) -> Option<&'a str>
    ensures { option_map (λ text. text.now) result ≡ first_of argument.now (rows_found found.now) }
{
    found.get_str(argument)
}
