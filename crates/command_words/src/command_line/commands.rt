//! The commands, and what each of them takes.
use crate::command_line::arguments::Argument;

/// A command: its name, and what it takes, group by group.
#[derive(Clone, Copy)]
pub(crate) struct CommandRow<'a> {
    pub(crate) name: &'a str,
    pub(crate) groups: &'a [&'a [Argument<'a>]],
}

/// `DIR`: a folder.
const FOLDER: &[Argument<'static>] = &[Argument::Word("dir")];

/// `[--day-start HH:MM] [--period P] [--windows] [--optional]`: how the tables of a folder are read.
const TABLE_OPTIONS: &[Argument<'static>] = &[
    Argument::Option("day-start"),
    Argument::Option("period"),
    Argument::Flag("windows"),
    Argument::Flag("optional"),
];

/// `[--through-max M] [--least-night MINUTES] [--days D] [--visits V]`: which rotations are looked for.
const ROTATION_OPTIONS: &[Argument<'static>] = &[
    Argument::Option("through-max"),
    Argument::Option("least-night"),
    Argument::Option("days"),
    Argument::Option("visits"),
];

/// `[--search fixed|free] [--nodes N] [--pivots P] [--all-pivots] [--json]`: how a plan is looked for, and how it is told.
const SEARCH_OPTIONS: &[Argument<'static>] = &[
    Argument::Option("search"),
    Argument::Option("nodes"),
    Argument::Option("pivots"),
    Argument::Flag("all-pivots"),
    Argument::Flag("json"),
];

/// `DATE COUNT [--first-day FIRST]`: dates one after the other, and a first day of the period.
const DATES: &[Argument<'static>] = &[
    Argument::Word("date"),
    Argument::Word("count"),
    Argument::Option("first-day"),
];

/// `NUMBER LEGS`: what tables are made of.
const MADE: &[Argument<'static>] = &[Argument::Word("number"), Argument::Word("legs")];

/// `FLEET COUNT`: another number of aircraft of a fleet.
const OTHER_SIZE: &[Argument<'static>] = &[Argument::Word("fleet"), Argument::Word("count")];

/// The commands in the order in which they are told.
pub(crate) const COMMANDS: &[CommandRow<'static>] = &[
    CommandRow {
        name: "judge",
        groups: &[FOLDER, TABLE_OPTIONS],
    },
    CommandRow {
        name: "solve",
        groups: &[FOLDER, TABLE_OPTIONS, ROTATION_OPTIONS, SEARCH_OPTIONS],
    },
    CommandRow {
        name: "check",
        groups: &[FOLDER, TABLE_OPTIONS],
    },
    CommandRow {
        name: "tails",
        groups: &[FOLDER, TABLE_OPTIONS, DATES, ROTATION_OPTIONS],
    },
    CommandRow {
        name: "due",
        groups: &[FOLDER, TABLE_OPTIONS, DATES, ROTATION_OPTIONS],
    },
    CommandRow {
        name: "make",
        groups: &[FOLDER, MADE],
    },
    CommandRow {
        name: "whatif",
        groups: &[FOLDER, TABLE_OPTIONS, OTHER_SIZE],
    },
];
