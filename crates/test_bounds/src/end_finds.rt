//! Ends that the search finds on worked tables, and what the check says of them.
ghost use Rattle.row_store.specs.Problem.{IsProblem};

use crate::assertions::assert_same;
use entries::NoMemory;
use exact_ends::DualSimplex;
use fleet_model::{Kept, LoadError, Tables};
use lp_rows::Program;
use simplex_frac::end_check::{EndFinder, Hint, is_end, refuses};
use std::alloc::Global;
use std::process::Abort;
use std::test::Fail;
use test_tables::schedules::{
    BACK_BY_NIGHT, FOUR_AIRCRAFT, Files, MEETING_TRIPS, NO_LEGS, OVER_THE_DAY_START,
    OVERLAPPING_TRIPS, ROUND_TRIP, THROUGH_THE_HUB, TWO_FLEETS, TWO_NIGHTS_ALOFT, read,
};

/// Three round trips at once, which two aircraft can't fly.
const AT_ONCE: Files = Files {
    legs: b"flight,from,dep,to,arr\nA1,HUB,08:00,SAA,10:00\nA2,SAA,11:00,HUB,13:00\nB1,HUB,08:00,SBB,10:00\nB2,SBB,11:00,HUB,13:00\nC1,HUB,08:00,SCC,10:00\nC2,SCC,11:00,HUB,13:00\n",
    ..TWO_FLEETS
};

/// The round trip without any aircraft.
const NO_AIRCRAFT: Files = Files {
    fleets: b"fleet,aircraft,turn\nF1,0,30\nF2,0,30\n",
    ..ROUND_TRIP
};

/// The round trip, with a way back that neither fleet may fly.
const NO_WAY_BACK: Files = Files {
    costs: b"flight,fleet,cost\nX1,F1,100\nX1,F2,80\n",
    ..ROUND_TRIP
};

/// The overlapping trips at costs near the most that a table may have.
const DEAR: Files = Files {
    costs: b"flight,fleet,cost\nA1,F1,999999999989\nA1,F2,999999999961\nA2,F1,1000000000000\nA2,F2,7\nB1,F1,999999999937\nB1,F2,999999999899\nB2,F1,0\nB2,F2,999999999863\nC1,F1,999999999847\nC1,F2,1\nC2,F1,999999999767\nC2,F2,999999999761\n",
    ..TWO_FLEETS
};

/// Tables, the least steps by which the search finds an end of their lines with all pairs, and which end.
const FOUND: &[(Files, u64, &str)] = &[
    (ROUND_TRIP, 2, "point"),
    (OVERLAPPING_TRIPS, 6, "point"),
    (TWO_FLEETS, 6, "point"),
    (FOUR_AIRCRAFT, 2, "point"),
    (THROUGH_THE_HUB, 2, "point"),
    (OVER_THE_DAY_START, 1, "point"),
    (BACK_BY_NIGHT, 1, "point"),
    (TWO_NIGHTS_ALOFT, 1, "point"),
    (MEETING_TRIPS, 1, "point"),
    (NO_LEGS, 1, "point"),
    (DEAR, 6, "point"),
    (AT_ONCE, 6, "refusal"),
    (NO_AIRCRAFT, 4, "refusal"),
    (NO_WAY_BACK, 1, "refusal"),
];

/// What is found in the lines of tables with all pairs by so many steps, once the check has had its say.
fn found_in(alloc: Global, files: &Files, steps: u64) -> Result<&'static str, LoadError> {
    let tables = read(alloc, files)?;
    Ok(found_with(alloc, &tables, steps)?)
}

fn found_with(alloc: Global, tables: &Tables, steps: u64) -> Result<&'static str, NoMemory> {
    let program = Program::new(alloc, tables, &Kept::all(tables))?;
    checked(alloc, &program, steps)
}

/// What is found in the lines of a program.
fn checked(alloc: Global, program: &Program, steps: u64) -> Result<&'static str, NoMemory>
    requires { IsProblem program.now.rows }
{
    match DualSimplex::find(alloc, program, steps)? {
        None => Ok("none"),
        Some(hint) => kind_of(alloc, program, &hint),
    }
}

/// Which end a hint is, if it is one.
fn kind_of(alloc: Global, program: &Program, hint: &Hint) -> Result<&'static str, NoMemory>
    requires { IsProblem program.now.rows }
{
    match hint {
        Hint::Point(point) => {
            let is = is_end(alloc, &program.rows, point)?;
            Ok(if is { "point" } else { "wrong point" })
        }
        Hint::Refusal(refusal) => {
            let is = refuses(alloc, &program.rows, refusal)?;
            Ok(if is { "refusal" } else { "wrong refusal" })
        }
    }
}

#[test]
fn the_check_takes_what_is_found(rt: HostRuntime) -> Result<(), Fail> {
    for (files, least, end) in FOUND {
        let found = found_in(rt.alloc(), files, *least)?;
        assert_same(&rt, found, *end);
        let many = found_in(rt.alloc(), files, u64::MAX)?;
        assert_same(&rt, many, *end);
    }
    Ok(())
}

#[test]
fn nothing_is_found_by_a_step_less(rt: HostRuntime) -> Result<(), Fail> {
    for (files, least, _) in FOUND {
        let found = found_in(rt.alloc(), files, *least - 1)?;
        assert_same(&rt, found, "none");
    }
    Ok(())
}
