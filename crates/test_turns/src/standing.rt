//! Minutes at which no aircraft stands at a station, and aircraft left over.
use crate::assertions::assert_same;
use fleet_model::{LoadError, Tables};
use node_aggregate::island_cut::{have_pairs, spare, zero_minutes};
use std::alloc::Global;
use std::process::Abort;
use std::test::Fail;
use test_tables::plans::assignment;
use test_tables::schedules::{
    BACK_AT_ONCE, BACK_BY_NIGHT, BACK_IN_NO_TIME, FOUR_AIRCRAFT, Files, NO_LEGS, OVERLAPPING_TRIPS,
    ROUND_TRIP, THROUGH_THE_HUB, TWO_FLEETS, TWO_NIGHTS_ALOFT, read,
};

/// The minutes at whose end none of a fleet's aircraft stands at a station; nothing where there is no such fleet.
fn zeros(
    alloc: Global,
    files: &Files,
    fleets: &[u32],
    fleet: u32,
    station: u32,
) -> Result<Option<Vec<u16>>, LoadError> {
    let tables = read(alloc, files)?;
    zeros_in(alloc, &tables, fleets, fleet, station)
}

/// The same in tables.
fn zeros_in(
    alloc: Global,
    tables: &Tables,
    fleets: &[u32],
    fleet: u32,
    station: u32,
) -> Result<Option<Vec<u16>>, LoadError> {
    let Some(plan) = assignment(tables, fleets) else {
        return Ok(None);
    };
    if fleet >= tables.fleet_count() {
        return Ok(None);
    }
    let minutes = zero_minutes(alloc, tables, &plan, fleet, station)?;
    Ok(Some(minutes.into_vec()))
}

/// The minutes of some stretches, each from one up to and without another.
fn minutes_of(alloc: Global, stretches: &[(u16, u16)]) -> Result<Vec<u16>, LoadError> {
    let mut minutes = Vec::new(alloc);
    for (from, to) in stretches {
        for minute in *from..*to {
            minutes.push(minute)?;
        }
    }
    Ok(minutes)
}

/// Files, the fleets of the legs, a fleet, a station, and the stretches in which none stands there.
type Case = (Files, &'static [u32], u32, u32, &'static [(u16, u16)]);

/// Asserts when none stands at the station of each row.
fn assert_zeros<R: Abort + Alloc<A = Global>>(rt: &R, cases: &[Case]) -> Result<(), Fail> {
    for (files, fleets, fleet, station, stretches) in cases {
        let want = minutes_of(rt.alloc(), *stretches)?;
        let seen = zeros(rt.alloc(), files, *fleets, *fleet, *station)?;
        assert_same(rt, seen.as_deref(), Some(want.as_slice()));
    }
    Ok(())
}

const BETWEEN: &[Case] = &[
    (
        THROUGH_THE_HUB,
        &[0, 0, 0, 0],
        0,
        0,
        &[(0, 540), (580, 1440)],
    ),
    (THROUGH_THE_HUB, &[0, 0, 0, 0], 0, 1, &[(480, 660)]),
    (ROUND_TRIP, &[0, 0], 0, 1, &[(0, 570), (600, 1440)]),
    (ROUND_TRIP, &[0, 0], 1, 0, &[(0, 1440)]),
    (BACK_AT_ONCE, &[0, 0], 0, 1, &[(0, 1440)]),
];

#[test]
fn none_stands_but_between_landing_and_departure(rt: HostRuntime) -> Result<(), Fail> {
    assert_zeros(&rt, BETWEEN)
}

const OVER_NIGHTS: &[Case] = &[
    (BACK_BY_NIGHT, &[0, 0], 0, 0, &[(480, 1440)]),
    (BACK_IN_NO_TIME, &[1, 1], 1, 1, &[(540, 600)]),
    (TWO_NIGHTS_ALOFT, &[0, 0], 0, 1, &[(0, 480), (720, 1440)]),
    (FOUR_AIRCRAFT, &[0, 0, 0, 0, 0, 0], 0, 0, &[(510, 690)]),
    (NO_LEGS, &[], 1, 0, &[(0, 1440)]),
];

#[test]
fn none_stands_where_aircraft_are_away(rt: HostRuntime) -> Result<(), Fail> {
    assert_zeros(&rt, OVER_NIGHTS)
}

#[test]
fn at_the_hub_none_stands_for_1400_minutes(rt: HostRuntime) -> Result<(), Fail> {
    let seen = zeros(rt.alloc(), &THROUGH_THE_HUB, &[0, 0, 0, 0], 0, 0)?.ok_or("no fleet")?;
    assert_same(&rt, seen.len(), 1400);
    Ok(())
}

/// The aircraft left over; nothing where no fleet may fly some leg.
fn left_over(tables: &Tables) -> Option<i64> {
    if have_pairs(tables) {
        Some(spare(tables))
    } else {
        None
    }
}

const WITHOUT_AIRCRAFT: Files = Files {
    fleets: b"fleet,aircraft,turn\nF1,0,30\nF2,0,30\n",
    ..ROUND_TRIP
};

const SLOW_OUTWARD: Files = Files {
    costs: b"flight,fleet,cost\nX1,F2,80\nX2,F1,100\nX2,F2,130\n",
    ..BACK_IN_NO_TIME
};

const WITHOUT_A_PAIR: Files = Files {
    costs: b"flight,fleet,cost\nX1,F1,100\nX1,F2,80\n",
    ..ROUND_TRIP
};

/// Asserts how many aircraft the tables of each row leave over.
fn assert_left_over<R: Abort + Alloc<A = Global>>(
    rt: &R,
    cases: &[(Files, Option<i64>)],
) -> Result<(), Fail> {
    for (files, want) in cases {
        let tables = read(rt.alloc(), files)?;
        assert_same(rt, left_over(&tables), *want);
    }
    Ok(())
}

const LEFT_OVER: &[(Files, Option<i64>)] = &[
    (ROUND_TRIP, Some(1)),
    (TWO_FLEETS, Some(0)),
    (OVERLAPPING_TRIPS, Some(1)),
    (FOUR_AIRCRAFT, Some(0)),
    (THROUGH_THE_HUB, Some(0)),
];

#[test]
fn aircraft_are_left_over_by_the_joined_schedule(rt: HostRuntime) -> Result<(), Fail> {
    assert_left_over(&rt, LEFT_OVER)
}

const OF_CHANGED_TRIPS: &[(Files, Option<i64>)] = &[
    (WITHOUT_AIRCRAFT, Some(-1)),
    (BACK_IN_NO_TIME, Some(1)),
    (SLOW_OUTWARD, Some(0)),
    (NO_LEGS, Some(7)),
    (WITHOUT_A_PAIR, None),
];

#[test]
fn aircraft_of_changed_trips_are_left_over(rt: HostRuntime) -> Result<(), Fail> {
    assert_left_over(&rt, OF_CHANGED_TRIPS)
}
