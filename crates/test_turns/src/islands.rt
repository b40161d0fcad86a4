//! Idle minutes of islands, and the arcs that go over them.
use crate::assertions::assert_same;
use entries::Entries;
use fleet_model::{Kept, LoadError, Tables};
use node_aggregate::island_cut::{Idle, idle};
use node_aggregate::timeline_net::events;
use node_aggregate::{days_at, idle_minutes, moments, nodes};
use std::alloc::Global;
use std::process::Abort;
use std::test::Fail;
use test_tables::schedules::{
    FOUR_AIRCRAFT, Files, NO_LEGS, ROUND_TRIP, THROUGH_THE_HUB, TWO_FLEETS, read,
};

/// The round trip, with the one aircraft that it needs.
const ONE_AIRCRAFT: Files = Files {
    fleets: b"fleet,aircraft,turn\nF1,1,30\nF2,0,30\n",
    ..ROUND_TRIP
};

/// It, with none.
const NO_AIRCRAFT: Files = Files {
    fleets: b"fleet,aircraft,turn\nF1,0,30\nF2,0,30\n",
    ..ROUND_TRIP
};

/// It, with a leg that no fleet may fly.
const WITHOUT_A_PAIR: Files = Files {
    costs: b"flight,fleet,cost\nX1,F1,100\nX1,F2,80\n",
    ..ROUND_TRIP
};

/// The way out without the way back.
const WAY_OUT_ALONE: Files = Files {
    fleets: b"fleet,aircraft,turn\nF1,1,30\nF2,0,30\n",
    legs: b"flight,from,dep,to,arr\nX1,AAA,08:00,BBB,09:00\n",
    costs: b"flight,fleet,cost\nX1,F1,100\nX1,F2,80\n",
    ..ROUND_TRIP
};

/// The minutes of some stretches at stations, each from one minute up to and without another.
fn idles_of(alloc: Global, stretches: &[(u32, u16, u16)]) -> Result<Vec<Idle>, LoadError> {
    let mut idles = Vec::new(alloc);
    for (station, from, to) in stretches {
        for minute in *from..*to {
            idles.push(Idle {
                station: *station,
                minute,
            })?;
        }
    }
    Ok(idles)
}

/// Asserts where stations are idle.
fn assert_idle<R: Abort + Alloc<A = Global>>(
    rt: &R,
    tables: &Tables,
    stretches: &[(u32, u16, u16)],
) -> Result<(), Fail> {
    let want = idles_of(rt.alloc(), stretches)?;
    let seen = idle(rt.alloc(), tables)?;
    assert_same(rt, seen.as_slice(), want.as_slice());
    Ok(())
}

/// Files, and the stretches in which a station is idle.
type IdleCase = (Files, &'static [(u32, u16, u16)]);

/// Asserts where the stations of each row are idle.
fn assert_idles<R: Abort + Alloc<A = Global>>(rt: &R, cases: &[IdleCase]) -> Result<(), Fail> {
    for (files, stretches) in cases {
        let tables = read(rt.alloc(), files)?;
        assert_idle(rt, &tables, *stretches)?;
    }
    Ok(())
}

const OF_TRIPS: &[IdleCase] = &[
    (
        TWO_FLEETS,
        &[
            (0, 0, 1440),
            (1, 0, 1440),
            (2, 0, 900),
            (2, 960, 1440),
            (3, 0, 1320),
            (3, 1380, 1440),
        ],
    ),
    (
        FOUR_AIRCRAFT,
        &[
            (0, 510, 690),
            (1, 510, 690),
            (2, 0, 570),
            (2, 600, 1440),
            (3, 0, 570),
            (3, 600, 1440),
        ],
    ),
    (
        THROUGH_THE_HUB,
        &[(0, 0, 540), (0, 580, 1440), (1, 480, 660), (2, 480, 670)],
    ),
    (ONE_AIRCRAFT, &[(0, 480, 690), (1, 0, 570), (1, 600, 1440)]),
];

#[test]
fn stations_are_idle_where_all_aircraft_are_needed(rt: HostRuntime) -> Result<(), Fail> {
    assert_idles(&rt, OF_TRIPS)
}

const NEVER: &[IdleCase] = &[
    (ROUND_TRIP, &[]),
    (NO_AIRCRAFT, &[]),
    (WITHOUT_A_PAIR, &[]),
    (WAY_OUT_ALONE, &[]),
    (NO_LEGS, &[]),
];

#[test]
fn no_station_is_idle_elsewhere(rt: HostRuntime) -> Result<(), Fail> {
    assert_idles(&rt, NEVER)
}

/// The moments of the arcs of a fleet at a station.
fn moments_of(
    alloc: Global,
    files: &Files,
    fleet: u32,
    station: u32,
) -> Result<Option<Entries<Option<u16>>>, LoadError> {
    let tables = read(alloc, files)?;
    moments_in(alloc, &tables, fleet, station)
}

/// The same in tables.
fn moments_in(
    alloc: Global,
    tables: &Tables,
    fleet: u32,
    station: u32,
) -> Result<Option<Entries<Option<u16>>>, LoadError> {
    if fleet >= tables.fleet_count() || station >= tables.station_count() {
        return Ok(None);
    }
    let kept = Kept::all(tables);
    let idle = idle_minutes(alloc, tables, &kept)?;
    let happening = events(alloc, tables, &kept, fleet, station)?;
    let starts = nodes(alloc, &happening, days_at(tables, station))?;
    let found = moments(
        alloc,
        tables,
        &kept,
        fleet,
        station,
        &starts,
        idle.as_slice(),
    )?;
    Ok(Some(found))
}

/// Files, a fleet, a station, and the moments of the arcs there.
type MomentCase = (Files, u32, u32, &'static [Option<u16>]);

/// Asserts the moments of each row.
fn assert_moments<R: Abort + Alloc<A = Global>>(rt: &R, cases: &[MomentCase]) -> Result<(), Fail> {
    for (files, fleet, station, want) in cases {
        let seen = moments_of(rt.alloc(), files, *fleet, *station)?.ok_or("no moments")?;
        assert_same(rt, seen.as_slice(), *want);
    }
    Ok(())
}

const OF_OVERLAPPING_TRIPS: &[MomentCase] = &[
    (TWO_FLEETS, 0, 0, &[Some(0), Some(480), Some(960)]),
    (TWO_FLEETS, 0, 1, &[Some(420)]),
    (TWO_FLEETS, 1, 2, &[Some(960)]),
    (TWO_FLEETS, 1, 3, &[Some(1380)]),
];

const OF_ROUND_TRIPS: &[MomentCase] = &[
    (ROUND_TRIP, 0, 0, &[None, None]),
    (ONE_AIRCRAFT, 0, 0, &[Some(480), None]),
    (ONE_AIRCRAFT, 1, 1, &[Some(600)]),
    (NO_LEGS, 0, 0, &[]),
];

#[test]
fn arcs_go_at_their_moments(rt: HostRuntime) -> Result<(), Fail> {
    assert_moments(&rt, OF_OVERLAPPING_TRIPS)
}

#[test]
fn arcs_of_round_trips_go_at_their_moments(rt: HostRuntime) -> Result<(), Fail> {
    assert_moments(&rt, OF_ROUND_TRIPS)
}
