//! Times, costs and assignments.
use crate::assertions::assert_same;
use fleet_model::{Assignment, Costs, PairCost, Tables, busy, laps, nights, ready};
use std::alloc::Global;
use std::test::Fail;
use test_tables::schedules::{
    BACK_BY_NIGHT, Files, OVERLAPPING_TRIPS, ROUND_TRIP, THROUGH_THE_HUB, read,
};

/// When the aircraft of a leg on the first fleet is ready again.
#[derive(Clone, Copy, Debug, PartialEq, Eq)]
struct Times {
    busy: u16,
    ready: u16,
    nights: u32,
    laps: u32,
}

fn times_of(tables: &Tables, leg: u32) -> Option<Times> {
    if leg >= tables.leg_count() || tables.fleet_count() == 0 {
        return None;
    }
    Some(Times {
        busy: busy(tables, leg, 0),
        ready: ready(tables, leg, 0),
        nights: nights(tables, leg, 0),
        laps: laps(tables, leg, 0),
    })
}

/// The round trip, with 15 minutes of turn more at the first station.
const SLOW_STATION: Files = Files {
    stations: b"code,extra,maintenance\nAAA,15,yes\nBBB,0,no\n",
    ..ROUND_TRIP
};

/// Files, a leg, for how many minutes its aircraft is busy, when it is ready again, and after how many nights.
const READY: &[(Files, u32, u16, u16, u32)] = &[
    (ROUND_TRIP, 0, 90, 570, 0),
    (ROUND_TRIP, 1, 90, 690, 0),
    (SLOW_STATION, 0, 90, 570, 0),
    (SLOW_STATION, 1, 105, 705, 0),
    (BACK_BY_NIGHT, 1, 90, 0, 1),
    (OVERLAPPING_TRIPS, 3, 480, 0, 1),
    (OVERLAPPING_TRIPS, 5, 540, 480, 1),
    (THROUGH_THE_HUB, 1, 70, 550, 0),
    (THROUGH_THE_HUB, 3, 90, 670, 0),
];

#[test]
fn aircraft_are_ready_again(rt: HostRuntime) -> Result<(), Fail> {
    for (files, leg, busy, ready, nights) in READY {
        let tables = read(rt.alloc(), files)?;
        let want = Times {
            busy: *busy,
            ready: *ready,
            nights: *nights,
            laps: *nights,
        };
        assert_same(&rt, times_of(&tables, *leg), Some(want));
    }
    Ok(())
}

/// Costs, by leg and fleet.
const RISING: &[(u32, u32, i128)] = &[(0, 0, 100), (0, 1, 80), (1, 0, 100), (1, 1, 130)];

/// The same the other way round.
const FALLING: &[(u32, u32, i128)] = &[(1, 1, 130), (1, 0, 100), (0, 1, 80), (0, 0, 100)];

fn entries_of(alloc: Global, costs: &[(u32, u32, i128)]) -> Result<Vec<PairCost>, Fail> {
    let mut entries = Vec::new(alloc);
    for (leg, fleet, cost) in costs {
        entries.push(PairCost {
            leg: *leg,
            fleet: *fleet,
            cost: *cost,
        })?;
    }
    Ok(entries)
}

/// The entry at a place of the list, as it was given.
fn entry_at(costs: &Costs, place: usize) -> Option<(u32, u32, i128)> {
    match costs.as_slice().get(place) {
        Some(one) => Some((one.leg, one.fleet, one.cost)),
        None => None,
    }
}

#[test]
fn costs_are_found_in_any_order(rt: HostRuntime) -> Result<(), Fail> {
    for order in [RISING, FALLING] {
        let costs = Costs::from_vec(entries_of(rt.alloc(), order)?);
        for (leg, fleet, cost) in RISING {
            assert_same(&rt, costs.get(*leg, *fleet), Some(*cost));
        }
        assert_same(&rt, costs.get(2, 0), None);
        for (place, entry) in order.iter().enumerate() {
            assert_same(&rt, entry_at(&costs, place), Some(*entry));
        }
    }
    Ok(())
}

#[test]
fn an_assignment_is_its_choices(rt: HostRuntime) {
    let mut plan = Assignment::empty();
    assert!(rt; plan.is_empty());
    plan.push(3);
    plan.push(1);
    let copy = plan.copy();
    plan.push(2);
    assert!(rt; plan.len() == 3 && copy.len() == 2);
    assert_same(
        &rt,
        (plan.choice(0), plan.choice(1), plan.choice(2)),
        (3, 1, 2),
    );
    assert_same(&rt, (copy.choice(0), copy.choice(1)), (3, 1));
}
