//! The times of legs, and the choices that they give.
use crate::assertions::assert_same;
use entries::Entries;
use fleet_model::{Departure, Leg, LoadError, Pair, Shift, Shifts, Tables, departures_of};
use std::alloc::Global;
use std::test::Fail;
use test_tables::schedules::{ROUND_TRIP, read};

/// A leg's own time, and one that is earlier and one that is later.
const OWN: Shift = Shift {
    minutes: 0,
    dep: 480,
    extra: 0,
};

const EARLIER: Shift = Shift {
    minutes: -15,
    dep: 465,
    extra: 20,
};

const LATER: Shift = Shift {
    minutes: 30,
    dep: 510,
    extra: 5,
};

fn three_times() -> Shifts {
    let mut shifts = Shifts::empty();
    shifts.push(EARLIER);
    shifts.push(OWN);
    shifts.push(LATER);
    shifts
}

#[test]
fn a_leg_has_its_own_time(rt: HostRuntime) {
    let shifts = Shifts::own(480);
    assert_same(&rt, Shift::own(480), OWN);
    assert_same(&rt, shifts.as_slice(), [OWN].as_slice());
    assert_same(&rt, (shifts.len(), shifts.own_slot()), (1, 0));
    assert!(rt; Shifts::empty().is_empty());
}

#[test]
fn a_leg_has_its_own_time_among_others(rt: HostRuntime) {
    let shifts = three_times();
    assert_same(&rt, shifts.as_slice(), [EARLIER, OWN, LATER].as_slice());
    assert_same(&rt, (shifts.len(), shifts.own_slot()), (3, 1));
    assert!(rt; !shifts.is_empty());
}

/// A leg at 08:00 with these times.
fn leg_at(alloc: Global, shifts: Shifts) -> Result<Leg, LoadError> {
    Ok(Leg {
        flight: Entries::from_vec(Vec::from_slice(alloc, b"X1")?),
        from: 0,
        dep: 480,
        to: 1,
        block: 60,
        shifts,
        skip: None,
    })
}

/// The departures of a leg with one time and of one with three.
const DEPARTURES: &[Departure] = &[
    Departure { leg: 0, slot: 0 },
    Departure { leg: 1, slot: 0 },
    Departure { leg: 1, slot: 1 },
    Departure { leg: 1, slot: 2 },
];

#[test]
fn each_time_of_a_leg_is_a_departure(rt: HostRuntime) -> Result<(), Fail> {
    let first = leg_at(rt.alloc(), Shifts::own(480))?;
    let second = leg_at(rt.alloc(), three_times())?;
    let legs = vec![in rt.alloc(); first, second]?;
    let departures = departures_of(rt.alloc(), &legs)?;
    assert_same(&rt, departures.as_slice(), DEPARTURES);
    Ok(())
}

/// Of a pair the fleet and the minute of departure, and of its leg how many times and choices it has, and by which choice
/// it is left out; nothing where the tables have no such pair.
fn told_of(tables: &Tables, leg: u32, choice: u32) -> Option<(u32, u16, u32, u32, u32)> {
    if leg >= tables.leg_count() || choice >= tables.choice_count(leg) {
        return None;
    }
    let pair = Pair { leg, choice };
    Some((
        tables.fleet_by(pair),
        tables.shift_by(pair).dep,
        tables.shift_count(leg),
        tables.choice_count(leg),
        tables.left_out(leg),
    ))
}

#[test]
fn a_leg_of_two_fleets_has_two_choices(rt: HostRuntime) -> Result<(), Fail> {
    let tables = read(rt.alloc(), &ROUND_TRIP)?;
    assert_same(&rt, told_of(&tables, 0, 0), Some((0, 480, 1, 2, 2)));
    assert_same(&rt, told_of(&tables, 1, 1), Some((1, 600, 1, 2, 2)));
    assert_same(&rt, told_of(&tables, 1, 2), None);
    assert_same(&rt, tables.fleet_cost(0, 1), Some(80));
    assert_same(&rt, tables.fleet_cost(0, 2), None);
    assert_same(&rt, tables.cost(Pair { leg: 0, choice: 2 }), None);
    Ok(())
}

/// How many departures there are, and the pairs by which a fleet flies one of them, and a leg at its own time; nothing where
/// the tables have no such leg and fleet.
fn flown_by(tables: &Tables, leg: u32, fleet: u32) -> Option<(u32, Pair, Pair)> {
    if leg >= tables.departure_count()
        || leg >= tables.leg_count()
        || fleet >= tables.fleet_count()
    {
        return None;
    }
    Some((
        tables.departure_count(),
        tables.pair_on(leg, fleet),
        tables.own_pair(leg, fleet),
    ))
}

#[test]
fn a_departure_is_flown_by_a_pair(rt: HostRuntime) -> Result<(), Fail> {
    let tables = read(rt.alloc(), &ROUND_TRIP)?;
    let pair = Pair { leg: 1, choice: 1 };
    assert_same(&rt, flown_by(&tables, 1, 1), Some((2, pair, pair)));
    Ok(())
}
