//! Ends by hand whose lifts are too large, and ends just at the limits.
ghost use Rattle.fleet_model.specs.Kept.{kept_by};
ghost use Rattle.lp_rows.specs.Outline.{IsOutline};
ghost use Rattle.lp_rows.specs.Points.{AreLinesOf};
ghost use Rattle.row_store.specs.Problem.{IsProblem};

use crate::assertions::assert_same;
use crate::hint_lifts::{lifted_point, lifted_refusal};
use dual_bound::Prices;
use entries::{Entries, NoMemory};
use fleet_model::{Kept, Tables};
use lp_rows::Program;
use price_lift::LiftError;
use simplex_frac::end_check::{PointHint, RefusalHint};
use std::alloc::Global;
use std::process::Abort;
use std::test::Fail;
use test_tables::schedules::{Files, NO_LEGS, ROUND_TRIP, read};

/// What becomes of an end by hand.
#[derive(Clone, Copy, Debug, PartialEq, Eq)]
enum Becomes {
    Lifted,
    /// First in this step, and there at this place.
    TooLarge(u64, u64),
    /// The check says that it is no end.
    NoEnd,
}

/// The greatest scale of prices and of weights, and the greatest size of a price.
const MOST_SCALE: i128 = 1_000_000_000_000_000_000;

const MOST: i128 = 1_000_000_000_000_000_000_000_000_000_000;

/// Two fleets without aircraft, and no leg: the lines are the two count lines, of which each has its slack alone. So any
/// values of at most 0 are dual values.
const IDLE: Files = Files {
    fleets: b"fleet,aircraft,turn\nF1,0,30\nF2,0,30\n",
    ..NO_LEGS
};

/// Dual values over their scale, a point over its scale, and what becomes of them.
type Point = (&'static [i128], i128, &'static [u64], u64, Becomes);

const IDLE_POINTS: &[Point] = &[
    (&[-1, 0], MOST_SCALE, &[0, 0], 1, Becomes::Lifted),
    (
        &[-1, 0],
        MOST_SCALE + 1,
        &[0, 0],
        1,
        Becomes::TooLarge(4, 0),
    ),
    (&[-1, -1], i128::MAX, &[0, 0], 1, Becomes::TooLarge(4, 0)),
    // In lowest terms the scale is just its limit.
    (&[-2, -4], 2 * MOST_SCALE, &[0, 0], 1, Becomes::Lifted),
    (&[-MOST, -MOST], 1, &[0, 0], 1, Becomes::Lifted),
    (&[0, -MOST - 1], 1, &[0, 0], 1, Becomes::TooLarge(5, 1)),
    (
        &[-MOST - 1, -MOST - 1],
        1,
        &[0, 0],
        1,
        Becomes::TooLarge(5, 0),
    ),
    // In lowest terms the values are just their limit.
    (&[-3 * MOST, 0], 3, &[0, 0], 1, Becomes::Lifted),
    // The scale comes before the values.
    (
        &[-MOST - 3, 0],
        MOST_SCALE + 1,
        &[0, 0],
        1,
        Becomes::TooLarge(4, 0),
    ),
];

/// The round trip at the same cost on both fleets. Its lines are two of legs, three of nodes of each fleet (AAA before the
/// first leg is back, AAA from then on, BBB) and two of counts; its columns four pairs, three arcs of each fleet and two
/// slacks.
const SAME_COSTS: Files = Files {
    costs: b"flight,fleet,cost\nX1,F1,100\nX1,F2,100\nX2,F1,100\nX2,F2,100\n",
    ..ROUND_TRIP
};

const EVEN: &[i128] = &[100, 100, 0, 0, 0, 0, 0, 0, 0, 0];

const LONG: u64 = 1_000_000_000_000_000_000;

/// The first fleet flies one part of both legs, the second one the others.
const SAME_COSTS_POINTS: &[Point] = &[
    (
        EVEN,
        1,
        &[
            1,
            LONG - 1,
            1,
            LONG - 1,
            0,
            1,
            0,
            0,
            LONG - 1,
            0,
            LONG - 1,
            1,
        ],
        LONG,
        Becomes::Lifted,
    ),
    (
        EVEN,
        1,
        &[1, LONG, 1, LONG, 0, 1, 0, 0, LONG, 0, LONG, 1],
        LONG + 1,
        Becomes::TooLarge(6, 0),
    ),
    // The parts of the pairs are halves, and those of the arc at BBB are not.
    (
        EVEN,
        1,
        &[
            LONG,
            LONG,
            LONG,
            LONG,
            0,
            LONG,
            1,
            0,
            LONG,
            0,
            LONG - 1,
            LONG,
        ],
        2 * LONG,
        Becomes::Lifted,
    ),
    // A price comes before the weights.
    (
        &[100, 100, MOST + 1, MOST + 1, MOST + 1, 0, 0, 0, 0, 0],
        1,
        &[1, LONG, 1, LONG, 0, 1, 0, 0, LONG, 0, LONG, 1],
        LONG + 1,
        Becomes::TooLarge(5, 2),
    ),
];

/// The round trip with one aircraft, which no other fleet than the first one has: AAA is empty from 08:00 till the aircraft
/// is back, BBB from 10:00 till it is there again. So of each fleet's arcs that of AAA over the night stays.
const ONE_AIRCRAFT: Files = Files {
    fleets: b"fleet,aircraft,turn\nF1,1,30\nF2,0,30\n",
    costs: b"flight,fleet,cost\nX1,F1,100\nX1,F2,101\nX2,F1,100\nX2,F2,100\n",
    ..ROUND_TRIP
};

const FLOWN_BY_FIRST: &[u64] = &[1, 0, 1, 0, 1, 0, 0, 0];

/// The second fleet's price rises by 1 at AAA, where it has no aircraft. Paid back, all prices grow by 1 at AAA till 08:00,
/// and at BBB in the first minute.
const ONE_AIRCRAFT_POINTS: &[Point] = &[
    (
        &[100, 100, 0, 0, 0, MOST - 2, MOST - 1, MOST - 1, 0, 0],
        1,
        FLOWN_BY_FIRST,
        1,
        Becomes::Lifted,
    ),
    (
        &[100, 100, 0, 0, 0, MOST - 1, MOST, MOST, 0, 0],
        1,
        FLOWN_BY_FIRST,
        1,
        Becomes::TooLarge(7, 1),
    ),
    // The prices of both fleets would be too large.
    (
        &[100, 100, MOST, MOST, MOST, MOST - 1, MOST, MOST, 0, 0],
        1,
        FLOWN_BY_FIRST,
        1,
        Becomes::TooLarge(7, 0),
    ),
    // Before they are paid back, a price is too large.
    (
        &[100, 100, 0, 0, 0, MOST, MOST + 1, MOST + 1, 0, 0],
        1,
        FLOWN_BY_FIRST,
        1,
        Becomes::TooLarge(5, 6),
    ),
];

/// Multipliers, and what becomes of them.
type Refusal = (&'static [i128], Becomes);

/// One leg that no fleet may fly, and two fleets without aircraft: the lines are that of the leg, which has no number, and
/// two of counts.
const NO_PAIR: Files = Files {
    legs: b"flight,from,dep,to,arr\nX1,AAA,08:00,BBB,09:00\n",
    costs: b"flight,fleet,cost\n",
    fleets: b"fleet,aircraft,turn\nF1,0,30\nF2,0,30\n",
    ..ROUND_TRIP
};

const NO_PAIR_REFUSALS: &[Refusal] = &[
    (&[1, 0, 0], Becomes::Lifted),
    (&[MOST + 1, -MOST, -MOST], Becomes::Lifted),
    (&[1, -MOST, -MOST - 1], Becomes::TooLarge(5, 2)),
    (&[1, -MOST - 1, -MOST - 1], Becomes::TooLarge(5, 1)),
    (&[0, 0, 0], Becomes::NoEnd),
];

/// Three legs in a ring, which one aircraft flies, but no fleet may fly all of them: the first one L1 and L3, the second
/// one L2. The lines are three of legs, of the first fleet two nodes at AAA, one at BBB and one at CCC, of the second one one
/// at BBB and one at CCC, and two of counts.
const PARTED_RING: Files = Files {
    stations: b"code,extra,maintenance\nAAA,0,yes\nBBB,0,no\nCCC,0,no\n",
    fleets: b"fleet,aircraft,turn\nF1,1,30\nF2,0,30\n",
    legs: b"flight,from,dep,to,arr\nL1,AAA,08:00,BBB,09:00\nL2,BBB,10:00,CCC,11:00\nL3,CCC,12:00,AAA,13:00\n",
    costs: b"flight,fleet,cost\nL1,F1,100\nL2,F2,100\nL3,F1,100\n",
    ..ROUND_TRIP
};

/// The first fleet's price rises by 1 at AAA, where no aircraft is from 08:00 to 13:29. Paid back, all prices grow by 1
/// there till 08:00, and at BBB and CCC in the first minute.
const PARTED_RING_REFUSALS: &[Refusal] = &[
    (
        &[0, 1, 0, 0, 1, 0, 1, MOST - 1, MOST - 2, 0, 0],
        Becomes::Lifted,
    ),
    (
        &[0, 1, 0, 0, 1, 0, 1, MOST, MOST - 1, 0, 0],
        Becomes::TooLarge(7, 1),
    ),
    (
        &[0, 1, 0, MOST - 1, MOST, MOST - 1, MOST, 1, 0, 0, 0],
        Becomes::TooLarge(7, 0),
    ),
    (
        &[0, 1, 0, 0, 1, 0, 1, MOST + 1, MOST, 0, 0],
        Becomes::TooLarge(5, 7),
    ),
    (&[0, 0, 0, 0, 1, 0, 1, 0, 0, 0, 0], Becomes::NoEnd),
];

/// What a lift comes to.
fn becomes_of(lifted: &Result<Option<Prices>, LiftError>) -> Result<Becomes, NoMemory> {
    match lifted {
        Ok(Some(_)) => Ok(Becomes::Lifted),
        Ok(None) => Ok(Becomes::NoEnd),
        Err(LiftError::TooLarge { step, at }) => Ok(Becomes::TooLarge(*step, *at)),
        Err(LiftError::NoMemory) => Err(NoMemory),
    }
}

/// Asserts what becomes of points that are said to be ends.
fn assert_points<R: Abort + Alloc<A = Global>>(
    rt: &R,
    tables: &Tables,
    points: &[Point],
) -> Result<(), Fail> {
    let kept = Kept::all(tables);
    let program = Program::new(rt.alloc(), tables, &kept)?;
    assert_points_in(rt, &program, tables, &kept, points)
}

fn assert_points_in<R: Abort + Alloc<A = Global>>(
    rt: &R,
    program: &Program,
    tables: &Tables,
    kept: &Kept,
    points: &[Point],
) -> Result<(), Fail>
    requires outline { IsOutline tables.now (kept_by kept.now) program.now.outline }
    requires lines { AreLinesOf tables.now (kept_by kept.now) program.now.rows }
    requires problem { IsProblem program.now.rows }
{
    for (duals, dual_scale, point, scale, wanted) in points {
        let hint = PointHint {
            duals: Entries::from_vec(Vec::from_slice(rt.alloc(), duals)?),
            dual_scale: *dual_scale,
            point: Entries::from_vec(Vec::from_slice(rt.alloc(), point)?),
            scale: *scale,
        };
        let lifted = lifted_point(rt.alloc(), program, &hint, tables, kept);
        assert_same(rt, becomes_of(&lifted)?, *wanted);
    }
    Ok(())
}

/// Asserts what becomes of multipliers that are said to refuse all points.
fn assert_refusals<R: Abort + Alloc<A = Global>>(
    rt: &R,
    tables: &Tables,
    refusals: &[Refusal],
) -> Result<(), Fail> {
    let kept = Kept::all(tables);
    let program = Program::new(rt.alloc(), tables, &kept)?;
    assert_refusals_in(rt, &program, tables, &kept, refusals)
}

fn assert_refusals_in<R: Abort + Alloc<A = Global>>(
    rt: &R,
    program: &Program,
    tables: &Tables,
    kept: &Kept,
    refusals: &[Refusal],
) -> Result<(), Fail>
    requires outline { IsOutline tables.now (kept_by kept.now) program.now.outline }
    requires lines { AreLinesOf tables.now (kept_by kept.now) program.now.rows }
    requires problem { IsProblem program.now.rows }
{
    for (multipliers, wanted) in refusals {
        let hint = RefusalHint {
            multipliers: Entries::from_vec(Vec::from_slice(rt.alloc(), multipliers)?),
        };
        let lifted = lifted_refusal(rt.alloc(), program, &hint, tables, kept);
        assert_same(rt, becomes_of(&lifted)?, *wanted);
    }
    Ok(())
}

#[test]
fn prices_just_at_their_limits(rt: HostRuntime) -> Result<(), Fail> {
    let tables = read(rt.alloc(), &IDLE)?;
    assert_points(&rt, &tables, IDLE_POINTS)
}

#[test]
fn weights_just_at_their_limit(rt: HostRuntime) -> Result<(), Fail> {
    let tables = read(rt.alloc(), &SAME_COSTS)?;
    assert_points(&rt, &tables, SAME_COSTS_POINTS)
}

#[test]
fn prices_that_are_paid_back_just_at_their_limit(rt: HostRuntime) -> Result<(), Fail> {
    let tables = read(rt.alloc(), &ONE_AIRCRAFT)?;
    assert_points(&rt, &tables, ONE_AIRCRAFT_POINTS)
}

#[test]
fn multipliers_just_at_their_limit(rt: HostRuntime) -> Result<(), Fail> {
    let tables = read(rt.alloc(), &NO_PAIR)?;
    assert_refusals(&rt, &tables, NO_PAIR_REFUSALS)
}

#[test]
fn multipliers_that_are_paid_back_just_at_their_limit(rt: HostRuntime) -> Result<(), Fail> {
    let tables = read(rt.alloc(), &PARTED_RING)?;
    assert_refusals(&rt, &tables, PARTED_RING_REFUSALS)
}
