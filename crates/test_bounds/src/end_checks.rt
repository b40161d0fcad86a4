//! Whether hints are ends of lines: right ones, and each wrong one by hand.
ghost use Rattle.row_store.specs.Problem.{IsProblem};

use crate::assertions::assert_same;
use entries::Entries;
use row_store::{Line, Rows, is_problem};
use simplex_frac::end_check::{PointHint, RefusalHint, is_end, refuses};
use std::alloc::Global;
use std::process::Abort;
use std::test::Fail;

/// Both columns come to 2, the second to 1; the third line has no number. So the one point is 1 and 1, at a cost of 8.
const LINES: &[&[i128]] = &[&[1, 1, 2], &[0, 1, 1], &[0, 0, 0]];

const COSTS: &[i128] = &[3, 5];

/// Lines of which only one can be met.
const CONTRARY: &[&[i128]] = &[&[1, 1, 2], &[1, 1, 3]];

/// The greatest computed number, and a power that five times is below it.
const MOST: i128 = i128::MAX;

const LARGE: i128 = 1 << 123;

/// Dual values over their scale, a point over its scale, and whether they are an end.
type Point = (&'static [i128], i128, &'static [u64], u64, bool);

const POINTS: &[Point] = &[
    (&[3, 2, 0], 1, &[1, 1], 1, true),
    (&[6, 4, 0], 2, &[1, 1], 1, true),
    (&[3, 2, 0], 1, &[7, 7], 7, true),
    (&[3, 2, -7], 1, &[1, 1], 1, true),
    // The first dual value is one too high; both costs are 8.
    (&[4, 0, 0], 1, &[1, 1], 1, false),
    // The right sides weigh 7, and the point costs 8.
    (&[3, 1, 0], 1, &[1, 1], 1, false),
    (&[3, 2, 0], 2, &[1, 1], 1, false),
    // The point is off by one in each column, and in its scale.
    (&[3, 2, 0], 1, &[2, 1], 1, false),
    (&[3, 2, 0], 1, &[0, 2], 1, false),
    (&[3, 2, 0], 1, &[1, 1], 2, false),
    (&[3, 2, 0], 1, &[0, 0], 0, false),
    (&[0, 0, 0], 0, &[1, 1], 1, false),
    (&[-3, -2, 0], -1, &[1, 1], 1, false),
    // Lists that are too short, and too long.
    (&[3, 2], 1, &[1, 1], 1, false),
    (&[3, 2, 0, 0], 1, &[1, 1], 1, false),
    (&[3, 2, 0], 1, &[1], 1, false),
    (&[3, 2, 0], 1, &[1, 1, 0], 1, false),
    // The third dual value weighs nothing, and may be any number but -2^127.
    (&[3, 2, -MOST], 1, &[1, 1], 1, true),
    (&[3, 2, -MOST - 1], 1, &[1, 1], 1, false),
    // The right sides weigh 8 * 2^123, and that is still a number; 8 * 2^124 is none.
    (&[3 * LARGE, 2 * LARGE, 0], LARGE, &[1, 1], 1, true),
    (&[6 * LARGE, 4 * LARGE, 0], 2 * LARGE, &[1, 1], 1, false),
    (&[MOST, 2, 0], 1, &[1, 1], 1, false),
    (&[3, 2, 0], 1, &[u64::MAX, u64::MAX], u64::MAX, true),
];

/// Multipliers, and whether they refuse all points.
type Refusal = (&'static [i128], bool);

const REFUSALS: &[Refusal] = &[
    (&[-1, 1], true),
    (&[-5, 5], true),
    // The right sides weigh -1.
    (&[1, -1], false),
    // The columns weigh 1.
    (&[-1, 2], false),
    // The right sides weigh 0.
    (&[0, 0], false),
    (&[3, -2], false),
    (&[-1], false),
    (&[-1, 1, 0], false),
    (&[-MOST - 1, MOST], false),
    // Twice the first multiplier is no number.
    (&[-MOST, MOST], false),
];

fn rows(alloc: Global, lines: &[&[i128]]) -> Result<Rows, Fail> {
    let mut made = Vec::new(alloc);
    for line in lines {
        made.push(Line::from_vec(Vec::from_slice(alloc, line)?))?;
    }
    Ok(Rows {
        columns: 2,
        lines: Entries::from_vec(made),
        costs: Entries::from_vec(Vec::from_slice(alloc, COSTS)?),
    })
}

fn assert_points<R: Abort + Alloc<A = Global>>(rt: &R, rows: &Rows) -> Result<(), Fail>
    requires { IsProblem rows.now }
{
    for (duals, dual_scale, point, scale, wanted) in POINTS {
        let hint = PointHint {
            duals: Entries::from_vec(Vec::from_slice(rt.alloc(), duals)?),
            dual_scale: *dual_scale,
            point: Entries::from_vec(Vec::from_slice(rt.alloc(), point)?),
            scale: *scale,
        };
        assert_same(rt, is_end(rt.alloc(), rows, &hint)?, *wanted);
    }
    Ok(())
}

fn assert_refusals<R: Abort + Alloc<A = Global>>(rt: &R, rows: &Rows) -> Result<(), Fail>
    requires { IsProblem rows.now }
{
    for (multipliers, wanted) in REFUSALS {
        let hint = RefusalHint {
            multipliers: Entries::from_vec(Vec::from_slice(rt.alloc(), multipliers)?),
        };
        assert_same(rt, refuses(rt.alloc(), rows, &hint)?, *wanted);
    }
    Ok(())
}

#[test]
fn ends_are_told_from_what_is_none(rt: HostRuntime) -> Result<(), Fail> {
    let rows = rows(rt.alloc(), LINES)?;
    assert!(rt; is_problem(&rows));
    assert_points(&rt, &rows)
}

#[test]
fn refusals_are_told_from_what_is_none(rt: HostRuntime) -> Result<(), Fail> {
    let rows = rows(rt.alloc(), CONTRARY)?;
    assert!(rt; is_problem(&rows));
    assert_refusals(&rt, &rows)
}
