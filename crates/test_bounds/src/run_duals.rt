//! Dual values and scales at the ends of runs over lines by hand: just at their limits, and past them.
ghost use Rattle.std.specs.Prelude.{◌<◌};
ghost use Rattle.row_store.specs.Problem.{IsProblem};

use crate::assertions::assert_same;
use crate::pivoting::rows_of;
use frac_row::FracRow;
use row_store::{Dense, RowStore, Rows, is_problem};
use simplex_frac::dual_lift::{LiftError, Mixture, Reading, duals, least_scale};
use simplex_frac::{Outcome, solve};
use std::alloc::Global;
use std::test::Fail;

/// Lines, each with its right side last, their costs, the first line that is read, and what is told: a step and a place
/// where a number is too large, or 0 and 0, the scale, and the dual values.
type End = (
    &'static [&'static [i128]],
    &'static [i128],
    u32,
    (u64, u64, i128, &'static [i128]),
);

/// The greatest number is 2^127 - 1. This is a third of it, and a ninth.
const THIRD: i128 = 56_713_727_820_156_410_577_229_101_238_628_035_242;

const NINTH: i128 = 18_904_575_940_052_136_859_076_367_079_542_678_414;

const QUARTER: i128 = 1 << 125;

const HALF: i128 = 1 << 126;

/// At the end the first column is basic in one line, and the other line is met with its identity column. There the phase row
/// has a number above 0 over 3 in the second column, whose cost is below 0.
const BEST: &[End] = &[
    // The phase row is added 3 * THIRD / 4 times, rounded up.
    (
        &[&[3, 1, 3], &[1, -1, 1]],
        &[0, -THIRD],
        0,
        (0, 0, 3, &[-QUARTER, 3 * QUARTER]),
    ),
    (
        &[&[3, 1, 3], &[1, -1, 1]],
        &[0, -THIRD - 1],
        0,
        (1, 1, 0, &[]),
    ),
    // It is added 3 * NINTH times, and says 3 of the second line.
    (
        &[&[3, -2, 3], &[1, -1, 1]],
        &[0, -NINTH],
        0,
        (0, 0, 3, &[-3 * NINTH, 9 * NINTH]),
    ),
    (
        &[&[3, -2, 3], &[1, -1, 1]],
        &[0, -NINTH - 1],
        0,
        (3, 1, 0, &[]),
    ),
    (
        &[&[3, -2, 3], &[1, -1, 1]],
        &[0, -NINTH - 1],
        1,
        (3, 1, 0, &[]),
    ),
    // It says 3 of a line without numbers too.
    (
        &[&[0, 0, 0], &[3, -2, 3], &[1, -1, 1]],
        &[0, -NINTH - 1],
        0,
        (3, 0, 0, &[]),
    ),
    (
        &[&[0, 0, 0], &[3, -2, 3], &[1, -1, 1]],
        &[0, -NINTH - 1],
        1,
        (3, 2, 0, &[]),
    ),
    // How often it is added comes before the values.
    (
        &[&[3, -2, 3], &[1, -1, 1]],
        &[0, -THIRD - 1],
        0,
        (1, 1, 0, &[]),
    ),
    // The denominators are 2 in the phase row, and that of the first line in the cost row.
    (
        &[&[HALF - 1, 0, HALF - 1], &[0, 2, 2], &[0, 1, 1]],
        &[1, 0],
        0,
        (0, 0, 2 * (HALF - 1), &[2, 0, 0]),
    ),
    (
        &[&[HALF + 1, 0, HALF + 1], &[0, 2, 2], &[0, 1, 1]],
        &[1, 0],
        0,
        (2, 0, 0, &[]),
    ),
];

/// No point meets the last two lines. Weighed by these values, all columns cancel.
const NO_POINT: &[End] = &[
    (
        &[
            &[1, 0, 0, 0],
            &[QUARTER, 1, 0, 0],
            &[QUARTER - 1, 0, 1, 0],
            &[0, 2, 0, 1],
            &[0, 0, 2, 1],
        ],
        &[0, 0, 0],
        0,
        (0, 0, 1, &[i128::MAX - 1, -2, -2, 1, 1]),
    ),
    (
        &[
            &[1, 0, 0, 0],
            &[QUARTER, 1, 0, 0],
            &[QUARTER, 0, 1, 0],
            &[0, 2, 0, 1],
            &[0, 0, 2, 1],
        ],
        &[0, 0, 0],
        0,
        (3, 0, 0, &[]),
    ),
    (
        &[
            &[1, 0, 0, 0],
            &[QUARTER, 1, 0, 0],
            &[QUARTER, 0, 1, 0],
            &[0, 2, 0, 1],
            &[0, 0, 2, 1],
        ],
        &[0, 0, 0],
        1,
        (0, 0, 1, &[-2, -2, 1, 1]),
    ),
];

/// The dual values at the end of a run; none at an end that has none.
fn values_at_end(alloc: Global, rows: &Rows, first: u32) -> Result<Option<FracRow>, LiftError>
    requires { IsProblem rows.now }
{
    let mut table = Dense::start(alloc, rows)?;
    match solve(alloc, &mut table, rows.columns, 1_000)? {
        Outcome::Best { .. } => {
            let mixture = Mixture::of(&table, rows.columns)?;
            let reading = Reading::BothRows(mixture);
            let values = duals(alloc, &table, &reading, rows.columns, first)?;
            Ok(Some(values))
        }
        Outcome::NoPoint { .. } => {
            let values = duals(alloc, &table, &Reading::PhaseRow, rows.columns, first)?;
            Ok(Some(values))
        }
        _ => Ok(None),
    }
}

/// What is told of such values.
fn told(found: &Result<Option<FracRow>, LiftError>) -> (u64, u64, i128, &[i128]) {
    match found {
        Ok(Some(values)) => (0, 0, values.den, values.numbers.as_slice()),
        Ok(None) => (0, 1, 0, &[]),
        Err(LiftError::TooLarge { step, at }) => (*step, *at, 0, &[]),
        Err(LiftError::NoMemory) => (0, 2, 0, &[]),
    }
}

/// Lines over two columns, the limit of a scale, and the least one that makes the parts of both columns whole; else the line
/// at which it passes the limit.
const SCALES: &[(&[&[i128]], u64, Result<i128, (u64, u64)>)] = &[
    (&[&[3, 0, 1], &[0, 5, 1]], 15, Ok(15)),
    (&[&[3, 0, 1], &[0, 5, 1]], 14, Err((6, 1))),
    (&[&[3, 0, 1], &[0, 5, 1]], 2, Err((6, 0))),
    // In lowest terms the parts are halves.
    (&[&[6, 0, 3], &[0, 4, 2]], 2, Ok(2)),
    (&[&[6, 0, 3], &[0, 4, 2]], 1, Err((6, 0))),
    (&[&[1, 0, 7], &[0, 1, 0]], 1, Ok(1)),
];

/// The least scale at the end of a run; none where it ends at no cheapest point.
fn scale_at_end(alloc: Global, rows: &Rows, most: u64) -> Result<Option<i128>, LiftError>
    requires problem { IsProblem rows.now }
    requires limit { 0 < most }
{
    let mut table = Dense::start(alloc, rows)?;
    match solve(alloc, &mut table, rows.columns, 1_000)? {
        Outcome::Best { basis, .. } => {
            let scale = least_scale(&table, basis.as_slice(), rows.columns, rows.columns, most)?;
            Ok(Some(scale))
        }
        _ => Ok(None),
    }
}

#[test]
fn scales_just_at_their_limit(rt: HostRuntime) -> Result<(), Fail> {
    for (lines, most, wanted) in SCALES {
        let rows = rows_of(rt.alloc(), lines, &[0, 0])?;
        assert!(rt; is_problem(&rows));
        let seen = match scale_at_end(rt.alloc(), &rows, *most) {
            Ok(scale) => Ok(scale.unwrap_or(0)),
            Err(LiftError::TooLarge { step, at }) => Err((step, at)),
            Err(LiftError::NoMemory) => Err((0, 0)),
        };
        assert_same(&rt, seen, *wanted);
    }
    Ok(())
}

#[test]
fn dual_values_just_at_their_limit(rt: HostRuntime) -> Result<(), Fail> {
    for (lines, costs, first, wanted) in BEST {
        let rows = rows_of(rt.alloc(), lines, costs)?;
        assert!(rt; is_problem(&rows));
        let found = values_at_end(rt.alloc(), &rows, *first);
        assert_same(&rt, told(&found), *wanted);
    }
    Ok(())
}

#[test]
fn multipliers_of_a_run_just_at_their_limit(rt: HostRuntime) -> Result<(), Fail> {
    for (lines, costs, first, wanted) in NO_POINT {
        let rows = rows_of(rt.alloc(), lines, costs)?;
        assert!(rt; is_problem(&rows));
        let found = values_at_end(rt.alloc(), &rows, *first);
        assert_same(&rt, told(&found), *wanted);
    }
    Ok(())
}
