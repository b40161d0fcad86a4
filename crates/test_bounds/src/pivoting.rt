//! Runs of the simplex method, over each store of tables.
ghost use Rattle.row_store.specs.Problem.{IsProblem};

use crate::assertions::assert_same;
use entries::{Entries, NoMemory};
use row_store::{Dense, Line, RowStore, Rows, Sparse, is_problem};
use simplex_frac::{Outcome, solve};
use std::alloc::Global;
use std::test::Fail;

/// Lines, a budget of pivots, and the end that is wanted.
#[derive(Clone, Copy)]
struct Run {
    /// Each line with its right side last.
    lines: &'static [&'static [i128]],
    costs: &'static [i128],
    pivots: u64,
    end: Told,
}

/// The end of a run: its kind, the basis, how many pivots were made, and a row and a column.
pub type Told = (&'static str, &'static [u32], u64, u32, u32);

const LARGE: i128 = 1 << 126;

const MIDDLE: i128 = 1 << 62;

const RUNS: &[Run] = &[
    Run {
        lines: &[&[1, 1, 1]],
        costs: &[3, 2],
        pivots: 2,
        end: ("best", &[1], 2, 0, 0),
    },
    Run {
        lines: &[&[1, 1, 1]],
        costs: &[3, 2],
        pivots: 1,
        end: ("spent", &[], 1, 0, 0),
    },
    Run {
        lines: &[&[1, -1, 0]],
        costs: &[0, -1],
        pivots: 5,
        end: ("ray", &[], 0, 0, 1),
    },
    Run {
        lines: &[&[0, 1]],
        costs: &[1],
        pivots: 5,
        end: ("no point", &[1], 0, 0, 0),
    },
    // The product 5 * 2 ^ 62 takes more than 64 bits.
    Run {
        lines: &[&[3, MIDDLE, 1], &[5, 1, 2]],
        costs: &[0, 0],
        pivots: 10,
        end: ("no point", &[0, 3], 1, 0, 0),
    },
    // The product 5 * 2 ^ 126 is outgrown.
    Run {
        lines: &[&[3, LARGE, 1], &[5, 1, 2]],
        costs: &[0, 0],
        pivots: 10,
        end: ("grew", &[], 0, 1, 1),
    },
];

/// Lines of such numbers, with their costs.
pub fn rows_of(alloc: Global, numbers: &[&'static [i128]], costs: &[i128]) -> Result<Rows, Fail> {
    let mut lines = Vec::new(alloc);
    for line in numbers {
        lines.push(Line::from_vec(Vec::from_slice(alloc, line)?))?;
    }
    Ok(Rows {
        columns: costs.len().try_into()?,
        lines: Entries::from_vec(lines),
        costs: Entries::from_vec(Vec::from_slice(alloc, costs)?),
    })
}

/// The end of a run, with its numbers in their order.
pub fn told(outcome: &Outcome) -> (&'static str, &[u32], u64, u32, u32) {
    match outcome {
        Outcome::Best { basis, made } => ("best", basis.as_slice(), *made, 0, 0),
        Outcome::NoPoint { basis, made } => ("no point", basis.as_slice(), *made, 0, 0),
        Outcome::Ray { column } => ("ray", &[], 0, 0, *column),
        Outcome::Spent { pivots } => ("spent", &[], *pivots, 0, 0),
        Outcome::Grew {
            pivots,
            row,
            column,
        } => ("grew", &[], *pivots, *row, *column),
    }
}

/// The outcome of the run of a problem in a store.
fn outcome_over<R: RowStore + Drop>(
    alloc: Global,
    rows: &Rows,
    pivots: u64,
) -> Result<Outcome, NoMemory>
    requires { IsProblem rows.now }
{
    let mut store = R::start(alloc, rows)?;
    solve(alloc, &mut store, rows.columns, pivots)
}

#[test]
fn runs_and_their_ends(rt: HostRuntime) -> Result<(), Fail> {
    for run in RUNS {
        let rows = rows_of(rt.alloc(), run.lines, run.costs)?;
        assert!(rt; is_problem(&rows));
        let dense = outcome_over::<Dense>(rt.alloc(), &rows, run.pivots)?;
        let sparse = outcome_over::<Sparse>(rt.alloc(), &rows, run.pivots)?;
        assert_same(&rt, (told(&dense), told(&sparse)), (run.end, run.end));
    }
    Ok(())
}
