//! Runs of the simplex method without a budget, over each store of tables, and how many bases there are.
ghost use Rattle.row_store.specs.Problem.{IsProblem};
ghost use Rattle.simplex_frac.specs.Duality.{AreRightSidesAtLeast0};

use crate::assertions::assert_same;
use crate::pivoting::{Told, rows_of, told};
use entries::NoMemory;
use fleet_model::{Kept, LoadError, Tables};
use lp_rows::Program;
use row_store::{Dense, RowStore, Rows, Sparse, is_problem};
use simplex_frac::{Outcome, are_right_sides_at_least_0, bases, finish, solve};
use std::alloc::Global;
use std::test::Fail;
use test_tables::schedules::{Files, OVERLAPPING_TRIPS, TWO_FLEETS, read};

/// Lines, and the end that is wanted.
#[derive(Clone, Copy)]
struct Run {
    /// Each line with its right side last.
    lines: &'static [&'static [i128]],
    costs: &'static [i128],
    end: Told,
}

const LARGE: i128 = 1 << 126;

const RUNS: &[Run] = &[
    Run {
        lines: &[&[1, 1, 1]],
        costs: &[3, 2],
        end: ("best", &[1], 2, 0, 0),
    },
    Run {
        lines: &[&[1, -1, 0]],
        costs: &[0, -1],
        end: ("ray", &[], 0, 0, 1),
    },
    Run {
        lines: &[&[0, 1]],
        costs: &[1],
        end: ("no point", &[1], 0, 0, 0),
    },
    // The product 5 * 2 ^ 126 is outgrown.
    Run {
        lines: &[&[3, LARGE, 1], &[5, 1, 2]],
        costs: &[0, 0],
        end: ("grew", &[], 0, 1, 1),
    },
    // Beale's example of 1955. Where the column of the least number enters, and at a tie the first line leaves, its run
    // has the same basis after 4 and after 10 pivots.
    Run {
        lines: &[
            &[4, 0, 0, 1, -32, -4, 36, 0],
            &[0, 2, 0, 1, -24, -1, 6, 0],
            &[0, 0, 1, 0, 0, 1, 0, 1],
        ],
        costs: &[0, 0, 0, -3, 80, -2, 24],
        end: ("best", &[5, 0, 3], 9, 0, 0),
    },
];

/// The end of the run of a problem in a store.
fn end_over<R: RowStore + Drop>(alloc: Global, rows: &Rows) -> Result<Outcome, NoMemory>
    requires problem { IsProblem rows.now }
    requires right_sides { AreRightSidesAtLeast0 rows.now }
{
    let mut store = R::start(alloc, rows)?;
    let end = finish(alloc, &mut store, rows.columns)?;
    Ok(Outcome::from(end))
}

#[test]
fn runs_without_a_budget(rt: HostRuntime) -> Result<(), Fail> {
    for run in RUNS {
        let rows = rows_of(rt.alloc(), run.lines, run.costs)?;
        assert!(rt; is_problem(&rows));
        assert!(rt; are_right_sides_at_least_0(&rows));
        let dense = end_over::<Dense>(rt.alloc(), &rows)?;
        let sparse = end_over::<Sparse>(rt.alloc(), &rows)?;
        assert_same(&rt, (told(&dense), told(&sparse)), (run.end, run.end));
    }
    Ok(())
}

/// Schedules, and the pivots by which the proved run over their lines ends at a cheapest point.
const SCHEDULES: &[(Files, u64)] = &[(OVERLAPPING_TRIPS, 31), (TWO_FLEETS, 13)];

/// How many pivots a run makes over the lines of a schedule: with one too few, which it spends, and with no budget, where it
/// ends.
fn pivots_of(alloc: Global, tables: &Tables, few: u64) -> Result<(u64, u64), NoMemory> {
    let program = Program::new(alloc, tables, &Kept::all(tables))?;
    if !are_right_sides_at_least_0(&program.rows) {
        return Ok((0, 0));
    }
    let mut store = Sparse::start(alloc, &program.rows)?;
    let spent = match solve(alloc, &mut store, program.rows.columns, few)? {
        Outcome::Spent { pivots } => pivots,
        _ => 0,
    };
    let made = match end_over::<Sparse>(alloc, &program.rows)? {
        Outcome::Best { made, .. } => made,
        _ => 0,
    };
    Ok((spent, made))
}

fn pivots_in(alloc: Global, files: &Files, few: u64) -> Result<(u64, u64), LoadError> {
    let tables = read(alloc, files)?;
    Ok(pivots_of(alloc, &tables, few)?)
}

#[test]
fn schedules_that_a_budget_leaves_open(rt: HostRuntime) -> Result<(), Fail> {
    for (files, wanted) in SCHEDULES {
        let seen = pivots_in(rt.alloc(), files, *wanted - 1)?;
        assert_same(&rt, seen, (*wanted - 1, *wanted));
    }
    Ok(())
}

/// Lines, real columns, and how many bases they have.
const BASES: &[(u32, u32, Option<u128>)] = &[
    (10, 12, Some(646_646)),
    (1, 2, Some(3)),
    (0, 0, Some(1)),
    (0, 5, Some(1)),
    (0, u32::MAX, Some(1)),
    (7, 0, Some(1)),
    (
        63,
        63,
        Some(6_034_934_435_761_406_706_427_864_636_568_328_000),
    ),
    (
        65,
        65,
        Some(95_067_625_827_960_698_145_584_333_020_095_113_100),
    ),
    // The first that pass 2^127 - 1.
    (65, 66, None),
    (66, 65, None),
    (1, u32::MAX, Some(1 << 32)),
    (u32::MAX, 1, Some(1 << 32)),
    (
        4,
        u32::MAX,
        Some(14_178_431_974_846_143_281_328_117_409_566_949_376),
    ),
    (
        u32::MAX,
        4,
        Some(14_178_431_974_846_143_281_328_117_409_566_949_376),
    ),
    (5, u32::MAX, None),
    (1 << 31, 1 << 31, None),
    (u32::MAX, u32::MAX, None),
];

#[test]
fn how_many_bases(rt: HostRuntime) -> Result<(), Fail> {
    for (lines, columns, wanted) in BASES {
        assert_same(&rt, bases(*lines, *columns), *wanted);
    }
    Ok(())
}

#[test]
fn right_sides_below_0(rt: HostRuntime) -> Result<(), Fail> {
    let rows = rows_of(rt.alloc(), &[&[1, 0], &[1, -1]], &[1])?;
    assert!(rt; is_problem(&rows));
    assert_same(&rt, are_right_sides_at_least_0(&rows), false);
    Ok(())
}
