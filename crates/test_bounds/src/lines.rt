//! Lines, and what they are made of.
use crate::assertions::assert_same;
use entries::Entries;
use frac_row::{Entry, SparseRow};
use row_store::{Layout, Line, Rows, is_problem};
use std::alloc::Global;
use std::test::Fail;

/// More numbers than a line here has.
const MOST: usize = 100;

/// Puts a number with its column behind those so far, where it is not 0.
fn push(seen: &mut Vec<(u32, i128)>, column: u32, number: i128) -> Result<(), Fail> {
    if number != 0 {
        seen.push((column, number))?;
    }
    Ok(())
}

/// The numbers of a line that are not 0, with their columns.
fn held(alloc: Global, line: &Line) -> Result<Vec<(u32, i128)>, Fail> {
    let mut seen = Vec::new(alloc);
    if line.len() < MOST {
        let mut left = line.numbers();
        for _turn in 0..MOST {
            if let Some(Entry { column, number }) = left.next() {
                push(&mut seen, column, number)?;
            }
        }
    }
    Ok(seen)
}

#[test]
fn line_of_all_numbers(rt: HostRuntime) -> Result<(), Fail> {
    let line = Line::from_vec(Vec::from_slice(rt.alloc(), &[0, 5, 0, -7])?);
    assert_same(&rt, (line.len(), line.number(1), line.number(2)), (4, 5, 0));
    assert_same(
        &rt,
        held(rt.alloc(), &line)?.as_slice(),
        [(1, 5), (3, -7)].as_slice(),
    );
    match line.into_layout() {
        Layout::Full(numbers) => assert_same(&rt, numbers.as_slice(), [0, 5, 0, -7].as_slice()),
        Layout::Sparse(_) => assert!(rt; false),
    }
    Ok(())
}

#[test]
fn line_of_entries(rt: HostRuntime) -> Result<(), Fail> {
    let mut row = SparseRow::zeros(rt.alloc(), 4);
    row.put(1, 5)?;
    row.put(2, 0)?;
    row.put(3, -7)?;
    let line = Line::from_row(row);
    assert_same(&rt, (line.len(), line.number(1), line.number(2)), (4, 5, 0));
    assert_same(
        &rt,
        held(rt.alloc(), &line)?.as_slice(),
        [(1, 5), (3, -7)].as_slice(),
    );
    match line.into_layout() {
        Layout::Full(_) => assert!(rt; false),
        Layout::Sparse(row) => assert_same(&rt, row.entries().len(), 2),
    }
    Ok(())
}

const LARGE: i128 = 1 << 126;

// The sizes of all numbers are outgrown together, and those of no column are.
#[test]
fn columns_decide_where_all_numbers_do_not(rt: HostRuntime) -> Result<(), Fail> {
    for (last, fits) in [(0, true), (LARGE, false)] {
        let mut lines = Vec::new(rt.alloc());
        lines.push(Line::from_vec(Vec::from_slice(rt.alloc(), &[LARGE, LARGE, 1])?))?;
        lines.push(Line::from_vec(Vec::from_slice(rt.alloc(), &[1, last, 1])?))?;
        let rows = Rows {
            columns: 2,
            lines: Entries::from_vec(lines),
            costs: Entries::from_vec(Vec::from_slice(rt.alloc(), &[0, 0])?),
        };
        assert_same(&rt, is_problem(&rows), fits);
    }
    Ok(())
}
