//! Whole numbers over a positive one.
ghost use Rattle.std.specs.Prelude.{◌≡◌, IfOk};

use crate::assertions::assert_same;
use entries::Entries;
use frac_row::{CombineError, FracRow, ceil_div, combine, compare_ratio, gcd, is_row, reduce};
use std::alloc::Global;
use std::cmp::Ordering;
use std::test::Fail;

#[test]
fn divisors_and_ceilings(rt: HostRuntime) {
    let divisors = (gcd(12, -18), gcd(0, 0));
    assert_same(&rt, divisors, (6, 0));
    let ceilings = (ceil_div(-13, 2), ceil_div(13, 2));
    assert_same(&rt, ceilings, (-6, 7));
}

#[test]
fn fractions_in_their_order(rt: HostRuntime) {
    assert_same(&rt, compare_ratio(1, 3, 2, 5), Ordering::Less);
    assert_same(
        &rt,
        compare_ratio(i128::MAX, 2, i128::MAX, 3),
        Ordering::Greater,
    );
    assert_same(&rt, compare_ratio(-2, 4, -1, 2), Ordering::Equal);
}

fn row(alloc: Global, numbers: &[i128], den: i128) -> Result<FracRow, Fail>
    ensures { IfOk result (λ row. row.numbers ≡ numbers.now) }
{
    Ok(FracRow {
        numbers: Entries::from_vec(Vec::from_slice(alloc, numbers)?),
        den,
    })
}

#[test]
fn a_row_in_lowest_terms(rt: HostRuntime) -> Result<(), Fail> {
    let mut halves = row(rt.alloc(), &[6, -4, 0], 2)?;
    assert!(rt; is_row(&halves));
    reduce(&mut halves);
    assert_same(&rt, halves.numbers.as_slice(), [3, -2, 0].as_slice());
    assert_same(&rt, halves.den, 1);
    Ok(())
}

#[test]
fn a_combined_row(rt: HostRuntime) -> Result<(), Fail> {
    let pivot_row = row(rt.alloc(), &[3, 6, 1], 1)?;
    let other = row(rt.alloc(), &[5, 1, 2], 1)?;
    assert!(rt; is_row(&pivot_row) && is_row(&other));
    let combined = combine(rt.alloc(), &other, &pivot_row, 0)?;
    assert_same(&rt, combined.numbers.as_slice(), [0, -27, 1].as_slice());
    assert_same(&rt, combined.den, 3);
    Ok(())
}

#[test]
fn numbers_that_are_outgrown(rt: HostRuntime) -> Result<(), Fail> {
    let large = 1 << 126;
    let pivot_row = row(rt.alloc(), &[3, large, 1], 1)?;
    let other = row(rt.alloc(), &[5, 1, 2], 1)?;
    assert!(rt; is_row(&pivot_row) && is_row(&other));
    match combine(rt.alloc(), &other, &pivot_row, 0) {
        Err(
            CombineError::Grew {
                column,
                left,
                right,
            },
        ) => assert_same(&rt, (column, left, right), (1, 5, large)),
        _ => assert!(rt; false),
    }
    Ok(())
}
