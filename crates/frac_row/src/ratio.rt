ghost use Rattle.std.specs.Prelude.{◌≡◌, ◌<◌, ◌*◌, ℤ, pos, ◌<ℤ◌};
ghost use Rattle.std.specs.Ordering.{nat_cmp};
ghost use Rattle.frac_row.specs.Ratio.{IsCeiling, ratio_cmp};

use crate::division::divide;
use std::cmp::Ordering;

/// `n / d` rounded towards the greater number.
pub fn ceil_div(n: i128, d: i128) -> i128
    requires { pos 0 <ℤ d }
    ensures { IsCeiling n d result }
{
    let division = divide(n, d);
    if division.rest > 0 {
        division.quotient + 1
    } else {
        division.quotient
    }
}

/// Compares `a / b` with `c / d` by division with remainder, which forms no product.
pub fn compare_ratio(a: i128, b: i128, c: i128, d: i128) -> Ordering
    requires first { pos 0 <ℤ b }
    requires second { pos 0 <ℤ d }
    ensures { result ≡ ratio_cmp a b c d }
{
    match (a < 0, c < 0) {
        (true, false) => Ordering::Less,
        (false, true) => Ordering::Greater,
        (false, false) => compare_sizes(
            a.unsigned_abs(),
            b.unsigned_abs(),
            c.unsigned_abs(),
            d.unsigned_abs(),
        ),
        (true, true) => compare_sizes(
            c.unsigned_abs(),
            d.unsigned_abs(),
            a.unsigned_abs(),
            b.unsigned_abs(),
        ),
    }
}

/// The same for numbers of at least 0. Equal quotients leave the rests to be compared, and `r / b` and
/// `t / d` compare as `d / t` and `b / r` do.
fn compare_sizes(a: u128, b: u128, c: u128, d: u128) -> Ordering
    requires first { 0 < b }
    requires second { 0 < d }
    ensures { result ≡ nat_cmp (a * d) (c * b) }
{
    let left = a / b;
    let right = c / d;
    if left < right {
        return Ordering::Less;
    }
    if right < left {
        return Ordering::Greater;
    }
    let left_rest = a % b;
    let right_rest = c % d;
    if right_rest == 0 {
        return if left_rest == 0 {
            Ordering::Equal
        } else {
            Ordering::Greater
        };
    }
    if left_rest == 0 {
        return Ordering::Less;
    }
    compare_sizes(d, right_rest, b, left_rest)
}
