ghost use Rattle.std.specs.Prelude.{◌≡◌, ◌<◌, ◌^◌, true, false, ◌-ℤ◌, ◌*ℤ◌, MatchOption};
ghost use Rattle.frac_row.specs.Outgrown.{is_outgrown};
ghost use Rattle.frac_row.specs.Row.{width_of};
ghost use Rattle.frac_row.specs.Combined.{place_growth, growth_by};

use crate::factors::Factors;
use crate::row::FracRow;

/// An outgrown product or difference: its column and its two operands. The denominator stands in the
/// column after the last number.
#[derive(Clone, Copy)]
pub struct Growth {
    pub column: u32,
    pub left: i128,
    pub right: i128,
}

impl Growth {
    fn new(column: u32, left: &i128, right: &i128) -> Growth
        ensures { result ≡ record { column = column; left = left.now; right = right.now } }
    {
        Growth {
            column,
            left: *left,
            right: *right,
        }
    }
}

/// The first outgrown product or difference on the way from two rows to their combination.
pub fn growth_by(factors: &Factors, row: &FracRow, pivot_row: &FracRow) -> Option<Growth>
    requires same_width { width_of row.now ≡ width_of pivot_row.now }
    requires columns { width_of row.now < 2 ^ 32 }
    ensures { result ≡ growth_by factors.now row.now pivot_row.now }
{
    let numbers = row.numbers.as_slice();
    let pivot_numbers = pivot_row.numbers.as_slice();
    let width = numbers.len();
    for column in 0..width {
        let growth = place_growth(
            factors,
            column as u32,
            &numbers[column],
            &pivot_numbers[column],
        );
        if growth.is_some() {
            return growth;
        }
    }
    match product(&factors.own, &row.den) {
        Some(_) => None,
        None => Some(Growth::new(width as u32, &factors.own, &row.den)),
    }
}

/// The first outgrown one of a column's two products and their difference.
pub fn place_growth(
    factors: &Factors,
    column: u32,
    number: &i128,
    pivot_number: &i128,
) -> Option<Growth>
    ensures { result ≡ place_growth factors.now column number.now pivot_number.now }
{
    let Some(left) = product(&factors.own, number) else {
        return Some(Growth::new(column, &factors.own, number));
    };
    let Some(right) = product(&factors.pivot, pivot_number) else {
        return Some(Growth::new(column, &factors.pivot, pivot_number));
    };
    match difference(&left, &right) {
        Some(_) => None,
        None => Some(Growth::new(column, &left, &right)),
    }
}

/// A product, unless it is outgrown.
pub fn product(a: &i128, b: &i128) -> Option<i128>
    ensures { MatchOption result (is_outgrown (a.now *ℤ b.now) ≡ true) (λ x. (x ≡ a.now *ℤ b.now) × (is_outgrown (a.now *ℤ b.now) ≡ false)) }
{
    match a.checked_mul(*b) {
        Some(x) if x != i128::MIN => Some(x),
        _ => None,
    }
}

/// A difference, unless it is outgrown.
pub fn difference(a: &i128, b: &i128) -> Option<i128>
    ensures { MatchOption result (is_outgrown (a.now -ℤ b.now) ≡ true) (λ x. (x ≡ a.now -ℤ b.now) × (is_outgrown (a.now -ℤ b.now) ≡ false)) }
{
    match a.checked_sub(*b) {
        Some(rest) if rest != i128::MIN => Some(rest),
        _ => None,
    }
}
