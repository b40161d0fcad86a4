//! Sums of products, of which no number is outgrown.
ghost use Rattle.std.specs.Prelude.{◌≡◌, ◌+ℤ◌, ◌*ℤ◌, MatchOption};
ghost use Rattle.frac_row.specs.Outgrown.{IsWithin};
ghost use Rattle.simplex_frac.specs.end_check.Sums.{AddsWithin};

use frac_row::growth::product;

/// A sum and a product more, unless one of the two is outgrown.
pub(crate) fn plus_product(total: &i128, one: &i128, other: &i128) -> Option<i128>
    ensures { MatchOption result (¬ (AddsWithin total.now one.now other.now)) (λ more. (AddsWithin total.now one.now other.now) × (more ≡ total.now +ℤ (one.now *ℤ other.now))) }
{
    match product(one, other) {
        Some(more) => sum(total, &more),
        None => None,
    }
}

// A sum, unless it is outgrown.
fn sum(a: &i128, b: &i128) -> Option<i128>
    ensures { MatchOption result (¬ (IsWithin (a.now +ℤ b.now))) (λ x. (IsWithin (a.now +ℤ b.now)) × (x ≡ a.now +ℤ b.now)) }
{
    match a.checked_add(*b) {
        Some(x) if x != i128::MIN => Some(x),
        _ => None,
    }
}
