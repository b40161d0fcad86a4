ghost use Rattle.std.specs.Prelude.{◌≡◌};
ghost use Rattle.frac_row.specs.Row.{width_of};
ghost use Rattle.frac_row.specs.Combined.{growth_by};
ghost use Rattle.frac_row.specs.Pairs.{pairs_of, first_growth};

use crate::entry::Entry;
use crate::factors::Factors;
use crate::growth::{Growth, place_growth, product};
use crate::pairs::Pairs;
use crate::sparse_row::SparseRow;

/// The first outgrown product or difference on the way from two rows to their combination. Only where
/// either row has a number can there be one.
pub fn growth_by(factors: &Factors, row: &SparseRow, pivot_row: &SparseRow) -> Option<Growth>
    requires same_width { width_of row.now ≡ width_of pivot_row.now }
    ensures { result ≡ growth_by factors.now row.now pivot_row.now }
{
    let growth = first_growth(
        factors,
        row.entries.as_slice(),
        pivot_row.entries.as_slice(),
    );
    if growth.is_some() {
        return growth;
    }
    match product(&factors.own, &row.den) {
        Some(_) => None,
        None => Some(Growth {
            column: row.width,
            left: factors.own,
            right: row.den,
        }),
    }
}

fn first_growth(factors: &Factors, row: &[Entry], pivot_row: &[Entry]) -> Option<Growth>
    ensures { result ≡ first_growth factors.now (pairs_of row.now pivot_row.now) }
{
    let mut pairs = Pairs { row, pivot_row };
    while let Some(pair) = pairs.next() {
        let growth = place_growth(factors, pair.column, &pair.number, &pair.pivot_number);
        if growth.is_some() {
            return growth;
        }
    }
    None
}
