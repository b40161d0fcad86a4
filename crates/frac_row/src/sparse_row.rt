ghost use Rattle.std.specs.Prelude.{◌≡◌, ◌<◌, ◌^◌, ℕ, pos, IfOk};
ghost use Rattle.frac_row.specs.Row.{number_of, width_of};
ghost use Rattle.frac_row.specs.Content.{number_in, AreEntries};

use crate::entry::Entry;
use entries::NoMemory;
use std::alloc::Global;
use std::marker::Model;

/// Whole numbers over one positive number, of which those are held that are not 0. Contracts see the row
/// with all its numbers.
#[derive(Drop)]
pub struct SparseRow {
    /// By rising columns.
    pub(crate) entries: Vec<Entry>,
    /// How many columns there are.
    pub(crate) width: u32,
    pub(crate) den: i128,
}

impl Model for SparseRow {
    ghost use Rattle.frac_row.specs.declared.row.FracRow.{FracRow};
    ghost use Rattle.frac_row.specs.Content.{content_of, IsHeld};

    ghost Value = { FracRow };

    ghost view = { λ row. content_of row.entries.items row.width row.den };

    ghost invariant = { λ row. IsHeld row.entries.items row.width };
}

impl SparseRow {
    /// How many columns there are.
    pub fn width(&self) -> u32
        ensures { result ≡ width_of self.now }
    {
        self.width
    }

    /// The denominator.
    pub fn den(&self) -> i128
        ensures { result ≡ self.now.den }
    {
        self.den
    }

    /// The number in a column.
    pub fn number(&self, column: u32) -> i128
        requires { column < width_of self.now }
        ensures { result ≡ number_of self.now column }
    {
        number_in(self.entries.as_slice(), column)
    }

    /// The numbers other than 0, by rising columns.
    pub fn entries(&self) -> &[Entry]
        ensures rising { AreEntries 0 (width_of self.now) result.now }
        ensures numbers { (column : ℕ) → number_in result.now column ≡ number_of self.now column }
    {
        self.entries.as_slice()
    }

    /// A second row with the same numbers.
    pub fn copy(&self, alloc: Global) -> Result<SparseRow, NoMemory>
        ensures { IfOk result (λ row. row ≡ self.now) }
    {
        Ok(SparseRow {
            entries: Vec::from_slice(alloc, self.entries.as_slice())?,
            width: self.width,
            den: self.den,
        })
    }
}

/// The number of a list in a column, by bisection.
fn number_in(entries: &[Entry], column: u32) -> i128
    requires { AreEntries 0 (2 ^ 32) entries.now }
    ensures { result ≡ number_in entries.now column }
{
    match entries.binary_search_by_key(&column, |entry| entry.column) {
        Ok(place) => entries[place].number,
        Err(_) => 0,
    }
}
