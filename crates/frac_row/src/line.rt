ghost use Rattle.std.specs.Prelude.{◌≡◌, ◌<◌, ◌≤◌, ◌^◌, ℕ, pos, length, slice_index_or};
ghost use Rattle.frac_row.specs.Content.{number_in, AreRising};

use crate::numbers::Numbers;
use crate::sparse_row::SparseRow;
use std::marker::Model;

/// The numbers of a line. Contracts see all of them; those that are 0 need not be held.
#[derive(Drop)]
pub struct Line {
    layout: Layout,
}

/// How a line is held.
#[derive(Drop)]
pub enum Layout {
    /// All its numbers, as it was made of them.
    Full(Vec<i128>),
    /// Those that are not 0, in a row over 1.
    Sparse(SparseRow),
}

impl Model for Line {
    ghost use Rattle.std.specs.Prelude.{List, ℤ};
    ghost use Rattle.frac_row.specs.Lines.{numbers_of};

    ghost Value = { List ℤ };

    ghost view = { λ line. numbers_of line.layout };
}

impl Line {
    ghost use Rattle.frac_row.specs.Lines.{numbers_of};

    /// A line of these numbers, which `into_layout` gives back. Takes no memory.
    pub fn from_vec(numbers: Vec<i128>) -> Line
        ensures { result ≡ numbers.items }
    {
        Line {
            layout: Layout::Full(numbers),
        }
    }

    /// A line of the numbers of a row. Takes no memory.
    pub fn from_row(row: SparseRow) -> Line
        ensures { result ≡ row.numbers }
    {
        Line {
            layout: Layout::Sparse(row),
        }
    }

    /// What the line was made of. Takes no memory.
    pub fn into_layout(self) -> Layout
        ensures { numbers_of result ≡ self }
    {
        self.layout
    }

    /// How many numbers there are.
    pub fn len(&self) -> usize
        ensures { result ≡ length self.now }
    {
        match &self.layout {
            Layout::Full(numbers) => numbers.len(),
            Layout::Sparse(row) => row.width() as usize,
        }
    }

    /// The number in a column.
    pub fn number(&self, column: u32) -> i128
        requires { column < length self.now }
        ensures { result ≡ slice_index_or self.now column (pos 0) }
    {
        match &self.layout {
            Layout::Full(numbers) => numbers[column as usize],
            Layout::Sparse(row) => row.number(column),
        }
    }

    /// The numbers one after another, by rising columns. Some that are 0 may be left out.
    pub fn numbers(&self) -> Numbers<'_>
        requires { length self.now < 2 ^ 32 }
        ensures rising { AreRising 0 (length self.now) result }
        ensures numbers { (column : ℕ) → number_in result column ≡ slice_index_or self.now column (pos 0) }
    {
        match &self.layout {
            Layout::Full(numbers) => Numbers::of_slice(numbers.as_slice()),
            Layout::Sparse(row) => Numbers::of_entries(row.entries()),
        }
    }
}
