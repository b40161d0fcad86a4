ghost use Rattle.std.specs.Prelude.{◌≡◌, ◌<◌, IfOk};

use entries::{Entries, NoMemory};
use std::alloc::Global;

/// Whole numbers over one positive number.
#[derive(Drop)]
pub struct FracRow {
    /// The numerators, column by column.
    pub numbers: Entries<i128>,
    /// The denominator of all of them.
    pub den: i128,
}

impl FracRow {
    ghost use Rattle.frac_row.specs.Row.{number_of, width_of};

    /// The number in a column.
    #[inline]
    pub fn number(&self, column: u32) -> i128
        requires { column < width_of self.now }
        ensures { result ≡ number_of self.now column }
    {
        self.numbers.as_slice()[column as usize]
    }

    /// A second row with the same numbers.
    pub fn copy(&self, alloc: Global) -> Result<FracRow, NoMemory>
        ensures { IfOk result (λ row. row ≡ self.now) }
    {
        let numbers = Vec::from_slice(alloc, self.numbers.as_slice())?;
        Ok(FracRow {
            numbers: Entries::from_vec(numbers),
            den: self.den,
        })
    }
}
