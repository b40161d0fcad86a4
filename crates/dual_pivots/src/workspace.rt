use basis_factors::fixed_numbers::{Fixed, Item, reset};
use entries::NoMemory;
use std::alloc::Global;

/// What a pivot reckons with, and the next one writes anew.
#[derive(Drop)]
pub struct Workspace {
    /// By how much each line is in the row of what leaves; behind the last line stands 0.
    pub multipliers: Vec<Fixed>,
    /// What the row has in columns that may enter: as many as were met.
    pub row: Vec<Item<Fixed>>,
    pub met: usize,
    /// What multipliers weigh in each column, while a row is taken, which columns were touched, and whether a column was.
    pub sums: Vec<Fixed>,
    pub touched: Vec<u32>,
    pub is_touched: Vec<bool>,
    /// What the column that enters has in each row.
    pub column: Vec<Fixed>,
    /// The multipliers as a column.
    pub crosses: Vec<Fixed>,
    /// Whether the last column that came in came up.
    pub has_stepped: bool,
}

impl Workspace {
    /// One for no lines.
    pub fn new(alloc: Global) -> Workspace {
        Workspace {
            multipliers: Vec::new(alloc),
            row: Vec::new(alloc),
            met: 0,
            sums: Vec::new(alloc),
            touched: Vec::new(alloc),
            is_touched: Vec::new(alloc),
            column: Vec::new(alloc),
            crosses: Vec::new(alloc),
            has_stepped: false,
        }
    }

    /// Makes room for so many lines and columns.
    pub fn begin(&mut self, lines: usize, columns: usize) -> Result<(), NoMemory> {
        let none = Item {
            place: 0,
            number: Fixed::ZERO,
        };
        reset(&mut self.multipliers, lines.wrapping_add(1), Fixed::ZERO)?;
        reset(&mut self.row, columns.wrapping_add(1), none)?;
        reset(&mut self.sums, columns, Fixed::ZERO)?;
        reset(&mut self.touched, columns, 0)?;
        reset(&mut self.is_touched, columns, false)?;
        reset(&mut self.column, lines, Fixed::ZERO)?;
        reset(&mut self.crosses, lines, Fixed::ZERO)
    }
}
