use crate::fixed_numbers::{NONE, Units, at, place_of, put, reset};
use entries::NoMemory;
use std::alloc::Global;

/// Which lines and columns of a basis have no pivot yet, and how they meet. Columns go by their places in the basis.
#[derive(Drop)]
pub struct Open {
    // Where the columns of each line end, and these.
    ends: Vec<u32>,
    met: Vec<u32>,
    /// How many open columns a line has.
    pub line_counts: Vec<u32>,
    /// How many open lines a column has.
    pub column_counts: Vec<u32>,
    /// Of each line the column whose pivot it has, or `NONE`.
    pub columns: Vec<u32>,
    /// Of each column the line of its pivot, or `NONE`.
    pub lines: Vec<u32>,
}

impl Open {
    pub fn new(alloc: Global) -> Open {
        Open {
            ends: Vec::new(alloc),
            met: Vec::new(alloc),
            line_counts: Vec::new(alloc),
            column_counts: Vec::new(alloc),
            columns: Vec::new(alloc),
            lines: Vec::new(alloc),
        }
    }

    /// Begins with the columns of a basis, which are all open.
    pub fn begin(&mut self, columns: &Units, head: &[u32]) -> Result<(), NoMemory> {
        let count = head.len();
        reset(&mut self.ends, count, 0)?;
        reset(&mut self.column_counts, count, 0)?;
        reset(&mut self.columns, count, NONE)?;
        reset(&mut self.lines, count, NONE)?;
        let all = self.count(columns, head);
        reset(&mut self.met, all, 0)?;
        reset(&mut self.line_counts, count, 0)?;
        self.lay(columns, head);
        Ok(())
    }

    // Counts the units of columns and lines, and answers how many units there are.
    fn count(&mut self, columns: &Units, head: &[u32]) -> usize {
        for place in 0..head.len() {
            let units = columns.of(head[place]);
            put(
                self.column_counts.as_mut_slice(),
                place,
                place_of(units.len()),
            );
            for unit in units {
                add(self.ends.as_mut_slice(), unit.place);
            }
        }
        let mut sum = 0u32;
        for end in self.ends.iter_mut() {
            let count = *end;
            *end = sum;
            sum = sum.wrapping_add(count);
        }
        sum as usize
    }

    // Lays the columns of each line.
    fn lay(&mut self, columns: &Units, head: &[u32]) {
        for place in 0..head.len() {
            for unit in columns.of(head[place]) {
                let line = unit.place as usize;
                let end = at(&self.ends, line, 0);
                put(self.met.as_mut_slice(), end as usize, place_of(place));
                put(self.ends.as_mut_slice(), line, end.wrapping_add(1));
                add(self.line_counts.as_mut_slice(), unit.place);
            }
        }
    }

    /// The columns that a line has, open or not.
    #[inline(always)]
    pub fn met(&self, line: u32) -> &[u32] {
        let place = line as usize;
        let end = at(&self.ends, place, 0) as usize;
        let start = if place == 0 {
            0
        } else {
            at(&self.ends, place.wrapping_sub(1), 0) as usize
        };
        if start <= end && end <= self.met.len() {
            &self.met[start..end]
        } else {
            &[]
        }
    }

    #[inline(always)]
    pub fn is_line_open(&self, line: u32) -> bool {
        at(&self.columns, line as usize, 0) == NONE
    }

    #[inline(always)]
    pub fn is_column_open(&self, column: u32) -> bool {
        at(&self.lines, column as usize, 0) == NONE
    }

    /// Gives a column its pivot in a line.
    pub fn close(&mut self, line: u32, column: u32) {
        put(self.columns.as_mut_slice(), line as usize, column);
        put(self.lines.as_mut_slice(), column as usize, line);
    }
}

/// Counts one more.
#[inline(always)]
pub fn add(counts: &mut [u32], place: u32) {
    let count = at(counts, place as usize, 0);
    put(counts, place as usize, count.wrapping_add(1));
}

/// Counts one less, and answers how many are left.
#[inline(always)]
pub fn take_one(counts: &mut [u32], place: u32) -> u32 {
    let count = at(counts, place as usize, 1).wrapping_sub(1);
    put(counts, place as usize, count);
    count
}
