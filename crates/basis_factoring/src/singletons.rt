use crate::factoring::Factoring;
use basis_factors::fixed_numbers::{NONE, Scalar, Units, at, place_of, put};
use basis_factors::{Factors, add, take_one};
use entries::NoMemory;

impl<S: Scalar> Factoring<S> {
    /// Gives each column with one open line its pivot there, as long as there is one.
    pub(crate) fn take_single_columns(
        &mut self,
        columns: &Units,
        head: &[u32],
    ) -> Result<(), NoMemory> {
        self.stack.clear();
        for place in 0..head.len() {
            if at(&self.open.column_counts, place, 0) == 1 {
                self.stack.push(place_of(place))?;
            }
        }
        for _turn in 0..u64::MAX {
            let Some(column) = self.stack.pop() else {
                return Ok(());
            };
            self.take_single_column(columns, head, column)?;
        }
        Ok(())
    }

    // A column with one open line. Its other lines have pivots.
    fn take_single_column(
        &mut self,
        columns: &Units,
        head: &[u32],
        column: u32,
    ) -> Result<(), NoMemory> {
        if at(&self.open.column_counts, column as usize, 0) != 1
            || !self.open.is_column_open(column)
        {
            return Ok(());
        }
        let mut line = NONE;
        let mut pivot = 0i32;
        for unit in columns.of(at(head, column as usize, NONE)) {
            if self.open.is_line_open(unit.place) {
                line = unit.place;
                pivot = unit.number;
            } else {
                self.push_upper(unit.place, column, S::of(unit.number))?;
            }
        }
        self.pick(line, column, S::of(pivot))?;
        self.leave_line(line)
    }

    // Counts a line less in its open columns, and remembers those that have one left.
    fn leave_line(&mut self, line: u32) -> Result<(), NoMemory> {
        for place in 0..self.open.met(line).len() {
            let column = at(self.open.met(line), place, NONE);
            if self.open.is_column_open(column)
                && take_one(self.open.column_counts.as_mut_slice(), column) == 1
            {
                self.stack.push(column)?;
            }
        }
        Ok(())
    }

    /// Gives each line with one open column its pivot there, as long as there is one.
    pub(crate) fn take_single_lines(
        &mut self,
        columns: &Units,
        head: &[u32],
        factors: &mut Factors<S>,
    ) -> Result<(), NoMemory> {
        self.count_lines(columns, head);
        self.stack.clear();
        for place in 0..head.len() {
            if at(&self.open.line_counts, place, 0) == 1 {
                self.stack.push(place_of(place))?;
            }
        }
        for _turn in 0..u64::MAX {
            let Some(line) = self.stack.pop() else {
                return Ok(());
            };
            self.take_single_line(columns, head, factors, line)?;
        }
        Ok(())
    }

    // Counts the open columns of open lines.
    fn count_lines(&mut self, columns: &Units, head: &[u32]) {
        for count in self.open.line_counts.iter_mut() {
            *count = 0;
        }
        for place in 0..head.len() {
            if self.open.is_column_open(place_of(place)) {
                for unit in columns.of(head[place]) {
                    if self.open.is_line_open(unit.place) {
                        add(self.open.line_counts.as_mut_slice(), unit.place);
                    }
                }
            }
        }
    }

    // A line with one open column, which is taken from the other lines of that.
    fn take_single_line(
        &mut self,
        columns: &Units,
        head: &[u32],
        factors: &mut Factors<S>,
        line: u32,
    ) -> Result<(), NoMemory> {
        if at(&self.open.line_counts, line as usize, 0) != 1 || !self.open.is_line_open(line) {
            return Ok(());
        }
        let column = self.open_column(line);
        let name = at(head, column as usize, NONE);
        let pivot = S::of(number_in(columns, name, line));
        self.pick(line, column, pivot)?;
        for unit in columns.of(name) {
            if self.open.is_line_open(unit.place) {
                factors
                    .lower
                    .push(unit.place, S::of(unit.number).over(pivot))?;
                if take_one(self.open.line_counts.as_mut_slice(), unit.place) == 1 {
                    self.stack.push(unit.place)?;
                }
            } else if unit.place != line {
                self.push_upper(unit.place, column, S::of(unit.number))?;
            }
        }
        factors.lower.end(line, pivot)
    }

    // The open column of a line.
    fn open_column(&self, line: u32) -> u32 {
        for column in self.open.met(line) {
            if self.open.is_column_open(*column) {
                return *column;
            }
        }
        NONE
    }
}

// The number of a column in a line.
fn number_in(columns: &Units, column: u32, line: u32) -> i32 {
    for unit in columns.of(column) {
        if unit.place == line {
            return unit.number;
        }
    }
    0
}
