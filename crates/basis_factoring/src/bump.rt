use crate::factoring::{Entry, Factoring};
use basis_factors::fixed_numbers::{Item, NONE, Scalar, Units, at, place_of, put};
use basis_factors::{Factors, take_one};
use entries::NoMemory;

// How many columns are looked at for a pivot, where one has been found.
const MOST_LOOKED: u32 = 4;

// A pivot is at least this part of the greatest number of its column.
const THRESHOLD: u64 = 10;

// A pivot, and how many numbers it may add at most.
#[derive(Clone, Copy)]
struct Candidate<S> {
    pivot: Entry<S>,
    merit: u64,
}

impl<S: Scalar> Factoring<S> {
    /// Gives the columns that are left their pivots, each time the one that adds fewest numbers, as far as it was looked (Markowitz
    /// 1957).
    pub(crate) fn take_bump(
        &mut self,
        columns: &Units,
        head: &[u32],
        factors: &mut Factors<S>,
    ) -> Result<(), NoMemory> {
        self.begin_bump(columns, head)?;
        for _turn in 0..head.len() {
            let Some(best) = self.best_pivot(head.len())? else {
                return Ok(());
            };
            self.eliminate(best.pivot, factors)?;
        }
        Ok(())
    }

    // Lays the open columns by lines.
    fn begin_bump(&mut self, columns: &Units, head: &[u32]) -> Result<(), NoMemory> {
        self.queue.begin(head.len())?;
        self.rows.begin(&self.open.line_counts)?;
        for place in (0..head.len()).rev() {
            let column = place_of(place);
            if self.open.is_column_open(column) {
                self.begin_column(columns, head[place], column)?;
            }
        }
        Ok(())
    }

    fn begin_column(&mut self, columns: &Units, name: u32, column: u32) -> Result<(), NoMemory> {
        let mut count = 0u32;
        for unit in columns.of(name) {
            if self.open.is_line_open(unit.place) {
                self.rows.push(unit.place, column, S::of(unit.number))?;
                count = count.wrapping_add(1);
            } else {
                self.push_upper(unit.place, column, S::of(unit.number))?;
            }
        }
        put(
            self.open.column_counts.as_mut_slice(),
            column as usize,
            count,
        );
        self.queue.link(column, count);
        Ok(())
    }

    // The best pivot of the columns of fewest lines.
    fn best_pivot(&mut self, most: usize) -> Result<Option<Candidate<S>>, NoMemory> {
        let mut best = None;
        let mut looked = 0u32;
        for count in 1..most.wrapping_add(1) {
            let others = (count as u64).wrapping_sub(1);
            let mut column = self.queue.first(count);
            for _turn in 0..most {
                if column == NONE {
                    break;
                }
                best = self.better_pivot(best, column, others)?;
                looked = looked.wrapping_add(1);
                if is_enough(&best, looked, others) {
                    return Ok(best);
                }
                column = self.queue.next(column);
            }
        }
        Ok(best)
    }

    // The better one of the best pivot so far and of a column's own.
    fn better_pivot(
        &mut self,
        best: Option<Candidate<S>>,
        column: u32,
        others: u64,
    ) -> Result<Option<Candidate<S>>, NoMemory> {
        self.rows.find(column, &self.open, &mut self.found)?;
        let least = greatest(&self.found) / THRESHOLD;
        let mut better = best;
        for item in &self.found {
            let worth = item.number.worth();
            let len = u64::from(self.rows.len(item.place));
            let merit = len.wrapping_sub(1).wrapping_mul(others);
            if worth > 0 && worth >= least && is_less(merit, &better) {
                let pivot = Entry {
                    line: item.place,
                    column,
                    number: item.number,
                };
                better = Some(Candidate { pivot, merit });
            }
        }
        Ok(better)
    }

    // Takes the pivot's line from the other lines of its column.
    fn eliminate(&mut self, pivot: Entry<S>, factors: &mut Factors<S>) -> Result<(), NoMemory> {
        self.pick(pivot.line, pivot.column, pivot.number)?;
        self.rows.find(pivot.column, &self.open, &mut self.found)?;
        self.take_row(pivot)?;
        self.rows.mark(&self.row);
        for item in &self.found {
            let times = item.number.over(pivot.number);
            factors.lower.push(item.place, times)?;
            let counts = self.open.column_counts.as_mut_slice();
            self.rows
                .take(item.place, pivot.column, &self.row, times, counts)?;
        }
        self.rows.unmark(&self.row);
        for item in &self.row {
            let count = at(&self.open.column_counts, item.place as usize, 0);
            self.queue.link(item.place, count);
        }
        factors.lower.end(pivot.line, pivot.number)
    }

    // Takes the pivot's line out, with its column and all that it meets.
    fn take_row(&mut self, pivot: Entry<S>) -> Result<(), NoMemory> {
        self.row.clear();
        for item in self.rows.of(pivot.line) {
            let count = at(&self.open.column_counts, item.place as usize, 0);
            self.queue.unlink(item.place, count);
            if item.place != pivot.column {
                take_one(self.open.column_counts.as_mut_slice(), item.place);
                self.row.push(*item)?;
                self.upper.push(Entry {
                    line: pivot.line,
                    column: item.place,
                    number: item.number,
                })?;
            }
        }
        Ok(())
    }
}

// The greatest worth of a column's numbers.
fn greatest<S: Scalar>(found: &[Item<S>]) -> u64 {
    let mut greatest = 0u64;
    for item in found {
        greatest = greatest.max(item.number.worth());
    }
    greatest
}

// Whether a pivot adds fewer numbers than the best so far.
fn is_less<S: Scalar>(merit: u64, best: &Option<Candidate<S>>) -> bool {
    match best {
        Some(best) => merit < best.merit,
        None => true,
    }
}

// Whether no more columns are to be looked at.
fn is_enough<S: Scalar>(best: &Option<Candidate<S>>, looked: u32, others: u64) -> bool {
    match best {
        Some(best) => looked >= MOST_LOOKED || best.merit <= others.wrapping_mul(others),
        None => false,
    }
}
