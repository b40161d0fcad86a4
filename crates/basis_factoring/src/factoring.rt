use basis_factors::fixed_numbers::{Item, NONE, Scalar, Units, at, put};
use basis_factors::{Factors, Open, Queue, Rows};
use entries::NoMemory;
use std::alloc::Global;

/// A pivot, or a number of the upper triangle.
#[derive(Clone, Copy)]
pub struct Entry<S> {
    pub line: u32,
    pub column: u32,
    pub number: S,
}

/// What a basis is factored in: who has no pivot yet, and the pivots and numbers of the upper triangle so far.
#[derive(Drop)]
pub struct Factoring<S> {
    pub(crate) open: Open,
    pub(crate) stack: Vec<u32>,
    pub(crate) pivots: Vec<Entry<S>>,
    pub(crate) upper: Vec<Entry<S>>,
    pub(crate) rows: Rows<S>,
    pub(crate) queue: Queue,
    /// The numbers of a column in open lines.
    pub(crate) found: Vec<Item<S>>,
    /// The numbers of the pivot's line in other open columns.
    pub(crate) row: Vec<Item<S>>,
    /// Of each line the number of its pivot.
    pub(crate) steps: Vec<u32>,
    /// Where the items of steps end.
    pub(crate) ends: Vec<u32>,
    old: Vec<u32>,
}

impl<S: Scalar> Factoring<S> {
    pub fn new(alloc: Global) -> Factoring<S> {
        Factoring {
            open: Open::new(alloc),
            stack: Vec::new(alloc),
            pivots: Vec::new(alloc),
            upper: Vec::new(alloc),
            rows: Rows::new(alloc),
            queue: Queue::new(alloc),
            found: Vec::new(alloc),
            row: Vec::new(alloc),
            steps: Vec::new(alloc),
            ends: Vec::new(alloc),
            old: Vec::new(alloc),
        }
    }

    /// Factors a basis, and orders its columns by the lines of their pivots. Answers how many have none: then `NONE` stands in the lines
    /// that are left, and the factors are those of no basis.
    pub fn factor(
        &mut self,
        columns: &Units,
        head: &mut [u32],
        factors: &mut Factors<S>,
    ) -> Result<usize, NoMemory> {
        factors.clear();
        self.pivots.clear();
        self.upper.clear();
        self.open.begin(columns, head)?;
        self.take_single_columns(columns, head)?;
        self.take_single_lines(columns, head, factors)?;
        self.take_bump(columns, head, factors)?;
        self.lay(factors, head.len())?;
        self.old.clear();
        self.old.extend_from_slice(head)?;
        Ok(self.order(head))
    }

    // Orders the columns by the lines of their pivots, and answers how many lines have none.
    fn order(&self, head: &mut [u32]) -> usize {
        let mut lost = 0usize;
        for line in 0..head.len() {
            let place = at(&self.open.columns, line, NONE);
            if place == NONE {
                lost = lost.wrapping_add(1);
            }
            put(head, line, at(&self.old, place as usize, NONE));
        }
        lost
    }

    /// Makes a pivot of a column's number in a line.
    pub(crate) fn pick(&mut self, line: u32, column: u32, number: S) -> Result<(), NoMemory> {
        self.open.close(line, column);
        self.pivots.push(Entry {
            line,
            column,
            number,
        })?;
        Ok(())
    }

    /// Puts a number to the upper triangle.
    #[inline(always)]
    pub(crate) fn push_upper(&mut self, line: u32, column: u32, number: S) -> Result<(), NoMemory> {
        self.upper.push(Entry {
            line,
            column,
            number,
        })?;
        Ok(())
    }
}
