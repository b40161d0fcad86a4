use crate::limits::Limits;
use crate::lines::Lines;
use basis_factoring::Factoring;
use basis_factors::Factors;
use basis_factors::fixed_numbers::{Fixed, NONE, at, place_of, put};
use entries::NoMemory;
use std::alloc::Global;

/// A basis, with all that goes on from pivot to pivot.
#[derive(Drop)]
pub struct Basis {
    /// Which columns are held at 0: all artificial ones, and real ones that may not be taken.
    pub held: Vec<bool>,
    /// The basic column of each line.
    pub head: Vec<u32>,
    /// Which real columns may enter: those that are neither basic nor held.
    pub is_free: Vec<bool>,
    /// The columns that may enter, of which one that entered is `NONE` where a held one left.
    pub free: Vec<u32>,
    /// Of each column that may enter its place among them.
    places: Vec<u32>,
    /// In which lines the basic column is held.
    pub is_tight: Vec<bool>,
    /// What the basic columns come to.
    pub point: Vec<Fixed>,
    /// The weights of the rows: the sums of the squares of their multipliers.
    pub weights: Vec<Fixed>,
    /// What the columns cost, as far as that was moved.
    pub costs: Vec<Fixed>,
    /// How much more real columns cost than they weigh.
    pub above: Vec<Fixed>,
    /// Columns whose costs were moved.
    pub moved: Vec<u32>,
    /// The dual values of the lines when costs were last made anew, and 0 behind them.
    pub duals: Vec<Fixed>,
    /// The weights by columns, while a basis is factored.
    pub(crate) by_column: Vec<Fixed>,
    pub factors: Factors<Fixed>,
    pub(crate) factoring: Factoring<Fixed>,
    /// How many pivots were made.
    pub made: u64,
    /// How much work was done: numbers that pivots passed over.
    pub work: u64,
    /// How many pivots were unstable.
    pub(crate) fails: u32,
    /// How often the basis was factored.
    pub(crate) factorings: u64,
    /// How many numbers the factors had when they were made.
    pub(crate) fresh_len: usize,
    /// Whether nothing was changed since the basis was factored.
    pub(crate) is_fresh: bool,
}

impl Basis {
    /// One of no lines.
    pub fn new(alloc: Global) -> Basis {
        Basis {
            held: Vec::new(alloc),
            head: Vec::new(alloc),
            is_free: Vec::new(alloc),
            free: Vec::new(alloc),
            places: Vec::new(alloc),
            is_tight: Vec::new(alloc),
            point: Vec::new(alloc),
            weights: Vec::new(alloc),
            costs: Vec::new(alloc),
            above: Vec::new(alloc),
            moved: Vec::new(alloc),
            duals: Vec::new(alloc),
            by_column: Vec::new(alloc),
            factors: Factors::new(alloc),
            factoring: Factoring::new(alloc),
            made: 0,
            work: 0,
            fails: 0,
            factorings: 0,
            fresh_len: 0,
            is_fresh: false,
        }
    }

    /// Begins a new one with artificial columns alone, where no real column is held.
    pub fn begin(&mut self, lines: &Lines) -> Result<(), NoMemory> {
        let real = lines.column_count();
        let count = lines.count();
        self.held.resize(real, false)?;
        self.held.resize(real.wrapping_add(count), true)?;
        self.is_free.resize(real, true)?;
        self.places.resize(real, NONE)?;
        self.is_tight.resize(count, true)?;
        self.point.resize(count, Fixed::ZERO)?;
        self.weights.resize(count, Fixed::ONE)?;
        self.costs.extend_from_slice(&lines.scaled)?;
        self.costs.resize(real.wrapping_add(count), Fixed::ZERO)?;
        self.above.resize(real, Fixed::ZERO)?;
        for line in 0..count {
            self.head.push(lines.artificial(line))?;
        }
        Ok(())
    }

    /// Takes the columns of a basis by lines, with the weights of their rows, and factors it, by the costs as they are. Answers whether
    /// that could be done.
    pub fn lay(
        &mut self,
        lines: &Lines,
        head: &[u32],
        weights: &[Fixed],
    ) -> Result<bool, NoMemory> {
        self.forget_moves(lines);
        self.fails = 0;
        self.head.clear();
        self.head.extend_from_slice(head)?;
        self.weights.clear();
        self.weights.extend_from_slice(weights)?;
        self.renew(lines)
    }

    /// What the point costs, in parts.
    pub fn value(&self, lines: &Lines) -> i128 {
        let mut value = 0i128;
        for line in 0..self.head.len() {
            let cost = at(&lines.costs, self.head[line] as usize, 0);
            // A cost has 41 bits, a number of the point 63.
            let part = i128::from(at(&self.point, line, Fixed::ZERO).parts);
            value = value.wrapping_add(cost.wrapping_mul(part));
        }
        value
    }

    /// Whether the value has come to the cut-off.
    pub(crate) fn is_cut(&self, lines: &Lines, limits: Limits) -> bool {
        match limits.cutoff {
            Some(cutoff) => self.value(lines) >= cutoff,
            None => false,
        }
    }

    /// Puts down which columns may enter, and in which lines a held one stands.
    pub fn note_basic(&mut self) -> Result<(), NoMemory> {
        let free = self.is_free.as_mut_slice();
        for column in 0..free.len() {
            free[column] = !at(&self.held, column, true);
        }
        for line in 0..self.head.len() {
            let column = self.head[line] as usize;
            put(self.is_free.as_mut_slice(), column, false);
            let held = at(&self.held, column, true);
            put(self.is_tight.as_mut_slice(), line, held);
        }
        self.free.clear();
        for column in 0..self.is_free.len() {
            if self.is_free[column] {
                put(
                    self.places.as_mut_slice(),
                    column,
                    place_of(self.free.len()),
                );
                self.free.push(place_of(column))?;
            }
        }
        Ok(())
    }

    /// Puts down that a column is basic, and that another isn't any more.
    pub(crate) fn exchange(&mut self, enters: u32, leaves: u32) {
        let is_free = !at(&self.held, leaves as usize, true);
        put(self.is_free.as_mut_slice(), enters as usize, false);
        put(self.is_free.as_mut_slice(), leaves as usize, is_free);
        let place = at(&self.places, enters as usize, NONE);
        let other = if is_free { leaves } else { NONE };
        put(self.free.as_mut_slice(), place as usize, other);
        put(self.places.as_mut_slice(), leaves as usize, place);
    }
}
