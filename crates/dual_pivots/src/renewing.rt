use crate::basis::Basis;
use crate::lines::Lines;
use crate::row::weighed;
use basis_factors::fixed_numbers::{Fixed, NONE, PART_BITS, Scalar, at, fill, put};
use entries::NoMemory;

// How often artificial columns may come in for those that have no pivot.
const MOST_REPAIRS: u32 = 5;

// After so many pivots the basis is factored anew, or where their columns have so many numbers for each line.
const MOST_CHANGES: usize = 64;

const MOST_NUMBERS: usize = 4;

impl Basis {
    /// Whether so many columns came, or so large ones, that the basis should be factored anew.
    pub(crate) fn is_renewal_due(&self) -> bool {
        let came = self.factors.len().wrapping_sub(self.fresh_len);
        self.factors.change_count() >= MOST_CHANGES
            || came > self.head.len().wrapping_mul(MOST_NUMBERS)
    }

    /// Factors the basis anew, with point and costs. Where columns have no pivot, artificial ones stand in. Answers whether it is a basis
    /// then.
    pub fn renew(&mut self, lines: &Lines) -> Result<bool, NoMemory> {
        self.spread_weights(lines)?;
        for _turn in 0..MOST_REPAIRS {
            let head = self.head.as_mut_slice();
            let lost = self
                .factoring
                .factor(&lines.columns, head, &mut self.factors)?;
            self.lay_artificial(lines);
            self.fresh_len = self.factors.len();
            self.factorings = self.factorings.wrapping_add(1);
            if lost == 0 {
                self.gather_weights();
                self.settle(lines)?;
                return Ok(true);
            }
            fill(self.by_column.as_mut_slice(), Fixed::ONE);
        }
        Ok(false)
    }

    // Lays artificial columns in the lines that have none.
    fn lay_artificial(&mut self, lines: &Lines) {
        let head = self.head.as_mut_slice();
        for line in 0..head.len() {
            if head[line] == NONE {
                head[line] = lines.artificial(line);
            }
        }
    }

    // Lays the weights of the rows by their columns.
    fn spread_weights(&mut self, lines: &Lines) -> Result<(), NoMemory> {
        let count = lines.column_count().wrapping_add(lines.count());
        self.by_column.resize(count, Fixed::ONE)?;
        for line in 0..self.head.len() {
            let column = self.head[line] as usize;
            let weight = at(&self.weights, line, Fixed::ONE);
            put(self.by_column.as_mut_slice(), column, weight);
        }
        Ok(())
    }

    // Lays the weights of the rows as their columns have them.
    fn gather_weights(&mut self) {
        for line in 0..self.head.len() {
            let column = self.head[line] as usize;
            let weight = at(&self.by_column, column, Fixed::ONE);
            put(self.weights.as_mut_slice(), line, weight);
        }
    }

    // Makes the point and the costs anew.
    fn settle(&mut self, lines: &Lines) -> Result<(), NoMemory> {
        self.note_basic()?;
        self.make_point(lines);
        self.make_costs(lines)?;
        self.is_fresh = true;
        Ok(())
    }

    fn make_point(&mut self, lines: &Lines) {
        for line in 0..self.point.len() {
            let right = at(&lines.right, line, 0);
            let number = Fixed::narrowed(i128::from(right) << PART_BITS);
            put(self.point.as_mut_slice(), line, number);
        }
        self.factors.forward(self.point.as_mut_slice());
    }

    /// Makes anew by how much columns cost more than they weigh.
    pub(crate) fn make_costs(&mut self, lines: &Lines) -> Result<(), NoMemory> {
        self.duals.clear();
        for column in &self.head {
            let cost = at(&self.costs, *column as usize, Fixed::ZERO);
            self.duals.push(cost)?;
        }
        self.factors.backward(self.duals.as_mut_slice());
        self.duals.push(Fixed::ZERO)?;
        for column in 0..self.above.len() {
            let above = if at(&self.is_free, column, false) && column < lines.quads.len() {
                let weight = weighed(&lines.quads[column], &self.duals);
                at(&self.costs, column, Fixed::ZERO).minus(weight)
            } else {
                Fixed::ZERO
            };
            put(self.above.as_mut_slice(), column, above);
        }
        Ok(())
    }
}
