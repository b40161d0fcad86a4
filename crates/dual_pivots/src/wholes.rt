use crate::basis::Basis;
use crate::changing::Pivot;
use crate::cleaning::Reach;
use crate::dual_run::MOST_WORK;
use crate::entering::{COST_TOLERANCE, LEAST_PIVOT};
use crate::leaving::POINT_TOLERANCE;
use crate::lines::Lines;
use crate::workspace::Workspace;
use basis_factors::fixed_numbers::{Fixed, NONE, Scalar, at, place_of};
use entries::NoMemory;

// How often all columns are tried.
const MOST_PASSES: u64 = 10;

impl Basis {
    /// Pivots among ends of equal cost, each of which makes more columns come to whole numbers, so that fewer pairs are flown in part. At
    /// most so many pivots are made in all.
    pub fn make_whole(
        &mut self,
        lines: &Lines,
        space: &mut Workspace,
        steps: u64,
    ) -> Result<(), NoMemory> {
        for _pass in 0..MOST_PASSES {
            let before = self.made;
            if self.is_whole() || !self.pass(lines, space, steps)? || self.made == before {
                return Ok(());
            }
        }
        Ok(())
    }

    // Whether all basic columns come to whole numbers.
    fn is_whole(&self) -> bool {
        for number in &self.point {
            if !is_whole(*number) {
                return false;
            }
        }
        true
    }

    // Tries each column once that costs what it weighs, and answers whether more may be tried.
    fn pass(&mut self, lines: &Lines, space: &mut Workspace, steps: u64) -> Result<bool, NoMemory> {
        for column in 0..self.above.len() {
            let above = at(&self.above, column, Fixed::ONE).parts.unsigned_abs();
            if above <= COST_TOLERANCE as u64 && at(&self.is_free, column, false) {
                if self.made >= steps || self.work >= MOST_WORK {
                    return Ok(false);
                }
                if !self.try_column(lines, space, place_of(column))? {
                    return Ok(false);
                }
            }
        }
        Ok(true)
    }

    // Lets a column in where more columns come to whole numbers then. Answers whether the basis could be factored anew where that was
    // due.
    fn try_column(
        &mut self,
        lines: &Lines,
        space: &mut Workspace,
        column: u32,
    ) -> Result<bool, NoMemory> {
        space.take_column(lines, self, column);
        self.work = self.work.wrapping_add(self.factors.len() as u64);
        let line = self.nearest_line(space);
        let number = at(&space.column, line as usize, Fixed::ZERO);
        let pivot = Pivot {
            line,
            column,
            number,
        };
        if line != NONE && self.is_gain(space, pivot) {
            self.step_in(space, pivot)?;
            if self.is_renewal_due() {
                return self.renew(lines);
            }
        }
        Ok(true)
    }

    // The line whose column comes to 0 first where a column enters, and `NONE` where one is there at once or none comes.
    fn nearest_line(&self, space: &Workspace) -> u32 {
        let mut best = NONE;
        let mut nearest = Reach { far: 1, size: 0 };
        for line in 0..self.point.len() {
            let size = at(&space.column, line, Fixed::ZERO).parts;
            if size > LEAST_PIVOT {
                let far = self.point[line].parts;
                if far <= POINT_TOLERANCE {
                    return NONE;
                }
                let next = Reach { far, size };
                if next.is_less(nearest) {
                    nearest = next;
                    best = place_of(line);
                }
            }
        }
        best
    }

    // Whether a pivot steps, touches no held column, and leaves more columns at whole numbers.
    fn is_gain(&self, space: &Workspace, pivot: Pivot) -> bool {
        let step = at(&self.point, pivot.line as usize, Fixed::ZERO).over(pivot.number);
        if step.parts <= POINT_TOLERANCE {
            return false;
        }
        let mut gain = 0i64;
        for line in 0..self.point.len() {
            let number = at(&space.column, line, Fixed::ZERO);
            if !number.is_zero() {
                if at(&self.is_tight, line, false) {
                    return false;
                }
                let new = if line == pivot.line as usize {
                    step
                } else {
                    self.point[line].minus(step.times(number))
                };
                gain = gain.wrapping_add(i64::from(is_whole(new)));
                gain = gain.wrapping_sub(i64::from(is_whole(self.point[line])));
            }
        }
        gain > 0
    }
}

// Whether a number is whole, as far as it may be wrong.
#[inline(always)]
fn is_whole(number: Fixed) -> bool {
    let rest = number.parts.wrapping_add(POINT_TOLERANCE) & 0x3fff_ffff;
    rest <= POINT_TOLERANCE * 2
}
