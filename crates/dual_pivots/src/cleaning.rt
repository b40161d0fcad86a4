use crate::basis::Basis;
use crate::changing::Pivot;
use crate::dual_run::Turn;
use crate::entering::{COST_TOLERANCE, LEAST_PIVOT};
use crate::leaving::POINT_TOLERANCE;
use crate::limits::{Ended, Limits};
use crate::lines::Lines;
use crate::workspace::Workspace;
use basis_factors::fixed_numbers::{Fixed, NONE, Scalar, at, place_of, put};
use entries::NoMemory;

// How many pivots may be made, and after how many a column counts as clean that costs a little less than it weighs.
const MOST_PIVOTS: u64 = 300;

const MANY_PIVOTS: u64 = 100;

// After so many pivots without a step the first column enters.
const MOST_WAITS: u64 = 200;

impl Basis {
    /// Puts moved costs back, and pivots columns in that cost less than they weigh then, from a point that is as it ought to be. What
    /// isn't clean after some hundred pivots counts as best.
    pub fn clean(
        &mut self,
        lines: &Lines,
        space: &mut Workspace,
        limits: Limits,
    ) -> Result<Ended, NoMemory> {
        if self.moved.is_empty() {
            return Ok(Ended::Best);
        }
        self.forget_moves(lines);
        self.make_costs(lines)?;
        let first = self.made;
        let last = first.saturating_add(limits.steps.min(MOST_PIVOTS));
        let mut stepped = first;
        for _turn in 0..MOST_PIVOTS * 3 + 64 {
            if self.made >= last {
                return Ok(Ended::Best);
            }
            let spent = self.made.wrapping_sub(first);
            let waited = self.made.wrapping_sub(stepped);
            let column = self.cheap_column(spent, waited);
            match self.primal_turn(lines, space, limits, column)? {
                Turn::Pivoted if space.has_stepped => stepped = self.made,
                Turn::Pivoted | Turn::Renewed => {}
                Turn::Ended(ended) => return Ok(ended),
            }
        }
        Ok(Ended::Best)
    }

    /// Puts moved costs back.
    pub(crate) fn forget_moves(&mut self, lines: &Lines) {
        for column in &self.moved {
            let cost = lines.scaled_cost(*column);
            put(self.costs.as_mut_slice(), *column as usize, cost);
        }
        self.moved.clear();
    }

    // The column that costs least above what it weighs, where that is below 0, or the first of these after many turns without a step.
    fn cheap_column(&self, spent: u64, waited: u64) -> u32 {
        let mut least = if spent < MANY_PIVOTS {
            -COST_TOLERANCE
        } else {
            COST_TOLERANCE * -4
        };
        let mut best = NONE;
        for column in 0..self.above.len() {
            let above = self.above[column].parts;
            if above < least && at(&self.is_free, column, false) {
                least = above;
                best = place_of(column);
                if waited > MOST_WAITS {
                    return best;
                }
            }
        }
        best
    }

    fn primal_turn(
        &mut self,
        lines: &Lines,
        space: &mut Workspace,
        limits: Limits,
        column: u32,
    ) -> Result<Turn, NoMemory> {
        if limits.may_renew && self.is_renewal_due() {
            return self.again(lines);
        }
        if column == NONE {
            return self.believed(lines, limits, Ended::Best);
        }
        space.take_column(lines, self, column);
        let line = self.primal_line(space);
        if line == NONE {
            return Ok(Turn::Ended(Ended::Failed));
        }
        space.take_row(lines, self, line);
        let number = at(&space.column, line as usize, Fixed::ZERO);
        let pivot = Pivot {
            line,
            column,
            number,
        };
        if !space.is_stable(pivot) {
            return self.unstable(lines, limits);
        }
        self.take_costs(space, pivot);
        self.step_in(space, pivot)?;
        Ok(Turn::Pivoted)
    }

    // The line whose column leaves where a column enters: of those that come to 0 first, as far as the point may be wrong, the one with
    // the greatest number.
    fn primal_line(&self, space: &Workspace) -> u32 {
        let mut bound = Reach { far: 1, size: 0 };
        for line in 0..self.point.len() {
            let size = self.primal_size(space, line);
            if size > LEAST_PIVOT {
                let far = self.far(line).wrapping_add(POINT_TOLERANCE);
                let next = Reach { far, size };
                if next.is_less(bound) {
                    bound = next;
                }
            }
        }
        self.greatest_within(space, bound)
    }

    // The line of the greatest number among those that are reached as soon as that.
    fn greatest_within(&self, space: &Workspace, bound: Reach) -> u32 {
        let mut best = NONE;
        let mut greatest = LEAST_PIVOT;
        for line in 0..self.point.len() {
            let size = self.primal_size(space, line);
            if size > greatest {
                let far = self.far(line);
                if !bound.is_less(Reach { far, size }) {
                    best = place_of(line);
                    greatest = size;
                }
            }
        }
        best
    }

    // How fast a basic column comes down; one that is held may go neither way.
    #[inline(always)]
    fn primal_size(&self, space: &Workspace, line: usize) -> i64 {
        let number = at(&space.column, line, Fixed::ZERO).parts;
        if number < 0 && at(&self.is_tight, line, false) {
            number.wrapping_neg()
        } else {
            number
        }
    }

    // How far a basic column may come down.
    #[inline(always)]
    fn far(&self, line: usize) -> i64 {
        if at(&self.is_tight, line, false) {
            0
        } else {
            at(&self.point, line, Fixed::ZERO).parts.max(0)
        }
    }

    // Brings the costs to what they are after a pivot.
    fn take_costs(&mut self, space: &Workspace, pivot: Pivot) {
        let own = at(&self.above, pivot.column as usize, Fixed::ZERO);
        let times = own.over(pivot.number);
        for item in space.met() {
            let column = item.place as usize;
            let above = at(&self.above, column, Fixed::ZERO);
            let new = above.minus(times.times(item.number));
            put(self.above.as_mut_slice(), column, new);
        }
        let above = self.above.as_mut_slice();
        put(above, pivot.column as usize, Fixed::ZERO);
        let leaves = at(&self.head, pivot.line as usize, 0) as usize;
        put(above, leaves, times.opposite());
    }

    /// Brings the point to what it is after a pivot by which a column comes up, and lets the column in.
    pub(crate) fn step_in(&mut self, space: &mut Workspace, pivot: Pivot) -> Result<(), NoMemory> {
        let line = pivot.line as usize;
        let far = Fixed {
            parts: self.far(line),
        };
        let step = far.over(pivot.number);
        space.has_stepped = step.parts > POINT_TOLERANCE;
        let point = self.point.as_mut_slice();
        for place in 0..point.len() {
            let number = at(&space.column, place, Fixed::ZERO);
            point[place] = point[place].minus(step.times(number));
        }
        put(point, line, step);
        put(self.weights.as_mut_slice(), line, Fixed::ONE);
        self.let_in(space, pivot)
    }
}

// How far a column may come down, and how fast it does.
#[derive(Clone, Copy)]
pub(crate) struct Reach {
    pub far: i64,
    pub size: i64,
}

impl Reach {
    // Exact: products have 126 bits.
    #[inline(always)]
    pub(crate) fn is_less(self, other: Reach) -> bool {
        let first = i128::from(self.far).wrapping_mul(i128::from(other.size));
        let second = i128::from(other.far).wrapping_mul(i128::from(self.size));
        first < second
    }
}
