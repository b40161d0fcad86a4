use crate::basis::Basis;
use crate::entering::{COST_TOLERANCE, LEAST_PIVOT};
use crate::workspace::Workspace;
use basis_factors::fixed_numbers::{Fixed, Item, PART_BITS, Scalar, at, put};
use entries::NoMemory;

/// 10^-4: the least weight of a row.
pub const LEAST_WEIGHT: i128 = 107_374;

const MOST_WEIGHT: i128 = 1 << 62;

// Quotients of the column count at most so much.
const MOST_TIMES: i64 = 1 << 46;

/// A pivot: the line whose column leaves, the column that enters, and its number there.
#[derive(Clone, Copy)]
pub struct Pivot {
    pub line: u32,
    pub column: u32,
    pub number: Fixed,
}

impl Workspace {
    /// Whether the pivot is large enough, and as large by the row as by the column.
    pub fn is_stable(&self, pivot: Pivot) -> bool {
        if pivot.number.parts.unsigned_abs() <= LEAST_PIVOT as u64 {
            return false;
        }
        let by_row = self.in_row(pivot.column).parts;
        let gap = by_row.wrapping_sub(pivot.number.parts).unsigned_abs();
        gap <= (by_row.unsigned_abs() >> 14).wrapping_add(1 << 16)
    }

    // The number of the row in a column.
    fn in_row(&self, column: u32) -> Fixed {
        for item in self.met() {
            if item.place == column {
                return item.number;
            }
        }
        Fixed::ZERO
    }
}

impl Basis {
    /// Brings the costs to what they are after a pivot of the dual run. Those that would fall below 0 are moved.
    pub(crate) fn change_costs(&mut self, space: &Workspace, pivot: Pivot) -> Result<(), NoMemory> {
        let own = at(&self.above, pivot.column as usize, Fixed::ZERO);
        if own.parts < 0 {
            self.move_cost(pivot.column, own.opposite())?;
        }
        let least = Fixed {
            parts: own.parts.max(0),
        };
        let times = least.over(space.in_row(pivot.column));
        for item in space.met() {
            self.change_cost(item, times)?;
        }
        let above = self.above.as_mut_slice();
        put(above, pivot.column as usize, Fixed::ZERO);
        let leaves = at(&self.head, pivot.line as usize, 0) as usize;
        put(above, leaves, times.opposite());
        Ok(())
    }

    // Takes the row's number so many times from a column's cost, which is moved where it would fall below 0.
    #[inline(always)]
    fn change_cost(&mut self, item: &Item<Fixed>, times: Fixed) -> Result<(), NoMemory> {
        let column = item.place as usize;
        let old = at(&self.above, column, Fixed::ZERO);
        let new = old.minus(times.times(item.number));
        if new.parts >= -COST_TOLERANCE {
            put(self.above.as_mut_slice(), column, new);
            return Ok(());
        }
        put(self.above.as_mut_slice(), column, Fixed::ZERO);
        self.move_cost(item.place, new.opposite())
    }

    fn move_cost(&mut self, column: u32, more: Fixed) -> Result<(), NoMemory> {
        let cost = at(&self.costs, column as usize, Fixed::ZERO);
        put(self.costs.as_mut_slice(), column as usize, cost.plus(more));
        self.moved.push(column)?;
        Ok(())
    }

    /// Brings the point and the weights to what they are after a pivot, by the weight of its row.
    pub(crate) fn change_rows(&mut self, space: &Workspace, pivot: Pivot, own: Fixed) {
        let line = pivot.line as usize;
        let step = at(&self.point, line, Fixed::ZERO).over(pivot.number);
        let inverse = Fixed::ONE.over(pivot.number);
        let point = self.point.as_mut_slice();
        let weights = self.weights.as_mut_slice();
        for place in 0..point.len() {
            let number = at(&space.column, place, Fixed::ZERO);
            if !number.is_zero() {
                point[place] = point[place].minus(step.times(number));
                let times = number.times(inverse);
                let cross = at(&space.crosses, place, Fixed::ZERO);
                let weight = at(weights, place, Fixed::ONE);
                put(weights, place, changed(weight, times, cross, own));
            }
        }
        put(point, line, step);
        let square = own.over(pivot.number).over(pivot.number);
        put(weights, line, clamped(i128::from(square.parts)));
    }

    /// Lets the column in.
    pub(crate) fn let_in(&mut self, space: &Workspace, pivot: Pivot) -> Result<(), NoMemory> {
        let line = pivot.line as usize;
        let leaves = at(&self.head, line, 0);
        put(self.head.as_mut_slice(), line, pivot.column);
        put(self.is_tight.as_mut_slice(), line, false);
        self.exchange(pivot.column, leaves);
        self.factors.replace(pivot.line, &space.column)?;
        self.is_fresh = false;
        self.made = self.made.wrapping_add(1);
        let passed = space
            .row
            .len()
            .wrapping_add(space.column.len().wrapping_mul(6));
        let passed = passed.wrapping_add(self.factors.len());
        self.work = self.work.wrapping_add(passed as u64);
        Ok(())
    }
}

// A weight less so many times twice what its row and the pivot's have in common, and more as often as that is squared the pivot's own.
// With 62 bits of both and 46 of the times a product has 108 bits, and shifted and less 63 bits, times 46, it has 125.
#[inline(always)]
fn changed(weight: Fixed, times: Fixed, cross: Fixed, own: Fixed) -> Fixed {
    let times = i128::from(times.parts.clamp(-MOST_TIMES, MOST_TIMES));
    let squared = times
        .wrapping_mul(i128::from(own.parts))
        .wrapping_shr(PART_BITS);
    let twice = i128::from(cross.parts).wrapping_mul(2);
    let more = squared
        .wrapping_sub(twice)
        .wrapping_mul(times)
        .wrapping_shr(PART_BITS);
    clamped(i128::from(weight.parts).wrapping_add(more))
}

#[inline(always)]
fn clamped(weight: i128) -> Fixed {
    Fixed::narrowed(weight.clamp(LEAST_WEIGHT, MOST_WEIGHT))
}
