use crate::basis::Basis;
use crate::lines::{Lines, Quad};
use crate::workspace::Workspace;
use basis_factors::fixed_numbers::{
    Fixed, Item, PART_BITS, Scalar, Unit, Units, at, fill, place_of, put,
};

/// What a column weighs by multipliers of the lines, behind which stands 0.
#[inline(always)]
pub(crate) fn weighed(quad: &Quad, multipliers: &[Fixed]) -> Fixed {
    let first = part(quad.first, multipliers).plus(part(quad.second, multipliers));
    let second = part(quad.third, multipliers).plus(part(quad.fourth, multipliers));
    first.plus(second)
}

#[inline(always)]
fn part(unit: Unit, multipliers: &[Fixed]) -> Fixed {
    at(multipliers, unit.place as usize, Fixed::ZERO).by(unit.number)
}

impl Workspace {
    /// Takes the row of a line: its multipliers, and what it has in the columns that may enter.
    pub fn take_row(&mut self, lines: &Lines, basis: &Basis, line: u32) {
        fill(self.multipliers.as_mut_slice(), Fixed::ZERO);
        put(self.multipliers.as_mut_slice(), line as usize, Fixed::ONE);
        basis
            .factors
            .backward_of(self.multipliers.as_mut_slice(), line);
        if self.is_sparse() {
            let count = self.sum_up(&lines.across);
            self.gather(count, &basis.is_free);
        } else {
            self.price(&lines.quads, &basis.free);
        }
    }

    // Whether few lines have a multiplier.
    fn is_sparse(&self) -> bool {
        let mut count = 0usize;
        for number in &self.multipliers {
            count = count.wrapping_add(usize::from(!number.is_zero()));
        }
        count < self.multipliers.len() / 3
    }

    // Sums up what the multipliers weigh in the columns of their lines, and answers how many columns were touched.
    fn sum_up(&mut self, across: &Units) -> usize {
        let mut count = 0usize;
        for line in 0..self.multipliers.len() {
            let times = self.multipliers[line];
            if !times.is_zero() {
                for unit in across.of(place_of(line)) {
                    let column = unit.place as usize;
                    let sum = at(&self.sums, column, Fixed::ZERO);
                    let sum = sum.plus(times.by(unit.number));
                    put(self.sums.as_mut_slice(), column, sum);
                    put(self.touched.as_mut_slice(), count, unit.place);
                    let is_new = !at(&self.is_touched, column, true);
                    count = count.wrapping_add(usize::from(is_new));
                    put(self.is_touched.as_mut_slice(), column, true);
                }
            }
        }
        count
    }

    // Takes the sums of the columns that were touched and may enter, and makes all sums 0 again.
    fn gather(&mut self, count: usize, is_free: &[bool]) {
        let mut met = 0usize;
        for place in 0..count {
            let column = at(&self.touched, place, 0);
            let number = at(&self.sums, column as usize, Fixed::ZERO);
            put(self.sums.as_mut_slice(), column as usize, Fixed::ZERO);
            put(self.is_touched.as_mut_slice(), column as usize, false);
            let item = Item {
                place: column,
                number,
            };
            put(self.row.as_mut_slice(), met, item);
            let is_met = !number.is_zero() && at(is_free, column as usize, false);
            met = met.wrapping_add(usize::from(is_met));
        }
        self.met = met;
    }

    // Weighs columns. The next place is written again where one isn't met, so that nothing hangs on a test.
    fn price(&mut self, quads: &[Quad], free: &[u32]) {
        let row = self.row.as_mut_slice();
        let mut met = 0usize;
        for column in free {
            let place = *column as usize;
            if place < quads.len() {
                let number = weighed(&quads[place], &self.multipliers);
                let item = Item {
                    place: *column,
                    number,
                };
                put(row, met, item);
                met = met.wrapping_add(usize::from(!number.is_zero()));
            }
        }
        self.met = met;
    }

    /// The columns that were met.
    #[inline(always)]
    pub fn met(&self) -> &[Item<Fixed>] {
        if self.met <= self.row.len() {
            &self.row[0..self.met]
        } else {
            &[]
        }
    }

    /// Takes a column.
    pub fn take_column(&mut self, lines: &Lines, basis: &Basis, column: u32) {
        let numbers = self.column.as_mut_slice();
        fill(numbers, Fixed::ZERO);
        for unit in lines.columns.of(column) {
            put(numbers, unit.place as usize, Fixed::of(unit.number));
        }
        basis.factors.forward(numbers);
    }

    /// Takes the multipliers as a column, and answers the sum of their squares.
    pub fn take_crosses(&mut self, basis: &Basis) -> Fixed {
        let mut sum = 0i128;
        let crosses = self.crosses.as_mut_slice();
        for place in 0..crosses.len() {
            let number = at(&self.multipliers, place, Fixed::ZERO);
            crosses[place] = number;
            // A square has 126 bits, and shifted 96, so many of them as there are lines 112.
            let wide = i128::from(number.parts);
            sum = sum.wrapping_add(wide.wrapping_mul(wide).wrapping_shr(PART_BITS));
        }
        basis.factors.forward(crosses);
        Fixed {
            parts: i64::try_from(sum.clamp(1, 1 << 62)).unwrap_or(1),
        }
    }
}
