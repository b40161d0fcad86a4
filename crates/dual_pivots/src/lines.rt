use basis_factors::fixed_numbers::{Fixed, PART_BITS, Unit, Units, at, place_of};
use entries::NoMemory;
use frac_row::Line;
use std::alloc::Global;

// The greatest cost is at most so many when it is scaled.
const MOST_COST: u128 = 16_384;

// How many numbers a line may have.
const MOST_NUMBERS: usize = 0x7fff_ffff;

/// The units of a real column, of which none is behind the last line.
#[derive(Clone, Copy)]
pub struct Quad {
    pub first: Unit,
    pub second: Unit,
    pub third: Unit,
    pub fourth: Unit,
}

/// Lines by their columns, and what these cost: the real columns, and behind them the artificial one of each line, which is 1 there.
#[derive(Drop)]
pub struct Lines {
    pub columns: Units,
    /// The real columns by their four units.
    pub quads: Vec<Quad>,
    /// The lines by their real columns.
    pub across: Units,
    /// The right sides.
    pub right: Vec<i32>,
    /// What the real columns cost.
    pub costs: Vec<i128>,
    /// The same over a power of 2.
    pub scaled: Vec<Fixed>,
    /// Of which power.
    pub shift: u32,
}

impl Lines {
    /// Those of lines whose numbers fit, and of which no column has more than four.
    pub fn new(
        alloc: Global,
        columns: u32,
        lines: &[Line],
        costs: &[i128],
    ) -> Result<Option<Lines>, NoMemory> {
        let none = Units::new(alloc);
        Lines::with_more(alloc, columns, lines, costs, &none, 0)
    }

    /// The same with so many columns more, which cost nothing: these are their units, by lines.
    pub fn with_more(
        alloc: Global,
        columns: u32,
        lines: &[Line],
        costs: &[i128],
        more: &Units,
        count: u32,
    ) -> Result<Option<Lines>, NoMemory> {
        let mut made = Lines {
            columns: Units::new(alloc),
            quads: Vec::new(alloc),
            across: Units::new(alloc),
            right: Vec::new(alloc),
            costs: Vec::new(alloc),
            scaled: Vec::new(alloc),
            shift: 0,
        };
        let fit = made.lay(columns, lines, costs, more, count)?;
        Ok(if fit { Some(made) } else { None })
    }

    // Lays all lines and columns, and answers whether their numbers fit.
    fn lay(
        &mut self,
        columns: u32,
        lines: &[Line],
        costs: &[i128],
        more: &Units,
        count: u32,
    ) -> Result<bool, NoMemory> {
        if !self.lay_lines(columns, lines, more)? {
            return Ok(false);
        }
        self.lay_columns(columns.wrapping_add(count), costs)
    }

    // Lays all lines, and answers whether their numbers fit.
    fn lay_lines(&mut self, columns: u32, lines: &[Line], more: &Units) -> Result<bool, NoMemory> {
        for place in 0..lines.len() {
            if !self.push_numbers(&lines[place], columns)? {
                return Ok(false);
            }
            for unit in more.of(place_of(place)) {
                self.across.push(unit.place, unit.number)?;
            }
            self.across.end()?;
        }
        Ok(true)
    }

    // Puts the numbers of a line behind the units so far, and its right side. Answers whether all of them fit.
    fn push_numbers(&mut self, line: &Line, columns: u32) -> Result<bool, NoMemory> {
        if line.len() > MOST_NUMBERS {
            return Ok(false);
        }
        let mut right = 0i32;
        let mut left = line.numbers();
        for _number in 0..line.len() {
            let Some(entry) = left.next() else {
                break;
            };
            let Ok(number) = i32::try_from(entry.number) else {
                return Ok(false);
            };
            if entry.column == columns {
                right = number;
            } else if number != 0 {
                self.across.push(entry.column, number)?;
            }
        }
        self.right.push(right)?;
        Ok(true)
    }

    // Lays columns and costs, and answers whether all columns have few enough numbers.
    fn lay_columns(&mut self, columns: u32, costs: &[i128]) -> Result<bool, NoMemory> {
        self.columns.turn(&self.across, columns as usize)?;
        let shift = shift_of(costs);
        self.shift = shift;
        for column in 0..columns {
            let units = self.columns.of(column);
            if units.len() > 4 {
                return Ok(false);
            }
            self.quads.push(quad_of(units, place_of(self.right.len())))?;
            let cost = at(costs, column as usize, 0);
            self.costs.push(cost)?;
            self.scaled.push(scaled(cost, shift))?;
        }
        for line in 0..self.right.len() {
            self.columns.push(place_of(line), 1)?;
            self.columns.end()?;
        }
        Ok(true)
    }

    /// How many lines there are.
    #[inline(always)]
    pub fn count(&self) -> usize {
        self.right.len()
    }

    /// How many real columns there are.
    #[inline(always)]
    pub fn column_count(&self) -> usize {
        self.quads.len()
    }

    /// The artificial column of a line.
    #[inline(always)]
    pub fn artificial(&self, line: usize) -> u32 {
        place_of(self.quads.len().wrapping_add(line))
    }

    /// What a column costs, and nothing where it is artificial.
    #[inline(always)]
    pub fn scaled_cost(&self, column: u32) -> Fixed {
        at(&self.scaled, column as usize, Fixed::ZERO)
    }
}

// Four units, of which those that are missing stand behind all lines.
fn quad_of(units: &[Unit], none: u32) -> Quad {
    let missing = Unit {
        place: none,
        number: 0,
    };
    Quad {
        first: at(units, 0, missing),
        second: at(units, 1, missing),
        third: at(units, 2, missing),
        fourth: at(units, 3, missing),
    }
}

// By how many bits costs are scaled.
fn shift_of(costs: &[i128]) -> u32 {
    let mut greatest = 0u128;
    for cost in costs {
        greatest = greatest.max(cost.unsigned_abs());
    }
    let mut shift = 0u32;
    for _bit in 0..128 {
        if greatest > MOST_COST {
            greatest = greatest.wrapping_shr(1);
            shift = shift.wrapping_add(1);
        }
    }
    shift
}

// A cost over a power of 2, to the nearest part.
fn scaled(cost: i128, shift: u32) -> Fixed {
    if shift <= PART_BITS {
        return Fixed::narrowed(cost.wrapping_shl(PART_BITS.wrapping_sub(shift)));
    }
    let more = shift.wrapping_sub(PART_BITS);
    let half = 1i128.wrapping_shl(more.wrapping_sub(1));
    Fixed::narrowed(cost.wrapping_add(half).wrapping_shr(more))
}
