use crate::basis::Basis;
use crate::workspace::Workspace;
use basis_factors::fixed_numbers::{Fixed, Item, NONE, at};

/// 10^-6: how much less a column may cost than it weighs.
pub const COST_TOLERANCE: i64 = 1_074;

/// 10^-4: the least size of a pivot.
pub const LEAST_PIVOT: i64 = 107_374;

// A quotient, whose divisor is above 0.
#[derive(Clone, Copy)]
struct Quotient {
    number: i64,
    divisor: i64,
}

impl Quotient {
    // Exact: products have 126 bits.
    #[inline(always)]
    fn is_less(self, other: Quotient) -> bool {
        let first = i128::from(self.number).wrapping_mul(i128::from(other.divisor));
        let second = i128::from(other.number).wrapping_mul(i128::from(self.divisor));
        first < second
    }
}

// A column that enters, and its number with the sign that counts.
#[derive(Clone, Copy)]
struct Entering {
    column: u32,
    size: i64,
}

impl Basis {
    /// The number of the column that enters by the row, or `NONE` where none may: of those whose costs are met first, as far as these
    /// may be wrong, the one with the greatest number (Harris 1973), at a tie the first.
    pub fn entering(&self, space: &Workspace, up: bool) -> u32 {
        let Some(bound) = self.bound(space, up) else {
            return NONE;
        };
        let mut best = Entering {
            column: NONE,
            size: 0,
        };
        for item in space.met() {
            let size = counted(item, up);
            if size > LEAST_PIVOT && size > best.size {
                let quotient = self.quotient(item.place, size, 0);
                if !bound.is_less(quotient) {
                    best = Entering {
                        column: item.place,
                        size,
                    };
                }
            }
        }
        best.column
    }

    // The least quotient, where columns may cost a little less than they weigh.
    fn bound(&self, space: &Workspace, up: bool) -> Option<Quotient> {
        let mut best = None;
        for item in space.met() {
            let size = counted(item, up);
            if size > LEAST_PIVOT {
                let next = self.quotient(item.place, size, COST_TOLERANCE);
                best = lesser(best, next);
            }
        }
        best
    }

    #[inline(always)]
    fn quotient(&self, column: u32, divisor: i64, more: i64) -> Quotient {
        let above = at(&self.above, column as usize, Fixed::ZERO).parts;
        Quotient {
            number: above.wrapping_add(more).max(0),
            divisor,
        }
    }
}

#[inline(always)]
fn lesser(best: Option<Quotient>, next: Quotient) -> Option<Quotient> {
    match best {
        Some(other) => {
            if next.is_less(other) {
                Some(next)
            } else {
                best
            }
        }
        None => Some(next),
    }
}

// The number of a column, above 0 where it may enter.
#[inline(always)]
fn counted(item: &Item<Fixed>, up: bool) -> i64 {
    if up {
        item.number.parts
    } else {
        item.number.parts.wrapping_neg()
    }
}
