use crate::basis::Basis;
use basis_factors::fixed_numbers::{Fixed, PART_BITS, at};

/// 10^-5: how far a column may be from where it ought to be.
pub const POINT_TOLERANCE: i64 = 10_737;

/// A row whose column leaves.
#[derive(Clone, Copy)]
pub struct Leaving {
    pub line: u32,
    /// Whether the column comes down.
    pub up: bool,
}

// The square of how far a column is from where it ought to be, and the weight of its row.
#[derive(Clone, Copy)]
struct Distance {
    square: i128,
    weight: i128,
}

impl Basis {
    /// The row whose column leaves: the one that is farthest from where it ought to be, by the square over the weight; at a tie the
    /// first. None where all are near.
    pub fn leaving(&self) -> Option<Leaving> {
        let mut best = Distance {
            square: 0,
            weight: 1,
        };
        let mut leaving = None;
        for line in 0..self.point.len() {
            let number = self.point[line];
            if self.is_out(line, number) {
                let next = self.distance(line, number);
                // 62 bits each, so a product has 124.
                if next.square.wrapping_mul(best.weight) > best.square.wrapping_mul(next.weight) {
                    best = next;
                    leaving = Some(Leaving {
                        line: basis_factors::fixed_numbers::place_of(line),
                        up: number.parts > 0,
                    });
                }
            }
        }
        leaving
    }

    // Whether a basic column isn't where it ought to be.
    #[inline(always)]
    fn is_out(&self, line: usize, number: Fixed) -> bool {
        number.parts < -POINT_TOLERANCE
            || number.parts > POINT_TOLERANCE && at(&self.is_tight, line, false)
    }

    #[inline(always)]
    fn distance(&self, line: usize, number: Fixed) -> Distance {
        let wide = i128::from(number.parts);
        let square = wide.wrapping_mul(wide).wrapping_shr(PART_BITS);
        Distance {
            square: square.clamp(1, 1 << 62),
            weight: i128::from(at(&self.weights, line, Fixed::ONE).parts),
        }
    }
}
