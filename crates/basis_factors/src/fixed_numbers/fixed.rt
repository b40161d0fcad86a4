use crate::fixed_numbers::scalar::Scalar;

/// How many bits stand behind the point.
pub const PART_BITS: u32 = 30;

const WHOLE: i64 = 1 << PART_BITS;

const HALF: i128 = 1 << 29;

// Numbers up to this size count as 0 in factors.
const TINY: u64 = 8;

/// A number in parts of 2^30.
#[derive(Clone, Copy)]
pub struct Fixed {
    pub parts: i64,
}

impl Fixed {
    pub const ZERO: Fixed = Fixed { parts: 0 };

    pub const ONE: Fixed = Fixed { parts: WHOLE };

    /// The number of so many parts, or 0 where they are too many.
    #[inline(always)]
    pub fn narrowed(parts: i128) -> Fixed {
        match i64::try_from(parts) {
            Ok(parts) => Fixed { parts },
            Err(_) => Fixed::ZERO,
        }
    }

    #[inline(always)]
    pub fn opposite(self) -> Fixed {
        Fixed {
            parts: self.parts.wrapping_neg(),
        }
    }

    /// The number times a whole one.
    #[inline(always)]
    pub fn by(self, number: i32) -> Fixed {
        Fixed {
            parts: self.parts.wrapping_mul(i64::from(number)),
        }
    }
}

impl Scalar for Fixed {
    #[inline(always)]
    fn of(number: i32) -> Self {
        Fixed {
            parts: i64::from(number) << PART_BITS,
        }
    }

    #[inline(always)]
    fn plus(self, other: Self) -> Self {
        Fixed {
            parts: self.parts.wrapping_add(other.parts),
        }
    }

    #[inline(always)]
    fn minus(self, other: Self) -> Self {
        Fixed {
            parts: self.parts.wrapping_sub(other.parts),
        }
    }

    // The product of two numbers of 64 bits has 127 at most.
    #[inline(always)]
    fn times(self, other: Self) -> Self {
        let product = i128::from(self.parts).wrapping_mul(i128::from(other.parts));
        Fixed::narrowed(product.wrapping_add(HALF).wrapping_shr(PART_BITS))
    }

    // A number of 32 bits has 62 when it is shifted, and one of 64 has 94.
    #[inline(always)]
    fn over(self, divisor: Self) -> Self {
        if divisor.parts == WHOLE {
            return self;
        }
        if divisor.parts == -WHOLE {
            return self.opposite();
        }
        if self.parts.unsigned_abs() < 1 << 32 {
            let parts = self.parts.wrapping_shl(PART_BITS);
            return Fixed {
                parts: parts.checked_div(divisor.parts).unwrap_or(0),
            };
        }
        let parts = i128::from(self.parts).wrapping_shl(PART_BITS);
        let quotient = parts.checked_div(i128::from(divisor.parts)).unwrap_or(0);
        Fixed::narrowed(quotient)
    }

    #[inline(always)]
    fn is_zero(self) -> bool {
        self.parts == 0
    }

    #[inline(always)]
    fn is_tiny(self) -> bool {
        self.parts.unsigned_abs() <= TINY
    }

    #[inline(always)]
    fn worth(self) -> u64 {
        self.parts.unsigned_abs()
    }
}
