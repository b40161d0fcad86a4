use crate::fixed_numbers::scalar::Scalar;

/// A prime number of 61 bits.
pub const MODULUS: u64 = (1 << 61) - 1;

/// What a whole number leaves when it is divided by the modulus.
#[derive(Clone, Copy)]
pub struct Residue {
    pub rest: u64,
}

impl Residue {
    /// That of a product of two residues, or of their sum.
    #[inline(always)]
    fn reduced(number: u128) -> Residue {
        let low = (number & u128::from(MODULUS)) as u64;
        let high = (number.wrapping_shr(61) & u128::from(MODULUS)) as u64;
        let sum = low.wrapping_add(high);
        Residue {
            rest: if sum >= MODULUS {
                sum.wrapping_sub(MODULUS)
            } else {
                sum
            },
        }
    }

    /// That of a whole number of any sign.
    pub fn of_wide(number: i128) -> Residue {
        let rest = number.rem_euclid(i128::from(MODULUS));
        Residue {
            rest: (rest & 0x7fff_ffff_ffff_ffff) as u64,
        }
    }

    // The power whose exponent is the modulus less 2. All bits of it but the second are set.
    fn inverse(self) -> Residue {
        let mut power = Residue { rest: 1 };
        for bit in 0..61 {
            power = power.times(power);
            if bit != 59 {
                power = power.times(self);
            }
        }
        power
    }
}

impl Scalar for Residue {
    #[inline(always)]
    fn of(number: i32) -> Self {
        let size = u64::from(number.unsigned_abs());
        Residue {
            rest: if number < 0 {
                MODULUS.wrapping_sub(size)
            } else {
                size
            },
        }
    }

    #[inline(always)]
    fn plus(self, other: Self) -> Self {
        let sum = self.rest.wrapping_add(other.rest);
        Residue {
            rest: if sum >= MODULUS {
                sum.wrapping_sub(MODULUS)
            } else {
                sum
            },
        }
    }

    #[inline(always)]
    fn minus(self, other: Self) -> Self {
        Residue {
            rest: if self.rest >= other.rest {
                self.rest.wrapping_sub(other.rest)
            } else {
                self.rest.wrapping_add(MODULUS).wrapping_sub(other.rest)
            },
        }
    }

    // A product has 122 bits.
    #[inline(always)]
    fn times(self, other: Self) -> Self {
        Residue::reduced(u128::from(self.rest).wrapping_mul(u128::from(other.rest)))
    }

    fn over(self, divisor: Self) -> Self {
        if divisor.rest == 1 {
            return self;
        }
        if divisor.rest == MODULUS - 1 {
            return Residue { rest: 0 }.minus(self);
        }
        self.times(divisor.inverse())
    }

    #[inline(always)]
    fn is_zero(self) -> bool {
        self.rest == 0
    }

    #[inline(always)]
    fn is_tiny(self) -> bool {
        self.rest == 0
    }

    #[inline(always)]
    fn worth(self) -> u64 {
        u64::from(self.rest != 0)
    }
}
