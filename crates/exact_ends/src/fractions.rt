use basis_factors::fixed_numbers::{MODULUS, at};
use entries::NoMemory;
use std::alloc::Global;

/// Whole numbers over one denominator.
#[derive(Drop)]
pub struct Ratios {
    pub numbers: Vec<i128>,
    pub den: i128,
}

/// How fractions are found again from what they leave: the modulus, and how large numerators and denominators may be. Twice the
/// product of both is less than the modulus.
#[derive(Clone, Copy)]
pub struct Frame {
    modulus: i128,
    most_number: i128,
    most_den: i128,
}

impl Frame {
    /// By the modulus of residues.
    pub fn single() -> Frame {
        Frame {
            modulus: i128::from(MODULUS),
            most_number: 1 << 38,
            most_den: 1 << 20,
        }
    }

    /// By its square.
    pub fn double() -> Frame {
        Frame {
            modulus: i128::from(MODULUS).wrapping_mul(i128::from(MODULUS)),
            most_number: 1 << 78,
            most_den: 1 << 40,
        }
    }

    /// The fractions that leave these numbers, all over one denominator (Wang 1981): a number and how often the modulus of residues is
    /// added to it. None where one is too large.
    pub fn fractions(
        self,
        alloc: Global,
        low: &[u64],
        high: &[u64],
    ) -> Result<Option<Ratios>, NoMemory> {
        let mut den = 1i128;
        for place in 0..low.len() {
            let rest = self.multiple(low[place], at(high, place, 0), den);
            if rest.unsigned_abs() > self.most_number.unsigned_abs() {
                den = den.wrapping_mul(self.divisor(rest));
            }
            if den < 1 || den > self.most_den {
                return Ok(None);
            }
        }
        let mut numbers = Vec::new(alloc);
        for place in 0..low.len() {
            numbers.push(self.multiple(low[place], at(high, place, 0), den))?;
        }
        Ok(Some(lowest(Ratios { numbers, den })))
    }

    // A number so many times, less a multiple of the modulus, so that it is near 0. The first product has 101 bits, the second 102.
    fn multiple(self, low: u64, high: u64, times: i128) -> i128 {
        let prime = i128::from(MODULUS);
        let first = i128::from(low).wrapping_mul(times);
        let mut rest = first.rem_euclid(prime);
        if self.modulus != prime {
            let carry = first.div_euclid(prime);
            let second = i128::from(high).wrapping_mul(times).wrapping_add(carry);
            rest = rest.wrapping_add(second.rem_euclid(prime).wrapping_mul(prime));
        }
        if rest > self.modulus / 2 {
            rest = rest.wrapping_sub(self.modulus);
        }
        rest
    }

    // By what a number is to be multiplied so that it comes near 0 (Euclid's algorithm).
    fn divisor(self, number: i128) -> i128 {
        let mut greater = self.modulus;
        let mut less = number;
        let mut before = 0i128;
        let mut factor = 1i128;
        for _turn in 0..180 {
            if less.unsigned_abs() <= self.most_number.unsigned_abs() {
                break;
            }
            let quotient = greater.checked_div(less).unwrap_or(0);
            let rest = greater.wrapping_sub(quotient.wrapping_mul(less));
            greater = less;
            less = rest;
            let next = before.wrapping_sub(quotient.wrapping_mul(factor));
            before = factor;
            factor = next;
        }
        if factor < 0 {
            factor.wrapping_neg()
        } else {
            factor
        }
    }
}

// The same ratios in lowest terms.
fn lowest(ratios: Ratios) -> Ratios {
    let Ratios { mut numbers, den } = ratios;
    let mut divisor = den;
    for number in &numbers {
        if divisor != 1 {
            divisor = common_divisor(divisor, *number);
        }
    }
    if divisor != 1 {
        for number in numbers.iter_mut() {
            *number = number.checked_div(divisor).unwrap_or(0);
        }
    }
    Ratios {
        numbers,
        den: den.checked_div(divisor).unwrap_or(1),
    }
}

// The greatest number that divides both.
fn common_divisor(first: i128, second: i128) -> i128 {
    let mut greater = first;
    let mut less = second;
    // Two divisions halve the greater one at least.
    for _turn in 0..256 {
        if less == 0 {
            break;
        }
        let rest = greater.checked_rem(less).unwrap_or(0);
        greater = less;
        less = rest;
    }
    if greater < 0 {
        greater.wrapping_neg()
    } else {
        greater
    }
}
