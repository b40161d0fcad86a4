//! By how much pairs raised what a subproblem costs when it was split by them (pseudo costs: Bénichou and others 1971).
use basis_factors::fixed_numbers::{PART_BITS, at, put};
use entries::NoMemory;
use std::alloc::Global;

/// So many parts of a unit are reckoned with.
pub const GAIN_BITS: u32 = 10;

// A thousandth: a part that is nearer to a whole number counts as this far.
const LEAST_DISTANCE: i128 = 1_073_742;

// How often a pair was tried both ways whose gains are known.
const KNOWN: i128 = 2;

// Gains for each unit of distance: their sum, and how many they are.
#[derive(Clone, Copy)]
struct Sum {
    gain: i128,
    count: i128,
}

impl Sum {
    const NONE: Sum = Sum { gain: 0, count: 0 };

    fn with(self, gain: i128) -> Sum {
        Sum {
            gain: self.gain.wrapping_add(gain),
            count: self.count.wrapping_add(1),
        }
    }

    // The mean of these, or else of those of all pairs, or else a unit.
    fn mean(self, all: Sum) -> i128 {
        if self.count > 0 {
            self.gain.checked_div(self.count).unwrap_or(0)
        } else if all.count > 0 {
            all.gain.checked_div(all.count).unwrap_or(0)
        } else {
            1 << GAIN_BITS
        }
    }
}

/// What is known of pairs, by their columns: of parts in which the leg takes the pair, and of those in which it doesn't.
#[derive(Drop)]
pub struct Gains {
    yes: Vec<Sum>,
    no: Vec<Sum>,
    all_yes: Sum,
    all_no: Sum,
}

impl Gains {
    pub fn new(alloc: Global) -> Gains {
        Gains {
            yes: Vec::new(alloc),
            no: Vec::new(alloc),
            all_yes: Sum::NONE,
            all_no: Sum::NONE,
        }
    }

    /// Begins with so many pairs of which nothing is known.
    pub fn begin(&mut self, pairs: usize) -> Result<(), NoMemory> {
        self.yes.resize(pairs, Sum::NONE)?;
        self.no.resize(pairs, Sum::NONE)?;
        Ok(())
    }

    /// Puts down a gain of a pair that was flown in this part of 2^30.
    pub fn note(&mut self, column: u32, is_yes: bool, gain: i128, part: i64) {
        let place = column as usize;
        let distance = i128::from(distance(part, is_yes)).max(LEAST_DISTANCE);
        let each = gain
            .wrapping_shl(PART_BITS)
            .checked_div(distance)
            .unwrap_or(0);
        if is_yes {
            let sum = at(&self.yes, place, Sum::NONE);
            put(self.yes.as_mut_slice(), place, sum.with(each));
            self.all_yes = self.all_yes.with(each);
        } else {
            let sum = at(&self.no, place, Sum::NONE);
            put(self.no.as_mut_slice(), place, sum.with(each));
            self.all_no = self.all_no.with(each);
        }
    }

    /// Whether a pair was tried often enough both ways.
    pub fn is_known(&self, column: u32) -> bool {
        let place = column as usize;
        at(&self.yes, place, Sum::NONE).count >= KNOWN
            && at(&self.no, place, Sum::NONE).count >= KNOWN
    }

    /// How well a pair in this part would do, by what is known.
    pub fn guess(&self, column: u32, part: i64, far: i128) -> i128 {
        let place = column as usize;
        let yes = at(&self.yes, place, Sum::NONE).mean(self.all_yes);
        let no = at(&self.no, place, Sum::NONE).mean(self.all_no);
        score(gone(yes, part, true), gone(no, part, false), far)
    }
}

// What the gain comes to over the distance of a part.
fn gone(each: i128, part: i64, is_yes: bool) -> i128 {
    let distance = i128::from(distance(part, is_yes));
    each.wrapping_mul(distance).wrapping_shr(PART_BITS)
}

// How far a part is from 1, or from 0.
fn distance(part: i64, is_yes: bool) -> i64 {
    if is_yes {
        (1i64 << PART_BITS).wrapping_sub(part)
    } else {
        part
    }
}

/// How well a split does whose parts gain so much: none counts for less than a part of a unit, nor for more than is wanted.
pub fn score(yes: i128, no: i128, far: i128) -> i128 {
    let far = far.max(1);
    yes.clamp(1, far).wrapping_mul(no.clamp(1, far))
}
