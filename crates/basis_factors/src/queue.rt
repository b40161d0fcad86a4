use crate::fixed_numbers::{NONE, at, put, reset};
use entries::NoMemory;
use std::alloc::Global;

/// Columns by their counts: of each count a list, in which each knows the one before and the one behind.
#[derive(Drop)]
pub struct Queue {
    firsts: Vec<u32>,
    nexts: Vec<u32>,
    befores: Vec<u32>,
}

impl Queue {
    pub fn new(alloc: Global) -> Queue {
        Queue {
            firsts: Vec::new(alloc),
            nexts: Vec::new(alloc),
            befores: Vec::new(alloc),
        }
    }

    /// Begins with no column, of so many.
    pub fn begin(&mut self, count: usize) -> Result<(), NoMemory> {
        reset(&mut self.firsts, count.wrapping_add(1), NONE)?;
        reset(&mut self.nexts, count, NONE)?;
        reset(&mut self.befores, count, NONE)
    }

    /// The first column of a count.
    #[inline(always)]
    pub fn first(&self, count: usize) -> u32 {
        at(&self.firsts, count, NONE)
    }

    /// The column of the same count behind another.
    #[inline(always)]
    pub fn next(&self, column: u32) -> u32 {
        at(&self.nexts, column as usize, NONE)
    }

    /// Lets a column in, as the first of its count.
    pub fn link(&mut self, column: u32, count: u32) {
        let other = at(&self.firsts, count as usize, NONE);
        put(self.nexts.as_mut_slice(), column as usize, other);
        put(self.befores.as_mut_slice(), column as usize, NONE);
        put(self.befores.as_mut_slice(), other as usize, column);
        put(self.firsts.as_mut_slice(), count as usize, column);
    }

    /// Takes a column out.
    pub fn unlink(&mut self, column: u32, count: u32) {
        let before = at(&self.befores, column as usize, NONE);
        let next = at(&self.nexts, column as usize, NONE);
        put(self.befores.as_mut_slice(), next as usize, before);
        if before == NONE {
            put(self.firsts.as_mut_slice(), count as usize, next);
        } else {
            put(self.nexts.as_mut_slice(), before as usize, next);
        }
    }
}
