use basis_factors::fixed_numbers::{Fixed, NONE, put};
use entries::NoMemory;
use std::alloc::Global;

// How many lines all slots may have together: 100 MB of columns and weights.
const MOST_LINES: usize = 8_000_000;

/// The bases of subproblems that wait, each in a slot of its own.
#[derive(Drop)]
pub struct Slots {
    lines: usize,
    heads: Vec<u32>,
    weights: Vec<Fixed>,
    free: Vec<u32>,
    count: u32,
}

impl Slots {
    pub fn new(alloc: Global, lines: usize) -> Slots {
        Slots {
            lines,
            heads: Vec::new(alloc),
            weights: Vec::new(alloc),
            free: Vec::new(alloc),
            count: 0,
        }
    }

    /// Keeps a basis with its weights, and answers in which slot; in none where there are too many.
    pub fn keep(&mut self, head: &[u32], weights: &[Fixed]) -> Result<u32, NoMemory> {
        if head.len() != self.lines || weights.len() != self.lines {
            return Ok(NONE);
        }
        if let Some(slot) = self.free.pop() {
            self.lay(slot, head, weights);
            return Ok(slot);
        }
        if self.heads.len() > MOST_LINES {
            return Ok(NONE);
        }
        self.heads.extend_from_slice(head)?;
        self.weights.extend_from_slice(weights)?;
        let slot = self.count;
        self.count = self.count.wrapping_add(1);
        Ok(slot)
    }

    fn lay(&mut self, slot: u32, head: &[u32], weights: &[Fixed]) {
        let first = (slot as usize).wrapping_mul(self.lines);
        copy(self.heads.as_mut_slice(), first, head);
        copy(self.weights.as_mut_slice(), first, weights);
    }

    /// Takes the basis of a slot, with its weights, and frees the slot. Answers whether there is one.
    pub fn take(
        &mut self,
        slot: u32,
        head: &mut Vec<u32>,
        weights: &mut Vec<Fixed>,
    ) -> Result<bool, NoMemory> {
        if slot == NONE {
            return Ok(false);
        }
        let first = (slot as usize).wrapping_mul(self.lines);
        let end = first.wrapping_add(self.lines);
        if first > end || end > self.heads.len() || end > self.weights.len() {
            return Ok(false);
        }
        head.clear();
        head.extend_from_slice(&self.heads[first..end])?;
        weights.clear();
        weights.extend_from_slice(&self.weights[first..end])?;
        self.free.push(slot)?;
        Ok(true)
    }
}

// Copies numbers to a place.
fn copy<T: Copy + Drop>(to: &mut [T], first: usize, from: &[T]) {
    for place in 0..from.len() {
        put(to, first.wrapping_add(place), from[place]);
    }
}
