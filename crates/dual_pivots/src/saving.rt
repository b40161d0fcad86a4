use crate::basis::Basis;
use crate::lines::Lines;
use basis_factors::Mark;
use basis_factors::fixed_numbers::{Fixed, put};
use entries::NoMemory;
use std::alloc::Global;

/// A basis as it was at a moment, to which it can be brought back.
#[derive(Drop)]
pub struct Saved {
    head: Vec<u32>,
    weights: Vec<Fixed>,
    point: Vec<Fixed>,
    above: Vec<Fixed>,
    mark: Option<Mark>,
    factorings: u64,
    is_fresh: bool,
}

impl Saved {
    pub fn new(alloc: Global) -> Saved {
        Saved {
            head: Vec::new(alloc),
            weights: Vec::new(alloc),
            point: Vec::new(alloc),
            above: Vec::new(alloc),
            mark: None,
            factorings: 0,
            is_fresh: false,
        }
    }
}

impl Basis {
    /// Saves the basis, whose costs aren't moved.
    pub fn save(&self, saved: &mut Saved) -> Result<(), NoMemory> {
        saved.head.clear();
        saved.head.extend_from_slice(&self.head)?;
        saved.weights.clear();
        saved.weights.extend_from_slice(&self.weights)?;
        saved.point.clear();
        saved.point.extend_from_slice(&self.point)?;
        saved.above.clear();
        saved.above.extend_from_slice(&self.above)?;
        saved.mark = Some(self.factors.mark());
        saved.factorings = self.factorings;
        saved.is_fresh = self.is_fresh;
        Ok(())
    }

    /// Brings back what was saved: by taking pivots back, or where the basis was factored since, by factoring it once more. Which columns
    /// are held stays as it is now. Answers whether it could be factored.
    pub fn restore(&mut self, lines: &Lines, saved: &Saved) -> Result<bool, NoMemory> {
        self.forget_moves(lines);
        match saved.mark {
            Some(mark) if saved.factorings == self.factorings => {
                self.factors.cut_back(mark);
                self.is_fresh = saved.is_fresh;
                copy(self.head.as_mut_slice(), &saved.head);
                copy(self.weights.as_mut_slice(), &saved.weights);
                copy(self.point.as_mut_slice(), &saved.point);
                copy(self.above.as_mut_slice(), &saved.above);
                self.note_basic()?;
                Ok(true)
            }
            _ => self.lay(lines, &saved.head, &saved.weights),
        }
    }

    /// Holds a column at 0, or lets it go. What is noted of it counts from the next factoring or `note_basic` on.
    pub fn hold(&mut self, column: u32, is_held: bool) {
        put(self.held.as_mut_slice(), column as usize, is_held);
    }
}

fn copy<T: Copy + Drop>(to: &mut [T], from: &[T]) {
    for place in 0..to.len() {
        if place < from.len() {
            to[place] = from[place];
        }
    }
}
