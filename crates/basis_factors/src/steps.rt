use crate::fixed_numbers::{Item, Scalar, place_of};
use entries::NoMemory;
use std::alloc::Global;

/// The line of a step, its pivot, and where its items end.
#[derive(Clone, Copy)]
pub struct Step<S> {
    pub line: u32,
    pub end: u32,
    pub pivot: S,
}

/// Steps, one after the other, each with its items.
#[derive(Drop)]
pub struct Steps<S> {
    pub steps: Vec<Step<S>>,
    pub items: Vec<Item<S>>,
}

impl<S: Scalar> Steps<S> {
    pub fn new(alloc: Global) -> Steps<S> {
        Steps {
            steps: Vec::new(alloc),
            items: Vec::new(alloc),
        }
    }

    pub fn clear(&mut self) {
        self.steps.clear();
        self.items.clear();
    }

    #[inline(always)]
    pub fn push(&mut self, place: u32, number: S) -> Result<(), NoMemory> {
        self.items.push(Item { place, number })?;
        Ok(())
    }

    /// Makes a step of the items behind the last one.
    pub fn end(&mut self, line: u32, pivot: S) -> Result<(), NoMemory> {
        let end = place_of(self.items.len());
        self.steps.push(Step { line, end, pivot })?;
        Ok(())
    }

    /// The items of a step.
    #[inline(always)]
    pub fn of(&self, place: usize) -> &[Item<S>] {
        if place >= self.steps.len() {
            return &[];
        }
        let end = self.steps[place].end as usize;
        let start = if place == 0 {
            0
        } else {
            self.steps[place.wrapping_sub(1)].end as usize
        };
        if start <= end && end <= self.items.len() {
            &self.items[start..end]
        } else {
            &[]
        }
    }
}

/// Takes a number times so many items from a vector.
#[inline(always)]
pub fn take<S: Scalar>(vector: &mut [S], items: &[Item<S>], times: S) {
    for item in items {
        let place = item.place as usize;
        if place < vector.len() {
            vector[place] = vector[place].minus(item.number.times(times));
        }
    }
}

/// What is left of a number when items are taken from it, each as often as the vector has.
#[inline(always)]
pub fn left_of<S: Scalar>(number: S, items: &[Item<S>], vector: &[S]) -> S {
    let mut left = number;
    for item in items {
        let place = item.place as usize;
        if place < vector.len() && !vector[place].is_zero() {
            left = left.minus(item.number.times(vector[place]));
        }
    }
    left
}
