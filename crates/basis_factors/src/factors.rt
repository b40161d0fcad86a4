use crate::fixed_numbers::{Scalar, at, place_of, put};
use crate::steps::{Steps, left_of, take};
use entries::NoMemory;
use std::alloc::Global;

/// How far the changes of factors had come.
#[derive(Clone, Copy)]
pub struct Mark {
    steps: usize,
    items: usize,
}

/// A basis as a product: a lower triangle, an upper one, and the changes since. A vector goes by lines: what stands at a line is of the
/// column whose pivot is there.
#[derive(Drop)]
pub struct Factors<S> {
    /// What each step takes from the lines behind it.
    pub lower: Steps<S>,
    /// The columns of the steps, by the lines of earlier ones.
    pub upper: Steps<S>,
    /// The same by the lines of the steps, with what the columns of later ones have there.
    pub across: Steps<S>,
    /// Of each line the first step across that isn't before that of its pivot.
    pub places: Vec<u32>,
    /// The columns that came since, by what stood in their lines.
    changes: Steps<S>,
}

impl<S: Scalar> Factors<S> {
    pub fn new(alloc: Global) -> Factors<S> {
        Factors {
            lower: Steps::new(alloc),
            upper: Steps::new(alloc),
            across: Steps::new(alloc),
            places: Vec::new(alloc),
            changes: Steps::new(alloc),
        }
    }

    /// Lets all steps and changes go.
    pub fn clear(&mut self) {
        self.lower.clear();
        self.upper.clear();
        self.across.clear();
        self.changes.clear();
    }

    /// How many numbers there are.
    pub fn len(&self) -> usize {
        let first = self.lower.items.len().wrapping_add(self.upper.items.len());
        first.wrapping_add(self.changes.items.len())
    }

    /// How many columns came since the basis was factored.
    #[inline(always)]
    pub fn change_count(&self) -> usize {
        self.changes.steps.len()
    }

    /// How far the changes have come.
    pub fn mark(&self) -> Mark {
        Mark {
            steps: self.changes.steps.len(),
            items: self.changes.items.len(),
        }
    }

    /// Takes the changes back that came since a mark, as long as the basis wasn't factored since.
    pub fn cut_back(&mut self, mark: Mark) {
        self.changes.steps.truncate(mark.steps);
        self.changes.items.truncate(mark.items);
    }

    /// Turns a column by lines into what the basis has of each of its own.
    pub fn forward(&self, vector: &mut [S]) {
        self.lower_forward(vector);
        self.upper_forward(vector);
        self.changes_forward(vector);
    }

    fn lower_forward(&self, vector: &mut [S]) {
        for place in 0..self.lower.steps.len() {
            let line = self.lower.steps[place].line as usize;
            let number = at(vector, line, S::of(0));
            if !number.is_zero() {
                take(vector, self.lower.of(place), number);
            }
        }
    }

    fn upper_forward(&self, vector: &mut [S]) {
        for place in (0..self.upper.steps.len()).rev() {
            self.upper.divide(vector, place);
        }
    }

    fn changes_forward(&self, vector: &mut [S]) {
        for place in 0..self.changes.steps.len() {
            self.changes.divide(vector, place);
        }
    }

    /// Turns numbers of the basis's columns into multipliers of the lines, by which the lines have them.
    pub fn backward(&self, vector: &mut [S]) {
        let first = self.changes_backward(vector, 0);
        self.rest_backward(vector, first);
    }

    /// The same of numbers that are 0 but at one line.
    pub fn backward_of(&self, vector: &mut [S], line: u32) {
        let first = at(&self.places, line as usize, 0);
        let first = self.changes_backward(vector, first as usize);
        self.rest_backward(vector, first);
    }

    // Takes the changes back, and answers the first step whose line has a number.
    fn changes_backward(&self, vector: &mut [S], begun: usize) -> usize {
        let mut first = begun;
        for place in (0..self.changes.steps.len()).rev() {
            let line = self.changes.steps[place].line as usize;
            let number = at(vector, line, S::of(0));
            let left = left_of(number, self.changes.of(place), vector);
            put(vector, line, left.over(self.changes.steps[place].pivot));
            if !left.is_zero() {
                first = first.min(at(&self.places, line, 0) as usize);
            }
        }
        first
    }

    fn rest_backward(&self, vector: &mut [S], first: usize) {
        for place in first..self.across.steps.len() {
            self.across.divide(vector, place);
        }
        for place in (0..self.lower.steps.len()).rev() {
            let line = self.lower.steps[place].line as usize;
            if line < vector.len() {
                vector[line] = left_of(vector[line], self.lower.of(place), vector);
            }
        }
    }

    /// Lets a column in whose numbers these are, for the one whose pivot is in a line.
    pub fn replace(&mut self, line: u32, column: &[S]) -> Result<(), NoMemory> {
        for place in 0..column.len() {
            let number = column[place];
            if !number.is_zero() && place != line as usize {
                self.changes.push(place_of(place), number)?;
            }
        }
        let pivot = at(column, line as usize, S::of(1));
        self.changes.end(line, pivot)
    }
}

impl<S: Scalar> Steps<S> {
    // Divides the number of a step's line by its pivot, and takes the step's items from the others.
    #[inline(always)]
    fn divide(&self, vector: &mut [S], place: usize) {
        if place < self.steps.len() {
            let line = self.steps[place].line as usize;
            if line < vector.len() && !vector[line].is_zero() {
                let number = vector[line].over(self.steps[place].pivot);
                vector[line] = number;
                take(vector, self.of(place), number);
            }
        }
    }
}
