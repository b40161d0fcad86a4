use basis_factors::fixed_numbers::{NONE, put};
use entries::NoMemory;
use std::alloc::Global;

/// What became of a subproblem.
#[derive(Clone, Copy)]
pub enum State {
    /// It waits to be split.
    Waits,
    /// It was split.
    Split,
    /// It is a leaf.
    Leaf,
}

/// A subproblem: a part of another, or the whole.
#[derive(Clone, Copy)]
pub struct Subproblem {
    /// The one that was split, or `NONE`.
    pub parent: u32,
    /// The pair by which that was split, by its column, and whether its leg takes it here.
    pub column: u32,
    pub is_yes: bool,
    pub state: State,
    /// What its cheapest point costs, in parts of 2^30.
    pub value: i128,
    /// What nothing in it undercuts, as far as the parts tell.
    pub rank: i128,
    /// Where its basis is kept.
    pub slot: u32,
    /// Its parts, where it was split.
    pub yes: u32,
    pub no: u32,
    /// Where its own lines of the text begin and end.
    pub text: usize,
    pub text_end: usize,
}

/// All subproblems, in the order in which they were made, with their lines of the text.
#[derive(Drop)]
pub struct Subproblems {
    pub all: Vec<Subproblem>,
    pub text: Vec<u8>,
}

impl Subproblem {
    /// A part of another one, which waits.
    pub fn part(parent: u32, column: u32, is_yes: bool) -> Subproblem {
        Subproblem {
            parent,
            column,
            is_yes,
            state: State::Waits,
            value: 0,
            rank: 0,
            slot: NONE,
            yes: NONE,
            no: NONE,
            text: 0,
            text_end: 0,
        }
    }
}

impl Subproblems {
    pub fn new(alloc: Global) -> Subproblems {
        Subproblems {
            all: Vec::new(alloc),
            text: Vec::new(alloc),
        }
    }

    /// Puts down one more, and answers its number.
    pub fn push(&mut self, made: Subproblem) -> Result<u32, NoMemory> {
        let number = basis_factors::fixed_numbers::place_of(self.all.len());
        self.all.push(made)?;
        Ok(number)
    }

    /// The subproblem of a number.
    pub fn at(&self, number: u32) -> Subproblem {
        let none = Subproblem::part(NONE, NONE, false);
        basis_factors::fixed_numbers::at(&self.all, number as usize, none)
    }

    /// Writes a subproblem anew.
    pub fn put(&mut self, number: u32, changed: Subproblem) {
        put(self.all.as_mut_slice(), number as usize, changed);
    }

    /// The one that waits and has the least rank, at a tie the first.
    pub fn next(&self) -> Option<u32> {
        let mut best = None;
        let mut least = 0i128;
        for number in 0..self.all.len() {
            let made = self.all[number];
            if matches!(made.state, State::Waits) && (best.is_none() || made.rank < least) {
                least = made.rank;
                best = Some(basis_factors::fixed_numbers::place_of(number));
            }
        }
        best
    }

    /// Takes the text behind so many bytes as that of a subproblem, and makes this a leaf, or one that was split.
    pub fn settle(&mut self, number: u32, state: State, text: usize) {
        let mut made = self.at(number);
        made.state = state;
        made.text = text;
        made.text_end = self.text.len();
        self.put(number, made);
    }
}
