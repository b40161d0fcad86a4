use crate::search::Search;
use basis_factors::fixed_numbers::{NONE, PART_BITS, place_of};
use dual_pivots::{Ended, Limits};
use entries::NoMemory;
use search_tree::{Problem, lay_start};

// A thousandth of a unit, in parts: rounded prices may be worth so much less than what they were rounded from.
const SLACK: i128 = 1 << 20;

impl Search {
    /// From which value on a subproblem holds no plan that is cheaper than the best one: costs are whole.
    pub fn cutoff(&self) -> Option<i128> {
        match self.best {
            Some(best) => Some(parts_of(best.wrapping_sub(1)).wrapping_add(SLACK)),
            None => None,
        }
    }

    /// Holds the pairs that a subproblem doesn't keep, and lets all others go.
    pub fn hold_for(&mut self, problem: &Problem, number: u32) {
        for column in 0..problem.pair_count() {
            self.basis.hold(place_of(column), false);
        }
        let mut here = number;
        for _step in 0..self.subproblems.all.len() {
            let made = self.subproblems.at(here);
            if made.parent == NONE {
                return;
            }
            self.hold_step(problem, made.column, made.is_yes);
            here = made.parent;
        }
    }

    /// Holds what a part of a subproblem doesn't keep: the other pairs of a leg, or a pair.
    pub fn hold_step(&mut self, problem: &Problem, column: u32, is_yes: bool) {
        if !is_yes {
            self.basis.hold(column, true);
            return;
        }
        let pair = problem.priced.pair(column);
        let (first, end) = problem.priced.pairs_of(pair.leg as usize);
        for other in first..end {
            if place_of(other) != column {
                self.basis.hold(place_of(other), true);
            }
        }
    }

    /// Runs on a part of the subproblem that was saved, from there on.
    pub fn run_on(&mut self, problem: &Problem, number: u32) -> Result<Ended, NoMemory> {
        self.hold_for(problem, number);
        if !self.basis.restore(&problem.lines, &self.saved)? {
            return Ok(Ended::Failed);
        }
        self.run(problem, true)
    }

    /// Runs on a subproblem from a start of its own.
    pub fn run_anew(
        &mut self,
        problem: &Problem,
        number: u32,
        is_cut: bool,
    ) -> Result<Ended, NoMemory> {
        self.hold_for(problem, number);
        let head = &mut self.head;
        lay_start(problem, &self.basis.held, head, &mut self.weights)?;
        if !self.basis.lay(&problem.lines, &self.head, &self.weights)? {
            return Ok(Ended::Failed);
        }
        self.run(problem, is_cut)
    }

    fn run(&mut self, problem: &Problem, is_cut: bool) -> Result<Ended, NoMemory> {
        let limits = Limits {
            steps: self.pivots,
            cutoff: if is_cut { self.cutoff() } else { None },
            may_renew: true,
        };
        let ended = self.basis.dual(&problem.lines, &mut self.space, limits)?;
        let ended = match ended {
            Ended::Best => self.basis.clean(&problem.lines, &mut self.space, limits)?,
            _ => ended,
        };
        self.note_work();
        Ok(ended)
    }

    /// Adds the work that was done since to that of the whole search.
    pub fn note_work(&mut self) {
        self.work = self.work.saturating_add(self.basis.work);
        self.basis.work = 0;
    }
}

/// A whole number in parts of 2^30.
pub fn parts_of(number: i128) -> i128 {
    number.wrapping_shl(PART_BITS)
}
