use crate::search::Search;
use basis_factors::fixed_numbers::at;
use dual_pivots::Ended;
use entries::NoMemory;
use exact_ends::{ExactEnd, exact_end};
use search_tree::Problem;
use search_tree::box_prices::worths::above;
use std::alloc::Global;

impl Search {
    /// The exact end of a subproblem that waits, by the basis that is kept of it, or by a run of its own; its pairs are held then, and
    /// its basis stands in `head`. None where it isn't found.
    pub fn exact_of(
        &mut self,
        alloc: Global,
        problem: &Problem,
        number: u32,
    ) -> Result<Option<ExactEnd>, NoMemory> {
        self.hold_for(problem, number);
        let slot = self.subproblems.at(number).slot;
        if self.slots.take(slot, &mut self.head, &mut self.weights)? {
            let found = self.exact_here(alloc, problem)?;
            if found.is_some() {
                return Ok(found);
            }
        }
        let ended = self.run_anew(problem, number, false)?;
        if !matches!(ended, Ended::Best) {
            return Ok(None);
        }
        self.head.clear();
        self.head.extend_from_slice(&self.basis.head)?;
        self.weights.clear();
        self.weights.extend_from_slice(&self.basis.weights)?;
        self.exact_here(alloc, problem)
    }

    // The end of the basis in `head`, where it is one.
    fn exact_here(&self, alloc: Global, problem: &Problem) -> Result<Option<ExactEnd>, NoMemory> {
        let found = exact_end(alloc, &problem.lines, &self.head)?;
        let is_end = match &found {
            Some(end) => is_end(problem, &self.basis.held, end),
            None => false,
        };
        Ok(if is_end { found } else { None })
    }
}

// Whether a point is at least 0, 0 in held columns, and no other column costs less than it weighs.
fn is_end(problem: &Problem, held: &[bool], end: &ExactEnd) -> bool {
    for line in 0..end.head.len() {
        let number = at(&end.point.numbers, line, 0);
        if number < 0 || number > 0 && at(held, end.head[line] as usize, true) {
            return false;
        }
    }
    let duals = &end.duals;
    for column in 0..problem.lines.column_count() {
        if !at(held, column, true) && above(&problem.lines, &duals.numbers, duals.den, column) < 0 {
            return false;
        }
    }
    true
}
