use crate::outcome::Outcome;
use crate::running::parts_of;
use crate::search::Search;
use basis_factors::fixed_numbers::PART_BITS;
use entries::NoMemory;
use fleet_model::Tables;
use search_tree::{GAIN_BITS, Problem, Subproblem};
use std::alloc::Global;

// How much less than its value a subproblem is surely worth, in parts: a thousandth of a unit.
const DOUBT: i128 = 1 << 20;

impl Search {
    /// Solves a subproblem from the basis that was saved, where there is one; else, or where that shows nothing, from a start of its
    /// own; and once more without a cut-off, where there was one. Answers whether that showed anything.
    pub fn solve(
        &mut self,
        alloc: Global,
        tables: &Tables,
        problem: &Problem,
        number: u32,
        is_saved: bool,
    ) -> Result<Outcome, NoMemory> {
        if is_saved {
            let ended = self.run_on(problem, number)?;
            let outcome = self.judged(alloc, tables, problem, number, ended)?;
            if self.is_told(number, outcome)? {
                return Ok(outcome);
            }
        }
        let ended = self.run_anew(problem, number, true)?;
        let outcome = self.judged(alloc, tables, problem, number, ended)?;
        if self.is_told(number, outcome)? || self.best.is_none() {
            return Ok(outcome);
        }
        let ended = self.run_anew(problem, number, false)?;
        let outcome = self.judged(alloc, tables, problem, number, ended)?;
        self.is_told(number, outcome)?;
        Ok(outcome)
    }

    // Keeps the basis of a subproblem that waits, and answers whether it waits or is a leaf.
    fn is_told(&mut self, number: u32, outcome: Outcome) -> Result<bool, NoMemory> {
        match outcome {
            Outcome::Leaf => Ok(true),
            Outcome::Lost => Ok(false),
            Outcome::Waits { value } => {
                let mut made = self.subproblems.at(number);
                made.value = value;
                made.rank = rank_of(value);
                made.slot = self.slots.keep(&self.basis.head, &self.basis.weights)?;
                self.subproblems.put(number, made);
                Ok(true)
            }
        }
    }

    /// Makes a part of a subproblem, whose pair was flown in this part, and solves it. Answers its number, or none where nothing
    /// was shown.
    pub fn solve_part(
        &mut self,
        alloc: Global,
        tables: &Tables,
        problem: &Problem,
        part: Subproblem,
        flown: i64,
    ) -> Result<Option<u32>, NoMemory> {
        let before = self.subproblems.at(part.parent).value;
        let number = self.subproblems.push(part)?;
        match self.solve(alloc, tables, problem, number, true)? {
            Outcome::Lost => return Ok(None),
            Outcome::Leaf => {}
            Outcome::Waits { value } => {
                let gain = gain_of(before, value);
                self.gains.note(part.column, part.is_yes, gain, flown);
            }
        }
        Ok(Some(number))
    }
}

/// By how much a value rose, in parts of 2^10 of a unit.
pub fn gain_of(before: i128, after: i128) -> i128 {
    let rise = after.wrapping_sub(before).max(0);
    rise.wrapping_shr(PART_BITS - GAIN_BITS)
}

// What nothing undercuts in a subproblem whose cheapest point costs so much, in whole units.
fn rank_of(value: i128) -> i128 {
    let up = parts_of(1).wrapping_sub(1).wrapping_sub(DOUBT);
    value.wrapping_add(up).wrapping_shr(PART_BITS)
}
