use crate::search::Search;
use basis_factors::fixed_numbers::{Fixed, NONE, PART_BITS, Scalar, at, put, reset};
use dual_pivots::Ended;
use entries::NoMemory;
use exact_ends::exact_end;
use fleet_model::Tables;
use proof_lines::{Line, push_line};
use search_tree::box_prices::{make_proper, push_duals, worth};
use search_tree::{Problem, State};
use std::alloc::Global;

// Rounded prices are in parts of 2^20 of a unit.
const SCALE_BITS: u32 = 20;

const SCALE: i128 = 1 << SCALE_BITS;

// 10^-5, in parts: how far a pair may be from being flown or not.
const NEAR: i64 = 10_737;

const WHOLE: i64 = 1 << PART_BITS;

/// What a run came to.
#[derive(Clone, Copy)]
pub enum Outcome {
    /// The subproblem is a leaf.
    Leaf,
    /// It waits, and its cheapest point costs so much, in parts.
    Waits { value: i128 },
    /// Nothing can be told.
    Lost,
}

impl Search {
    /// Makes of the end of a run what it shows.
    pub fn judged(
        &mut self,
        alloc: Global,
        tables: &Tables,
        problem: &Problem,
        number: u32,
        ended: Ended,
    ) -> Result<Outcome, NoMemory> {
        match ended {
            Ended::Refused { column, up } => {
                if self.refutes(problem, column, up)? {
                    return self.make_leaf(alloc, tables, problem, number, &Line::Refuted, SCALE);
                }
                Ok(Outcome::Lost)
            }
            Ended::Cut => self.priced(alloc, tables, problem, number),
            Ended::Best => self.solved(alloc, tables, problem, number),
            Ended::Spent | Ended::Failed => Ok(Outcome::Lost),
        }
    }

    // A leaf whose rounded prices reach the cost of the best plan.
    fn priced(
        &mut self,
        alloc: Global,
        tables: &Tables,
        problem: &Problem,
        number: u32,
    ) -> Result<Outcome, NoMemory> {
        if let Some(best) = self.best {
            if self.reaches(problem, best)? {
                return self.make_leaf(alloc, tables, problem, number, &Line::Priced, SCALE);
            }
        }
        Ok(Outcome::Lost)
    }

    // A cheapest point: a plan, or one in part, which waits.
    fn solved(
        &mut self,
        alloc: Global,
        tables: &Tables,
        problem: &Problem,
        number: u32,
    ) -> Result<Outcome, NoMemory> {
        if !self.is_in_part(problem) {
            return self.planned(alloc, tables, problem, number);
        }
        let value = self.basis.value(&problem.lines);
        if self.is_near_cutoff(value) {
            let outcome = self.priced(alloc, tables, problem, number)?;
            if matches!(outcome, Outcome::Leaf) {
                return Ok(outcome);
            }
        }
        Ok(Outcome::Waits { value })
    }

    // Whether a value comes to the cut-off, as far as the parts tell.
    fn is_near_cutoff(&self, value: i128) -> bool {
        match self.cutoff() {
            Some(cutoff) => value.wrapping_add(value.wrapping_shr(36).max(0)) >= cutoff,
            None => false,
        }
    }

    // Whether a pair is flown in part.
    fn is_in_part(&self, problem: &Problem) -> bool {
        for line in 0..self.basis.head.len() {
            let part = at(&self.basis.point, line, Fixed::ZERO).parts;
            if (self.basis.head[line] as usize) < problem.pair_count()
                && part > NEAR
                && part < WHOLE - NEAR
            {
                return true;
            }
        }
        false
    }

    // A plan, whose cost prices reach, or that of the best one.
    fn planned(
        &mut self,
        alloc: Global,
        tables: &Tables,
        problem: &Problem,
        number: u32,
    ) -> Result<Outcome, NoMemory> {
        let Some(cost) = self.plan_cost(problem)? else {
            return Ok(Outcome::Lost);
        };
        let is_better = match self.best {
            Some(best) => cost < best,
            None => true,
        };
        let least = self.best.unwrap_or(cost).min(cost);
        let mut scale = SCALE;
        if !self.reaches(problem, least)? {
            scale = self.exact_scale(alloc, problem)?;
            if scale < 1 || self.rounded_worth(problem, scale) < least {
                return Ok(Outcome::Lost);
            }
        }
        if is_better {
            self.best = Some(cost);
            self.plan.clear();
            self.plan.extend_from_slice(&self.pairs)?;
        }
        self.make_leaf(alloc, tables, problem, number, &Line::Priced, scale)
    }

    // Takes of each leg the pair that is flown, and answers what they cost, or none where a leg has none.
    fn plan_cost(&mut self, problem: &Problem) -> Result<Option<i128>, NoMemory> {
        reset(&mut self.pairs, problem.priced.legs, NONE)?;
        for line in 0..self.basis.head.len() {
            let column = at(&self.basis.head, line, NONE);
            let part = at(&self.basis.point, line, Fixed::ZERO).parts;
            if (column as usize) < problem.pair_count() && part > WHOLE / 2 {
                let leg = problem.priced.pair(column).leg as usize;
                put(self.pairs.as_mut_slice(), leg, column);
            }
        }
        let mut cost = 0i128;
        for column in &self.pairs {
            if *column == NONE {
                return Ok(None);
            }
            cost = cost.wrapping_add(at(&problem.lines.costs, *column as usize, 0));
        }
        Ok(Some(cost))
    }

    // Takes the row of a column that can't come down, or up, as prices, and answers whether they show that no plan is left.
    fn refutes(&mut self, problem: &Problem, column: u32, up: bool) -> Result<bool, NoMemory> {
        let lines = problem.lines.count();
        reset(&mut self.parts, lines, Fixed::ZERO)?;
        for line in 0..self.basis.head.len() {
            if at(&self.basis.head, line, NONE) == column {
                let one = if up { Fixed::ONE } else { Fixed::of(-1) };
                put(self.parts.as_mut_slice(), line, one);
            }
        }
        self.basis.factors.backward(self.parts.as_mut_slice());
        self.take_parts(problem, 0)?;
        let held = &self.basis.held;
        Ok(worth(&problem.priced, &problem.lines, held, &self.duals, 0) > 0)
    }

    // Takes the dual values of the basis by the costs as they are, rounded, and answers whether they are worth so much when that is
    // rounded up.
    fn reaches(&mut self, problem: &Problem, least: i128) -> Result<bool, NoMemory> {
        self.parts.clear();
        for column in &self.basis.head {
            self.parts.push(problem.lines.scaled_cost(*column))?;
        }
        self.basis.factors.backward(self.parts.as_mut_slice());
        self.take_parts(problem, problem.lines.shift)?;
        Ok(self.rounded_worth(problem, SCALE) >= least)
    }

    // Makes proper prices of dual values in parts, which were scaled by a power of 2.
    fn take_parts(&mut self, problem: &Problem, shift: u32) -> Result<(), NoMemory> {
        self.duals.clear();
        for part in &self.parts {
            self.duals.push(rounded(part.parts, shift))?;
        }
        make_proper(&problem.priced, self.duals.as_mut_slice());
        Ok(())
    }

    // Takes the exact dual values of the basis, and answers their scale, or 0 where they aren't found.
    fn exact_scale(&mut self, alloc: Global, problem: &Problem) -> Result<i128, NoMemory> {
        match exact_end(alloc, &problem.lines, &self.basis.head)? {
            Some(end) => {
                self.duals.clear();
                self.duals.extend_from_slice(&end.duals.numbers)?;
                make_proper(&problem.priced, self.duals.as_mut_slice());
                Ok(end.duals.den)
            }
            None => Ok(0),
        }
    }

    /// What the prices over a scale are worth in the subproblem, rounded up to a whole number.
    pub fn rounded_worth(&self, problem: &Problem, scale: i128) -> i128 {
        let held = &self.basis.held;
        let worth = worth(&problem.priced, &problem.lines, held, &self.duals, scale);
        let whole = worth.checked_div(scale).unwrap_or(0);
        if whole.wrapping_mul(scale) < worth {
            whole.wrapping_add(1)
        } else {
            whole
        }
    }

    /// Makes a leaf of the subproblem: its first line, and the prices over a scale.
    pub fn make_leaf(
        &mut self,
        alloc: Global,
        tables: &Tables,
        problem: &Problem,
        number: u32,
        first: &Line,
        scale: i128,
    ) -> Result<Outcome, NoMemory> {
        let begun = self.subproblems.text.len();
        push_first(alloc, &mut self.subproblems.text, tables, first)?;
        let priced = &problem.priced;
        let text = &mut self.subproblems.text;
        push_duals(alloc, text, tables, priced, &self.duals, scale)?;
        self.subproblems.settle(number, State::Leaf, begun);
        Ok(Outcome::Leaf)
    }
}

// Appends the first line of a leaf.
fn push_first(
    alloc: Global,
    text: &mut Vec<u8>,
    tables: &Tables,
    first: &Line,
) -> Result<(), NoMemory> {
    match first {
        Line::Refuted => push_line(alloc, text, tables, &Line::Refuted),
        Line::Priced => push_line(alloc, text, tables, &Line::Priced),
        _ => push_line(alloc, text, tables, &Line::OpenNodes),
    }
}

// A dual value in parts of 2^20 of a unit, where its parts are of a unit scaled by a power of 2.
fn rounded(parts: i64, shift: u32) -> i128 {
    let wide = i128::from(parts);
    let less = PART_BITS - SCALE_BITS;
    if shift >= less {
        return wide.wrapping_shl(shift.wrapping_sub(less));
    }
    let right = less.wrapping_sub(shift);
    let half = 1i128.wrapping_shl(right.wrapping_sub(1));
    wide.wrapping_add(half).wrapping_shr(right)
}
