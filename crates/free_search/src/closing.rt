use crate::choosing::{InPart, push_in_part};
use crate::search::Search;
use basis_factors::fixed_numbers::{at, filled, put};
use entries::NoMemory;
use exact_ends::ExactEnd;
use fleet_model::Tables;
use proof_lines::{Line, push_line};
use search_tree::box_prices::text_lines::push_split;
use search_tree::box_prices::{make_proper, push_duals, push_weights};
use search_tree::{Problem, State, Subproblem};
use std::alloc::Global;

// How much work may be done in all, and how long the text may grow: some twenty minutes, and 200 MB.
const MOST_WORK: u64 = 100_000_000_000;

const MOST_TEXT: usize = 200_000_000;

/// What a turn of the search came to.
#[derive(Clone, Copy)]
pub enum Turn {
    /// A subproblem that waited was split, or made a leaf.
    Went,
    /// None waits.
    Done,
    /// Nothing was shown of one, or the budget is spent.
    GaveUp,
}

impl Search {
    /// Takes the subproblem that waits and has the least rank, and splits it where it may hold a cheaper plan and at most so many are
    /// split in all; else makes it a leaf.
    pub fn turn(
        &mut self,
        alloc: Global,
        tables: &Tables,
        problem: &Problem,
        nodes: u64,
    ) -> Result<Turn, NoMemory> {
        let Some(number) = self.subproblems.next() else {
            return Ok(Turn::Done);
        };
        if self.work > MOST_WORK || self.subproblems.text.len() > MOST_TEXT {
            return Ok(Turn::GaveUp);
        }
        match self.exact_of(alloc, problem, number)? {
            Some(end) => self.close(alloc, tables, problem, number, nodes, &end),
            None => Ok(Turn::GaveUp),
        }
    }

    // Closes a subproblem whose exact prices reach the cost of the best plan, or leaves it open where no more may be split, or splits it.
    fn close(
        &mut self,
        alloc: Global,
        tables: &Tables,
        problem: &Problem,
        number: u32,
        nodes: u64,
        end: &ExactEnd,
    ) -> Result<Turn, NoMemory> {
        self.take_exact(problem, end)?;
        let worth = self.rounded_worth(problem, end.duals.den);
        let is_closed = match self.best {
            Some(best) => worth >= best,
            None => false,
        };
        if is_closed {
            self.make_leaf(alloc, tables, problem, number, &Line::Priced, end.duals.den)?;
            return Ok(Turn::Went);
        }
        let weights = weights_of(alloc, problem, end)?;
        if self.splits >= nodes {
            self.leave_open(alloc, tables, problem, number, end, &weights)?;
            return Ok(Turn::Went);
        }
        self.split(alloc, tables, problem, number, end, &weights)
    }

    // Takes exact dual values as prices.
    fn take_exact(&mut self, problem: &Problem, end: &ExactEnd) -> Result<(), NoMemory> {
        self.duals.clear();
        self.duals.extend_from_slice(&end.duals.numbers)?;
        make_proper(&problem.priced, self.duals.as_mut_slice());
        Ok(())
    }

    // Makes a leaf that stays open.
    fn leave_open(
        &mut self,
        alloc: Global,
        tables: &Tables,
        problem: &Problem,
        number: u32,
        end: &ExactEnd,
        weights: &[i128],
    ) -> Result<(), NoMemory> {
        let begun = self.subproblems.text.len();
        push_line(alloc, &mut self.subproblems.text, tables, &Line::OpenNodes)?;
        self.push_exact(alloc, tables, problem, end, weights)?;
        self.subproblems.settle(number, State::Leaf, begun);
        Ok(())
    }

    // Appends the exact prices that were taken, and the weights of the cheapest point.
    fn push_exact(
        &mut self,
        alloc: Global,
        tables: &Tables,
        problem: &Problem,
        end: &ExactEnd,
        weights: &[i128],
    ) -> Result<(), NoMemory> {
        let priced = &problem.priced;
        let text = &mut self.subproblems.text;
        push_duals(alloc, text, tables, priced, &self.duals, end.duals.den)?;
        push_weights(alloc, text, tables, priced, weights, end.point.den)
    }

    // Splits a subproblem, and solves its parts.
    fn split(
        &mut self,
        alloc: Global,
        tables: &Tables,
        problem: &Problem,
        number: u32,
        end: &ExactEnd,
        weights: &[i128],
    ) -> Result<Turn, NoMemory> {
        if !self.basis.lay(&problem.lines, &self.head, &self.weights)? {
            return Ok(Turn::GaveUp);
        }
        self.basis.save(&mut self.saved)?;
        let Some(pair) = self.chosen(alloc, problem, number, weights, end.point.den)? else {
            return Ok(Turn::GaveUp);
        };
        let begun = self.subproblems.text.len();
        let named = problem.priced.pair(pair.column);
        push_split(alloc, &mut self.subproblems.text, tables, named)?;
        self.push_exact(alloc, tables, problem, end, weights)?;
        self.subproblems.settle(number, State::Split, begun);
        self.splits = self.splits.wrapping_add(1);
        self.solve_parts(alloc, tables, problem, number, pair)
    }

    // The pair to split a subproblem by, whose basis is saved, where one is flown in part by weights over a scale.
    fn chosen(
        &mut self,
        alloc: Global,
        problem: &Problem,
        number: u32,
        weights: &[i128],
        scale: i128,
    ) -> Result<Option<InPart>, NoMemory> {
        let mut pairs = Vec::new(alloc);
        push_in_part(&mut pairs, weights, scale)?;
        self.choose(problem, number, pairs.as_mut_slice())
    }

    // Solves the part in which the leg takes the pair, and the one in which it doesn't.
    fn solve_parts(
        &mut self,
        alloc: Global,
        tables: &Tables,
        problem: &Problem,
        number: u32,
        pair: InPart,
    ) -> Result<Turn, NoMemory> {
        let part = Subproblem::part(number, pair.column, true);
        let Some(yes) = self.solve_part(alloc, tables, problem, part, pair.part)? else {
            return Ok(Turn::GaveUp);
        };
        let part = Subproblem::part(number, pair.column, false);
        let Some(no) = self.solve_part(alloc, tables, problem, part, pair.part)? else {
            return Ok(Turn::GaveUp);
        };
        let mut made = self.subproblems.at(number);
        made.yes = yes;
        made.no = no;
        self.subproblems.put(number, made);
        Ok(Turn::Went)
    }
}

// How much of each pair is flown, over the scale of the point.
fn weights_of(alloc: Global, problem: &Problem, end: &ExactEnd) -> Result<Vec<i128>, NoMemory> {
    let mut weights = filled(alloc, 0, problem.pair_count())?;
    for line in 0..end.head.len() {
        let number = at(&end.point.numbers, line, 0);
        put(weights.as_mut_slice(), end.head[line] as usize, number);
    }
    Ok(weights)
}
