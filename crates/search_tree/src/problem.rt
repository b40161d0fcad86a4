use crate::box_prices::PricedLines;
use crate::whole_lines::{WholeLines, whole_lines};
use dual_pivots::Lines;
use entries::NoMemory;
use fleet_model::{Kept, Tables};
use lp_rows::{Outline, Program};
use std::alloc::Global;

/// What is searched: it stays the same at all subproblems.
#[derive(Drop)]
pub struct Problem {
    pub lines: Lines,
    pub priced: PricedLines,
    /// Of each node the column of the arc that leaves it.
    pub arcs: Vec<u32>,
    /// The first column of the fleets' slacks, and of the nights' rooms.
    pub slacks: usize,
    pub rooms: usize,
}

impl Problem {
    // That of the kept pairs.
    fn new(
        alloc: Global,
        tables: &Tables,
        kept: &Kept,
        outline: &Outline,
        whole: WholeLines,
    ) -> Result<Problem, NoMemory> {
        let WholeLines { lines, arcs } = whole;
        let slacks = outline.pairs.len().wrapping_add(outline.arcs.len());
        let rooms = slacks.wrapping_add(outline.fleets as usize);
        Ok(Problem {
            priced: PricedLines::new(alloc, tables, kept, outline, &lines)?,
            lines,
            arcs,
            slacks,
            rooms,
        })
    }

    /// How many pairs there are, whose columns are the first.
    pub fn pair_count(&self) -> usize {
        self.priced.pairs.len()
    }
}

/// What is searched, where its numbers fit.
pub fn problem_of(
    alloc: Global,
    tables: &Tables,
    kept: &Kept,
) -> Result<Option<Problem>, NoMemory> {
    let program = Program::new(alloc, tables, kept)?;
    problem_by(alloc, tables, kept, &program)
}

fn problem_by(
    alloc: Global,
    tables: &Tables,
    kept: &Kept,
    program: &Program,
) -> Result<Option<Problem>, NoMemory> {
    match whole_lines(alloc, program)? {
        Some(whole) => {
            let problem = Problem::new(alloc, tables, kept, &program.outline, whole)?;
            Ok(Some(problem))
        }
        None => Ok(None),
    }
}
