use crate::box_prices::arc_from;
use basis_factors::fixed_numbers::{Units, place_of};
use dual_pivots::Lines;
use entries::NoMemory;
use lp_rows::{Outline, Program};
use std::alloc::Global;

/// The lines of a linear program with a column for each ground arc, also for those that it leaves out, and of each node the column of
/// the arc that leaves it.
#[derive(Drop)]
pub struct WholeLines {
    pub lines: Lines,
    pub arcs: Vec<u32>,
}

/// The lines of a program with all arcs, where their numbers fit.
pub fn whole_lines(alloc: Global, program: &Program) -> Result<Option<WholeLines>, NoMemory> {
    let mut added = Added::new(alloc);
    let lines = added.lines(alloc, program)?;
    let Added { arcs, .. } = added;
    match lines {
        Some(lines) => Ok(Some(WholeLines { lines, arcs })),
        None => Ok(None),
    }
}

// The columns of arcs that the program leaves out.
#[derive(Drop)]
struct Added {
    units: Units,
    arcs: Vec<u32>,
    count: u32,
}

impl Added {
    fn new(alloc: Global) -> Added {
        Added {
            units: Units::new(alloc),
            arcs: Vec::new(alloc),
            count: 0,
        }
    }

    // The lines of a program, and these columns behind its own.
    fn lines(&mut self, alloc: Global, program: &Program) -> Result<Option<Lines>, NoMemory> {
        let rows = &program.rows;
        self.begin(rows.columns)?;
        self.lay(&program.outline, rows.columns)?;
        let mut more = Units::new(alloc);
        more.turn(&self.units, rows.lines.len())?;
        let (lines, costs) = (rows.lines.as_slice(), rows.costs.as_slice());
        Lines::with_more(alloc, rows.columns, lines, costs, &more, self.count)
    }

    // Begins with empty lists, so that the lists behind go by the numbers of columns.
    fn begin(&mut self, columns: u32) -> Result<(), NoMemory> {
        for _column in 0..columns {
            self.units.end()?;
        }
        Ok(())
    }

    // Lays the column of each node's arc.
    fn lay(&mut self, outline: &Outline, columns: u32) -> Result<(), NoMemory> {
        let mut first = 0usize;
        for number in 0..outline.nodes.len() {
            if outline.nodes.as_slice()[number].place == 0 {
                first = number;
            }
            match arc_from(outline, number) {
                Some(column) => self.arcs.push(column)?,
                None => {
                    self.arcs.push(columns.wrapping_add(self.count))?;
                    self.push_arc(outline, first, number)?;
                }
            }
        }
        Ok(())
    }

    // Puts down the arc from a node to the next one of its fleet at its station, which begins at a first one: it leaves the one,
    // comes to the other, and counts where it goes round the end of the period.
    fn push_arc(&mut self, outline: &Outline, first: usize, number: usize) -> Result<(), NoMemory> {
        let nodes = outline.nodes.as_slice();
        let base = outline.first_balance_line() as usize;
        let next = number.wrapping_add(1);
        let is_last = next >= nodes.len() || nodes[next].place == 0;
        let to = if is_last { first } else { next };
        if to != number {
            self.units.push(place_of(base.wrapping_add(number)), -1)?;
            self.units.push(place_of(base.wrapping_add(to)), 1)?;
        }
        if is_last && number < nodes.len() {
            let count = base.wrapping_add(nodes.len());
            let fleet = nodes[number].fleet as usize;
            self.units.push(place_of(count.wrapping_add(fleet)), 1)?;
        }
        self.units.end()?;
        self.count = self.count.wrapping_add(1);
        Ok(())
    }
}
