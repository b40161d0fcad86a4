use crate::fractions::Ratios;
use crate::modular::{Modular, Way};
use basis_factors::fixed_numbers::{at, filled, put};
use dual_pivots::{Basis, Lines};
use entries::{Entries, NoMemory};
use simplex_frac::end_check::{Hint, PointHint, RefusalHint};
use std::alloc::Global;
use std::mem;

/// What a basis stands for, exactly.
#[derive(Drop)]
pub struct ExactEnd {
    /// The basic columns, by the lines of their pivots.
    pub head: Vec<u32>,
    /// What they come to.
    pub point: Ratios,
    /// The dual values of the lines.
    pub duals: Ratios,
}

/// What the basis of these columns stands for, where it is one and its numbers fit.
pub fn exact_end(alloc: Global, lines: &Lines, head: &[u32]) -> Result<Option<ExactEnd>, NoMemory> {
    match Modular::new(alloc, &lines.columns, head)? {
        Some(mut modular) => end_of(alloc, lines, &mut modular),
        None => Ok(None),
    }
}

// The end of a basis, which gives its columns away.
fn end_of(
    alloc: Global,
    lines: &Lines,
    modular: &mut Modular,
) -> Result<Option<ExactEnd>, NoMemory> {
    let Some(point) = point_of(alloc, lines, modular)? else {
        return Ok(None);
    };
    let Some(duals) = duals_of(alloc, lines, modular)? else {
        return Ok(None);
    };
    let head = mem::replace(&mut modular.head, Vec::new(alloc));
    Ok(Some(ExactEnd { head, point, duals }))
}

// What the basic columns come to.
fn point_of(
    alloc: Global,
    lines: &Lines,
    modular: &mut Modular,
) -> Result<Option<Ratios>, NoMemory> {
    let rights = rights(alloc, lines)?;
    modular.solved(alloc, &lines.columns, Way::Point, &rights)
}

// The dual values of the lines.
fn duals_of(
    alloc: Global,
    lines: &Lines,
    modular: &mut Modular,
) -> Result<Option<Ratios>, NoMemory> {
    let costs = costs(alloc, lines, &modular.head)?;
    modular.solved(alloc, &lines.columns, Way::Duals, &costs)
}

/// The cheapest point that a basis stands for, with its dual values, where its numbers fit.
pub(crate) fn point_hint(
    alloc: Global,
    lines: &Lines,
    basis: &Basis,
) -> Result<Option<Hint>, NoMemory> {
    match exact_end(alloc, lines, &basis.head)? {
        Some(end) => hint_of(alloc, lines, end),
        None => Ok(None),
    }
}

// The right sides.
fn rights(alloc: Global, lines: &Lines) -> Result<Vec<i128>, NoMemory> {
    let mut rights = Vec::new(alloc);
    for right in &lines.right {
        rights.push(i128::from(*right))?;
    }
    Ok(rights)
}

// What basic columns cost.
fn costs(alloc: Global, lines: &Lines, head: &[u32]) -> Result<Vec<i128>, NoMemory> {
    let mut costs = Vec::new(alloc);
    for column in head {
        costs.push(at(&lines.costs, *column as usize, 0))?;
    }
    Ok(costs)
}

// The hint of an end, where each number fits.
fn hint_of(alloc: Global, lines: &Lines, end: ExactEnd) -> Result<Option<Hint>, NoMemory> {
    let ExactEnd { head, point, duals } = end;
    let Ok(scale) = u64::try_from(point.den) else {
        return Ok(None);
    };
    let mut numbers = filled(alloc, 0, lines.column_count())?;
    if !lay(&head, &point.numbers, numbers.as_mut_slice()) {
        return Ok(None);
    }
    Ok(Some(Hint::Point(PointHint {
        duals: Entries::from_vec(duals.numbers),
        dual_scale: duals.den,
        point: Entries::from_vec(numbers),
        scale,
    })))
}

// Lays numbers by their columns, and answers whether all fit.
fn lay(head: &[u32], numbers: &[i128], point: &mut [u64]) -> bool {
    for line in 0..head.len() {
        let Ok(number) = u64::try_from(at(numbers, line, 0)) else {
            return false;
        };
        put(point, head[line] as usize, number);
    }
    true
}

/// The multipliers by which the row of a basic column refuses all points, where they fit.
pub(crate) fn refusal_hint(
    alloc: Global,
    lines: &Lines,
    basis: &Basis,
    column: u32,
    up: bool,
) -> Result<Option<Hint>, NoMemory> {
    match Modular::new(alloc, &lines.columns, &basis.head)? {
        Some(mut modular) => refusal_of(alloc, lines, &mut modular, column, up),
        None => Ok(None),
    }
}

fn refusal_of(
    alloc: Global,
    lines: &Lines,
    modular: &mut Modular,
    column: u32,
    up: bool,
) -> Result<Option<Hint>, NoMemory> {
    let unit = unit_of(alloc, &modular.head, column, up)?;
    let Some(ratios) = modular.solved(alloc, &lines.columns, Way::Duals, &unit)? else {
        return Ok(None);
    };
    Ok(Some(Hint::Refusal(RefusalHint {
        multipliers: Entries::from_vec(ratios.numbers),
    })))
}

// 1 at the line of a column, or -1 where that isn't to come down.
fn unit_of(alloc: Global, head: &[u32], column: u32, up: bool) -> Result<Vec<i128>, NoMemory> {
    let mut unit = filled(alloc, 0, head.len())?;
    for line in 0..head.len() {
        if head[line] == column {
            put(unit.as_mut_slice(), line, if up { 1 } else { -1 });
        }
    }
    Ok(unit)
}
