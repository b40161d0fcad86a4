use crate::ends::{point_hint, refusal_hint};
use crate::places::start_head;
use basis_factors::fixed_numbers::{Fixed, filled};
use dual_pivots::{Basis, Ended, Limits, Lines, Workspace};
use entries::NoMemory;
use lp_rows::Program;
use simplex_frac::end_check::{EndFinder, Hint};
use std::alloc::Global;

/// The search by the dual simplex method over factors of the basis, in parts of 2^30, whose end is made exact.
pub struct DualSimplex;

impl EndFinder<Program> for DualSimplex {
    /// An end of the lines of a subproblem, where one is found: a cheapest point with its dual values, or multipliers that refuse
    /// all points. Nothing is found with no steps; else at most so many pivots are made after the start, and whatever their
    /// number, no more than a budget of work.
    ///
    /// It is a hint, and trusted in nothing: it is safe and ends, and that is all that is proved of it. The same program is
    /// answered alike each time.
    fn find(alloc: Global, program: &Program, steps: u64) -> Result<Option<Hint>, NoMemory> {
        if steps == 0 {
            return Ok(None);
        }
        let rows = &program.rows;
        let costs = rows.costs.as_slice();
        let Some(lines) = Lines::new(alloc, rows.columns, rows.lines.as_slice(), costs)? else {
            return Ok(None);
        };
        let mut basis = Basis::new(alloc);
        search(alloc, program, &lines, &mut basis, steps)
    }
}

// An end of lines, where one is found.
fn search(
    alloc: Global,
    program: &Program,
    lines: &Lines,
    basis: &mut Basis,
    steps: u64,
) -> Result<Option<Hint>, NoMemory> {
    if !start(alloc, program, lines, basis)? {
        return Ok(None);
    }
    let ended = run(alloc, lines, basis, steps)?;
    told(alloc, lines, basis, ended)
}

// Lays the basis to start from, and answers whether it could be factored.
fn start(
    alloc: Global,
    program: &Program,
    lines: &Lines,
    basis: &mut Basis,
) -> Result<bool, NoMemory> {
    let head = start_head(alloc, program, lines)?;
    let weights = filled(alloc, Fixed::ONE, head.len())?;
    begin(lines, basis, &head, &weights)
}

fn begin(
    lines: &Lines,
    basis: &mut Basis,
    head: &[u32],
    weights: &[Fixed],
) -> Result<bool, NoMemory> {
    basis.begin(lines)?;
    basis.lay(lines, head, weights)
}

// Pivots until there is an end.
fn run(alloc: Global, lines: &Lines, basis: &mut Basis, steps: u64) -> Result<Ended, NoMemory> {
    let mut space = Workspace::new(alloc);
    run_in(lines, basis, &mut space, steps)
}

// The same in a workspace. The first cheapest point is made whole, as far as that goes, before it is told: the pivots after it lead back
// to one if that went wrong.
fn run_in(
    lines: &Lines,
    basis: &mut Basis,
    space: &mut Workspace,
    steps: u64,
) -> Result<Ended, NoMemory> {
    space.begin(lines.count(), lines.column_count())?;
    let ended = run_once(lines, basis, space, steps)?;
    let Ended::Best = ended else {
        return Ok(ended);
    };
    let made = basis.made;
    basis.make_whole(lines, space, steps)?;
    if basis.made == made {
        return Ok(ended);
    }
    run_once(lines, basis, space, steps)
}

// Pivots until there is an end by the costs as they are.
fn run_once(
    lines: &Lines,
    basis: &mut Basis,
    space: &mut Workspace,
    steps: u64,
) -> Result<Ended, NoMemory> {
    let limits = limits(basis, steps);
    let ended = basis.dual(lines, space, limits)?;
    match ended {
        Ended::Best => {
            let limits = self::limits(basis, steps);
            basis.clean(lines, space, limits)
        }
        _ => Ok(ended),
    }
}

// What may be done behind the pivots that were made.
fn limits(basis: &Basis, steps: u64) -> Limits {
    Limits {
        steps: steps.saturating_sub(basis.made),
        cutoff: None,
        may_renew: true,
    }
}

// The hint of an end.
fn told(
    alloc: Global,
    lines: &Lines,
    basis: &Basis,
    ended: Ended,
) -> Result<Option<Hint>, NoMemory> {
    match ended {
        Ended::Best => point_hint(alloc, lines, basis),
        Ended::Refused { column, up } => refusal_hint(alloc, lines, basis, column, up),
        Ended::Cut | Ended::Spent | Ended::Failed => Ok(None),
    }
}
