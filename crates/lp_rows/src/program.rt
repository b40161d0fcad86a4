ghost use Rattle.std.specs.Prelude.{◌≡◌, ◌+◌, ◌<◌, ◌^◌, All, length, map, IfOk};
ghost use Rattle.fleet_model.specs.Kept.{kept_by};
ghost use Rattle.row_store.specs.Problem.{IsProblem};
ghost use Rattle.lp_rows.specs.Entries.{IsColumn, IsLine, column_cost};
ghost use Rattle.lp_rows.specs.Meeting.{meets_at, touched_by};
ghost use Rattle.lp_rows.specs.Layout.{AreByStation, starts_in};
ghost use Rattle.lp_rows.specs.Points.{AreLinesOf};
ghost use Rattle.lp_rows.specs.Outline.{IsOutline, columns_in, lines_in};
ghost use Rattle.lp_rows.specs.Program.{AreOutlinedRows, AreRows, line_numbers};
ghost use Rattle.lp_rows.specs.Staying.{passing_below};

use crate::entry::{column_cost, entry, right_side};
use crate::kinds::{Column, Line};
use crate::layout::{columns, lines};
use crate::meeting::{Met, Touched, all_touched};
use crate::network::Network;
use crate::outline::Outline;
use entries::{Entries, NoMemory};
use fleet_model::{Kept, Tables};
use frac_row::SparseRow;
use row_store::Rows;
use std::alloc::Global;

/// The linear program of a subproblem: what stands where, and the lines over its kept pairs, the ground arcs of its
/// network, a slack for each fleet and a room for each day of a station with a limit, with their right sides, and what the
/// columns cost.
#[derive(Drop)]
pub struct Program {
    pub outline: Outline,
    pub rows: Rows,
}

impl Program {
    /// The linear program of the subproblem of the kept pairs.
    ///
    /// The points of its lines are the mixed plans of the subproblem, both ways, at the same cost, and they meet what a
    /// store of tables asks for (`IsProblem`). The lines hold their numbers other than 0.
    pub fn new(alloc: Global, tables: &Tables, kept: &Kept) -> Result<Program, NoMemory>
        ensures outline { IfOk result (λ program. IsOutline tables.now (kept_by kept.now) program.outline) }
        ensures rows { IfOk result (λ program. AreRows tables.now (kept_by kept.now) (starts_in program.outline.network) program.rows) }
        ensures lines { IfOk result (λ program. AreLinesOf tables.now (kept_by kept.now) program.rows) }
        ensures problem { IfOk result (λ program. IsProblem program.rows) }
    {
        let outline = Outline::new(alloc, tables, kept)?;
        let rows = outlined_rows(alloc, tables, &outline)?;
        Ok(Program { outline, rows })
    }
}

/// The lines of a subproblem, with what its columns cost: those of its linear program.
pub fn rows(alloc: Global, tables: &Tables, kept: &Kept) -> Result<Rows, NoMemory>
    ensures lines { IfOk result (AreLinesOf tables.now (kept_by kept.now)) }
    ensures problem { IfOk result IsProblem }
{
    let program = Program::new(alloc, tables, kept)?;
    Ok(program.rows)
}

// The lines and costs of an outline.
fn outlined_rows(alloc: Global, tables: &Tables, outline: &Outline) -> Result<Rows, NoMemory>
    requires shape { AreByStation tables.now outline.now.network }
    requires columns { All (IsColumn tables.now (starts_in outline.now.network)) (columns_in outline.now) }
    requires few { length (columns_in outline.now) + 1 < 2 ^ 32 }
    requires lines { All (IsLine tables.now (starts_in outline.now.network)) (lines_in outline.now) }
    ensures { IfOk result (AreOutlinedRows tables.now outline.now) }
{
    let columns = columns(alloc, outline)?;
    let lines = lines(alloc, outline)?;
    let touched = all_touched(alloc, tables, &columns)?;
    let numbers = all_numbers(alloc, tables, &outline.network, &columns, &touched, &lines)?;
    let costs = all_costs(alloc, tables, &columns)?;
    Ok(Rows {
        columns: outline.column_count(),
        lines: numbers,
        costs,
    })
}

// The numbers of all lines.
fn all_numbers(
    alloc: Global,
    tables: &Tables,
    network: &Network,
    columns: &[Column],
    touched: &[Touched],
    lines: &[Line],
) -> Result<Entries<row_store::Line>, NoMemory>
    requires shape { AreByStation tables.now network.now }
    requires columns { All (IsColumn tables.now (starts_in network.now)) columns.now }
    requires touched { touched.now ≡ map (touched_by tables.now) columns.now }
    requires few { length columns.now + 1 < 2 ^ 32 }
    requires lines { All (IsLine tables.now (starts_in network.now)) lines.now }
    ensures { IfOk result (λ rows. rows ≡ map (line_numbers tables.now (starts_in network.now) columns.now) lines.now) }
{
    let mut met = Met::of(alloc, Line::Cover { leg: 0 }, touched)?;
    let mut rows = Vec::new(alloc);
    for line in lines {
        met = met.turned_to(alloc, *line, touched)?;
        let numbers = line_numbers(
            alloc,
            tables,
            network,
            columns,
            met.columns.as_slice(),
            *line,
        )?;
        rows.push(row_store::Line::from_row(numbers))?;
    }
    Ok(Entries::from_vec(rows))
}

// The numbers of a line, and then its right side; those that are 0 are left out. Only the columns that it meets are looked at.
fn line_numbers(
    alloc: Global,
    tables: &Tables,
    network: &Network,
    columns: &[Column],
    met: &[u32],
    line: Line,
) -> Result<SparseRow, NoMemory>
    requires shape { AreByStation tables.now network.now }
    requires columns { All (IsColumn tables.now (starts_in network.now)) columns.now }
    requires met { met.now ≡ passing_below (meets_at (map (touched_by tables.now) columns.now) line) (length columns.now) }
    requires few { length columns.now + 1 < 2 ^ 32 }
    requires line { IsLine tables.now (starts_in network.now) line }
    ensures { IfOk result (λ row. row.numbers ≡ line_numbers tables.now (starts_in network.now) columns.now line) }
{
    let right = columns.len() as u32;
    let mut row = SparseRow::zeros(alloc, right + 1);
    for column in met {
        row.put(
            *column,
            entry(tables, network, line, columns[*column as usize]),
        )?;
    }
    row.put(right, right_side(tables, network, line))?;
    Ok(row)
}

// The costs of all columns.
fn all_costs(alloc: Global, tables: &Tables, columns: &[Column]) -> Result<Entries<i128>, NoMemory>
    ensures { IfOk result (λ costs. costs ≡ map (column_cost tables.now) columns.now) }
{
    let mut costs = Vec::new(alloc);
    for column in columns {
        costs.push(column_cost(tables, *column))?;
    }
    Ok(Entries::from_vec(costs))
}
