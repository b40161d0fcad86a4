ghost use Rattle.std.specs.Prelude.{◌≡◌, length};
ghost use Rattle.row_store.specs.Table.{HasColumns, height_of};
ghost use Rattle.simplex_frac.specs.declared.turn.Turn.{Turn};
ghost use Rattle.simplex_frac.specs.Run.{turn};

use row_store::RowStore;

/// What the run does at a table.
#[derive(Clone, Copy)]
pub enum Turn {
    /// No column improves, and the lines are met.
    Best,
    /// No column improves, and the lines are not met.
    NoPoint,
    /// The entering column has no positive number in any line.
    Ray { column: u32 },
    Pivot { row: u32, column: u32 },
}

/// Bland's rule: the least improving column enters, and of the lines with the least ratio the one with
/// the least basic column leaves.
pub fn next_turn<R: RowStore>(store: &R, basis: &[u32], columns: u32) -> Turn
    requires columns { HasColumns (R.content store.now) columns }
    requires basis { length basis.now ≡ height_of (R.content store.now) }
    ensures { result ≡ turn (record { table = R.content store.now; basis = basis.now }) columns }
{
    let height = store.height();
    let right_side = columns + height;
    match store.entering(columns) {
        None if store.number(height, right_side) == 0 => Turn::Best,
        None => Turn::NoPoint,
        Some(column) => match store.leaving(basis, column, right_side) {
            None => Turn::Ray { column },
            Some(row) => Turn::Pivot { row, column },
        },
    }
}
