ghost use Rattle.std.specs.Prelude.{◌≡◌, length, IfOk, OnErr};
ghost use Rattle.row_store.specs.Table.{HasColumns};
ghost use Rattle.simplex_frac.specs.Finished.{IsStarted, IsFinished, IsCutOff, WantsMemory};

use crate::basis::first_basis;
use crate::outcome::End;
use crate::turn::{Turn, next_turn};
use entries::{Entries, NoMemory};
use row_store::{PivotError, RowStore};
use std::alloc::Global;

/// Runs the simplex method as `solve` does, with no budget: no basis comes twice, so the run ends. It begins at the
/// first table of lines whose right sides are at least 0. The store then holds the table that the run has reached;
/// after want of memory it is the first table, or one of the run at which a pivot is due that is not outgrown.
pub fn finish<R: RowStore>(alloc: Global, store: &mut R, columns: u32) -> Result<End, NoMemory>
    requires { IsStarted (R.content store.old) columns }
    ensures finished { IfOk result (IsFinished (R.content store.old) columns (R.content store.new)) }
    ensures shape { HasColumns (R.content store.new) columns }
    ensures height { length (R.content store.new) ≡ length (R.content store.old) }
    ensures stopped { OnErr result (WantsMemory (R.content store.old) columns (R.content store.new)) }
{
    let Ok(mut basis) = first_basis(alloc, columns, store.height()) else {
        return Err(NoMemory);
    };
    let mut made: u64 = 0;
    loop {
        match next_turn(store, basis.as_slice(), columns) {
            Turn::Best => {
                let basis = Entries::from_vec(basis);
                return Ok(End::Best { basis, made });
            }
            Turn::NoPoint => {
                let basis = Entries::from_vec(basis);
                return Ok(End::NoPoint { basis, made });
            }
            Turn::Ray { column } => return Ok(End::Ray { column }),
            Turn::Pivot { row, column } => match store.pivot(row, column) {
                Ok(()) => basis[row as usize] = column,
                Err(error) => return cut_off(error, made),
            },
        }
        made = made.saturating_add(1);
    }
}

/// What comes of a pivot that is refused.
fn cut_off(error: PivotError, made: u64) -> Result<End, NoMemory>
    ensures { IsCutOff error made result }
{
    match error {
        PivotError::Grew { row, column } => Ok(End::Grew {
            pivots: made,
            row,
            column,
        }),
        PivotError::NoMemory => Err(NoMemory),
    }
}
