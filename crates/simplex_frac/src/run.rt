ghost use Rattle.std.specs.Prelude.{◌≡◌, length, IfOk, OnErr};
ghost use Rattle.row_store.specs.Table.{HasColumns};
ghost use Rattle.simplex_frac.specs.Bases.{IsSpentEarly};
ghost use Rattle.simplex_frac.specs.Outcomes.{IsOutcome, MayWantMemory};
ghost use Rattle.simplex_frac.specs.Ends.{IsRefused, end_of};

use crate::basis::first_basis;
use crate::outcome::Outcome;
use crate::turn::{Turn, next_turn};
use entries::{Entries, NoMemory};
use row_store::{PivotError, RowStore};
use std::alloc::Global;

/// Runs the simplex method from a first table of so many real columns, with Bland's rule and at most so
/// many pivots. Columns of the identity block never enter. The store then holds the table that the run
/// has reached. From right sides of at least 0 no basis comes twice, so a budget as great as the number of bases is
/// never spent. After want of memory it is the first table, or one of the run at which a pivot is due that is not
/// outgrown.
pub fn solve<R: RowStore>(
    alloc: Global,
    store: &mut R,
    columns: u32,
    pivots: u64,
) -> Result<Outcome, NoMemory>
    requires { HasColumns (R.content store.old) columns }
    ensures outcome { IfOk result (IsOutcome (R.content store.old) columns pivots (R.content store.new)) }
    ensures few { IfOk result (IsSpentEarly (R.content store.old) columns) }
    ensures shape { HasColumns (R.content store.new) columns }
    ensures height { length (R.content store.new) ≡ length (R.content store.old) }
    ensures stopped { OnErr result (MayWantMemory (R.content store.old) columns pivots (R.content store.new)) }
{
    let Ok(mut basis) = first_basis(alloc, columns, store.height()) else {
        return Err(NoMemory);
    };
    for made in 0..pivots {
        let turn = next_turn(store, basis.as_slice(), columns);
        let Turn::Pivot { row, column } = turn else {
            return Ok(end(turn, basis, made));
        };
        match store.pivot(row, column) {
            Ok(()) => basis[row as usize] = column,
            Err(error) => return refused(error, made),
        }
    }
    let turn = next_turn(store, basis.as_slice(), columns);
    Ok(end(turn, basis, pivots))
}

/// How the run ends at a turn: a pivot is one more than the budget allows.
fn end(turn: Turn, basis: Vec<u32>, made: u64) -> Outcome
    ensures { result ≡ end_of turn basis.items made }
{
    let basis = Entries::from_vec(basis);
    match turn {
        Turn::Best => Outcome::Best { basis, made },
        Turn::NoPoint => Outcome::NoPoint { basis, made },
        Turn::Ray { column } => Outcome::Ray { column },
        Turn::Pivot { .. } => Outcome::Spent { pivots: made },
    }
}

/// What comes of a pivot that is refused.
fn refused(error: PivotError, made: u64) -> Result<Outcome, NoMemory>
    ensures { IsRefused error made result }
{
    match error {
        PivotError::Grew { row, column } => Ok(Outcome::Grew {
            pivots: made,
            row,
            column,
        }),
        PivotError::NoMemory => Err(NoMemory),
    }
}
