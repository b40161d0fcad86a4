//! The way back from a free column to the root of the tree.
ghost use Rattle.std.specs.Prelude.{◌≡◌, ◌≢◌, ◌<◌, length};
ghost use Rattle.plan_rotations.specs.best_matching.Drafts.{IsPairing, column_of};
ghost use Rattle.plan_rotations.specs.best_matching.Trees.{HasSize, IsOnTree, IsTurned, IsWay, from_at};

use crate::best_matching::draft::{Draft, exchange};
use crate::best_matching::tree::Tree;

/// Gives each column on the way from a row's column to the root to the row that it was reached from. The row that the
/// way began at is left with the column that the root had.
pub fn walk_back(draft: &mut Draft, tree: &Tree, root: usize, free: usize)
    requires pairing { IsPairing (length draft.old.columns) draft.old }
    requires size { HasSize (length draft.old.columns) tree.now }
    requires root { root < length draft.old.columns }
    requires free { free < length draft.old.columns }
    requires way { IsWay (length draft.old.columns) draft.old tree.now root free }
    ensures pairing { IsPairing (length draft.old.columns) draft.new }
    ensures turned { IsTurned (length draft.old.columns) draft.old draft.new tree.now free }
    ensures root { IsOnTree (length draft.old.columns) draft.new tree.now root }
    ensures free { free ≢ root → column_of draft.new free ≡ column_of draft.old root }
    ensures row_duals { draft.new.row_duals ≡ draft.old.row_duals }
    ensures column_duals { draft.new.column_duals ≡ draft.old.column_duals }
{
    let mut before = row_before(draft, tree, free);
    while before != root {
        exchange(draft, free, before);
        before = row_before(draft, tree, free);
    }
    exchange(draft, free, root);
}

/// The row that a row's column was reached from.
fn row_before(draft: &Draft, tree: &Tree, row: usize) -> usize
    requires row { row < length draft.now.columns }
    requires column { column_of draft.now row < length tree.now.from }
    ensures { result ≡ from_at tree.now (column_of draft.now row) }
{
    tree.from.as_slice()[draft.columns.as_slice()[row]]
}
