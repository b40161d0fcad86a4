//! Whether a tree has as many splits as it may have.
ghost use Rattle.std.specs.Prelude.{MatchBool, ◌<◌, ◌-◌, ◌^◌};
ghost use Rattle.branch_bound.specs.hinted_trees.Parts.{SpendsSplits};

use dual_bound::Tree;

/// Whether a tree has at most so many splits, and just so many where a leaf is open; and whether each open leaf is open for
/// splits. Takes no memory.
pub(crate) fn spends_splits(tree: &Tree, nodes: u64) -> bool
    requires { nodes < 2 ^ 64 - 1 }
    ensures { MatchBool result (SpendsSplits nodes tree.now) (¬ (SpendsSplits nodes tree.now)) }
{
    let counts = tree.counts();
    if counts.open_pivots > 0 || counts.open_grew > 0 {
        return false;
    }
    if tree.has_open() {
        counts.splits == nodes
    } else {
        counts.splits <= nodes
    }
}
