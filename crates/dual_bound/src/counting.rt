//! The splits and the open leaves of a tree.
ghost use Rattle.std.specs.Prelude.{◌≡◌, ◌+◌, suc};
ghost use Rattle.dual_bound.specs.Leaves.{by_grew, by_nodes, by_pivots, counts_of, has_open, held_count, open_grew, open_nodes, open_pivots, splits_in};

use crate::trees::{Cause, Tree, TreeCounts};

impl Tree {
    /// The splits and the open leaves. A trim is no split. Takes no memory.
    pub fn counts(&self) -> TreeCounts
        ensures { result ≡ counts_of self.now }
    {
        let none = TreeCounts {
            splits: 0,
            open_nodes: 0,
            open_pivots: 0,
            open_grew: 0,
        };
        count(self, none)
    }

    /// Whether a leaf is open. Takes no memory.
    pub fn has_open(&self) -> bool
        ensures { result ≡ has_open self.now }
    {
        match self {
            Tree::Bare { .. } | Tree::Sole | Tree::Refuted(_) | Tree::Priced(_) => false,
            Tree::Open(..) => true,
            Tree::Trim { yes, no, .. } | Tree::Split { yes, no, .. } => {
                yes.has_open() || no.has_open()
            }
        }
    }
}

/// The counts so far, and those of a tree.
fn count(tree: &Tree, so_far: TreeCounts) -> TreeCounts
    ensures splits { result.splits ≡ held_count (so_far.splits + splits_in tree.now) }
    ensures nodes { result.open_nodes ≡ held_count (so_far.open_nodes + open_nodes tree.now) }
    ensures pivots { result.open_pivots ≡ held_count (so_far.open_pivots + open_pivots tree.now) }
    ensures grew { result.open_grew ≡ held_count (so_far.open_grew + open_grew tree.now) }
{
    match tree {
        Tree::Bare { .. } | Tree::Sole | Tree::Refuted(_) | Tree::Priced(_) => so_far,
        Tree::Open(_, cause) => count_open(cause, so_far),
        Tree::Trim { yes, no, .. } => count(no, count(yes, so_far)),
        Tree::Split { yes, no, .. } => count(no, count(yes, one_split(so_far))),
    }
}

/// One split more.
fn one_split(so_far: TreeCounts) -> TreeCounts
    ensures splits { result.splits ≡ held_count (suc so_far.splits) }
    ensures nodes { result.open_nodes ≡ so_far.open_nodes }
    ensures pivots { result.open_pivots ≡ so_far.open_pivots }
    ensures grew { result.open_grew ≡ so_far.open_grew }
{
    TreeCounts {
        splits: so_far.splits.saturating_add(1),
        ..so_far
    }
}

/// One open leaf more.
fn count_open(cause: &Cause, so_far: TreeCounts) -> TreeCounts
    ensures splits { result.splits ≡ so_far.splits }
    ensures nodes { result.open_nodes ≡ held_count (so_far.open_nodes + by_nodes cause.now) }
    ensures pivots { result.open_pivots ≡ held_count (so_far.open_pivots + by_pivots cause.now) }
    ensures grew { result.open_grew ≡ held_count (so_far.open_grew + by_grew cause.now) }
{
    match cause {
        Cause::Nodes(_) => TreeCounts {
            open_nodes: so_far.open_nodes.saturating_add(1),
            ..so_far
        },
        Cause::Pivots { .. } => TreeCounts {
            open_pivots: so_far.open_pivots.saturating_add(1),
            ..so_far
        },
        Cause::Grew { .. } | Cause::Lift { .. } => TreeCounts {
            open_grew: so_far.open_grew.saturating_add(1),
            ..so_far
        },
    }
}
