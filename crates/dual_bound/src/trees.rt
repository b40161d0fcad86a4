ghost use Rattle.std.specs.Prelude.{◌+◌, ◌≤◌};
ghost use Rattle.dual_bound.specs.Dropping.{Exchanged, IsLeaf, load_of};

use crate::mixed::Mixed;
use crate::prices::Prices;
use std::mem;

/// The most trims and splits above a node of a proof that is read.
pub const MAX_DEPTH: usize = 20_000;

/// Why a subproblem stayed open.
#[derive(Drop)]
pub enum Cause {
    /// No more subproblems were allowed; this fractional assignment is the best in it.
    Nodes(Mixed),
    /// Its run was not at an end after all the pivots that are allowed.
    Pivots {
        /// How many pivots were made.
        made: u64,
    },
    /// A number of its run outgrew its limit.
    Grew {
        /// How many pivots were made before.
        pivots: u64,
        /// The row of the number.
        row: u64,
        /// The column of the number.
        column: u64,
    },
    /// A number of its prices or of its fractional assignment outgrew its limit.
    Lift {
        /// The step in which it came up.
        step: u64,
        /// Its place in that step.
        at: u64,
    },
}

/// A proof of a bound: subproblems, each with the reason why no legal assignment in it is cheaper.
pub enum Tree {
    /// This leg keeps no choice, so nothing in the subproblem is legal.
    Bare {
        leg: u32,
    },
    /// Each leg keeps one choice, so nothing but that assignment can be legal.
    Sole,
    /// The prices show that nothing in the subproblem is legal.
    Refuted(Prices),
    /// The prices show that nothing legal in the subproblem is cheaper than the plan.
    Priced(Prices),
    /// The subproblem stayed open; its bound is that of the prices.
    Open(Prices, Cause),
    /// A pair is set aside before the search: what keeps it, and what doesn't.
    Trim {
        /// The leg, by its number.
        leg: u32,
        /// The choice, by its number.
        choice: u32,
        /// The part in which the leg takes the choice.
        yes: Box<Tree>,
        /// The part in which it doesn't.
        no: Box<Tree>,
    },
    /// The subproblem is split by a pair, since its fractional assignment flies it in part.
    Split {
        /// The leg, by its number.
        leg: u32,
        /// The choice, by its number.
        choice: u32,
        /// The prices of the subproblem.
        prices: Prices,
        /// The fractional assignment of the subproblem.
        mixed: Mixed,
        /// The part in which the leg takes the choice.
        yes: Box<Tree>,
        /// The part in which it doesn't.
        no: Box<Tree>,
    },
}

// A loop, so that a deep tree takes none of the stack.
impl Drop for Tree {
    fn drop(mut self) {
        loop {
            match self {
                Tree::Bare { leg: _ } => return,
                Tree::Sole => return,
                Tree::Refuted(_) => return,
                Tree::Priced(_) => return,
                Tree::Open(_, _) => return,
                Tree::Trim {
                    leg: _,
                    choice: _,
                    yes,
                    no,
                } => self = without_parent(yes, no),
                Tree::Split {
                    leg: _,
                    choice: _,
                    prices: _,
                    mixed: _,
                    yes,
                    no,
                } => self = without_parent(yes, no),
            }
        }
    }
}

/// What is left to be dropped of two trees, as one tree: the second, or one that has the parts of both, of which
/// fewer stand below `yes`. It takes no memory.
fn without_parent(yes: Box<Tree>, no: Box<Tree>) -> Tree
    ensures { load_of result ≤ load_of yes.value + load_of yes.value + load_of no.value }
{
    let mut first = yes;
    let mut second = no;
    if exchange(&mut first, &mut second) {
        Tree::Trim {
            leg: 0,
            choice: 0,
            yes: second,
            no: first,
        }
    } else {
        Box::into_inner(first).end_leaf();
        Box::into_inner(second)
    }
}

/// Exchanges the second child of a tree with another tree, and answers whether it has one.
fn exchange(tree: &mut Tree, other: &mut Box<Tree>) -> bool
    ensures { Exchanged tree.old other.old.value tree.new other.new.value result }
{
    match tree {
        Tree::Trim { no, .. } => {
            mem::swap(no, other);
            true
        }
        Tree::Split { no, .. } => {
            mem::swap(no, other);
            true
        }
        _ => false,
    }
}

impl Tree {
    /// Drops a leaf.
    fn end_leaf(self)
        requires { IsLeaf self }
    {
        match self {
            Tree::Bare { leg: _ } => {}
            Tree::Sole => {}
            Tree::Refuted(_) => {}
            Tree::Priced(_) => {}
            Tree::Open(_, _) => {}
            Tree::Trim {
                leg: _,
                choice: _,
                yes: _yes,
                no: _no,
            } => unreachable!(),
            Tree::Split {
                leg: _,
                choice: _,
                prices: _,
                mixed: _,
                yes: _yes,
                no: _no,
            } => unreachable!(),
        }
    }
}

/// How many subproblems of a tree were split, and how many of its leaves are open, by cause. A count stays at its
/// last value, 2^64 - 1, once there.
#[derive(Clone, Copy)]
pub struct TreeCounts {
    /// Subproblems that were split.
    pub splits: u64,
    /// Leaves that are open since no more subproblems were allowed.
    pub open_nodes: u64,
    /// Leaves that are open since no more pivots were allowed.
    pub open_pivots: u64,
    /// Leaves that are open since a number outgrew its limit.
    pub open_grew: u64,
}
