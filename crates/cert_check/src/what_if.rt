/// What a tree says of the tables with another number of aircraft of one fleet.
#[derive(Clone, Copy)]
pub enum WhatIf {
    /// By a refuted leaf's prices something may be legal there, so the tree proves nothing.
    Fallen {
        /// The first such node, in preorder from 1; it stays at 2^64 - 1 once there.
        node: u64,
    },
    /// No assignment is legal.
    NoPlan,
    /// Each legal assignment costs at least so much, in cost units.
    Bound(i128),
}
