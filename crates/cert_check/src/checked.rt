/// What the checker says of a tree.
#[derive(Clone, Copy)]
pub enum Checked {
    /// Each node keeps each rule.
    Holds {
        /// The tree's bound, in cost units; where there is none, no assignment is legal.
        bound: Option<i128>,
    },
    /// A node breaks a rule.
    Broken {
        /// The first such node, in preorder from 1; it stays at 2^64 - 1 once there.
        node: u64,
        /// The number of the first rule that it breaks.
        rule: u8,
    },
}
