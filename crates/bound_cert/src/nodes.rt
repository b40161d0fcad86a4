use dual_bound::{Mixed, Prices, Tree};

/// What the first line of a node says, by what follows it.
#[derive(Clone, Copy)]
pub enum Head {
    /// Nothing of the node follows.
    Alone(Alone),
    /// Prices follow.
    Priced(Priced),
    /// Prices and a fractional assignment follow.
    Mixed(Fraction),
}

/// The first line of a node that has no other.
#[derive(Clone, Copy)]
pub enum Alone {
    /// `bare`, of this leg.
    Bare { leg: u32 },
    /// `sole`.
    Sole,
    /// `trim`, of this pair.
    Trim { leg: u32, choice: u32 },
}

/// The first line of a leaf of which prices follow.
#[derive(Clone, Copy)]
pub enum Priced {
    /// `refuted`.
    Refuted,
    /// `priced`.
    Closed,
    /// `open pivots`.
    Pivots { made: u64 },
    /// `open grew`.
    Grew { pivots: u64, row: u64, column: u64 },
    /// `open lift`.
    Lift { step: u64, at: u64 },
}

/// The first line of a node of which prices and a fractional assignment follow.
#[derive(Clone, Copy)]
pub enum Fraction {
    /// `open nodes`.
    Nodes,
    /// `split`, of this pair.
    Split { leg: u32, choice: u32 },
}

/// A trim or a split without its children.
#[derive(Drop)]
pub enum Inner {
    /// A pair is set aside.
    Trim {
        leg: u32,
        choice: u32,
    },
    /// The subproblem is split by a pair.
    Split {
        leg: u32,
        choice: u32,
        prices: Prices,
        mixed: Mixed,
    },
}

/// A trim or a split that waits for children.
#[derive(Drop)]
pub struct Parent {
    /// What it says itself.
    pub inner: Inner,
    /// Its first child, once that is complete.
    pub yes: Option<Tree>,
}

/// A node as a leaf, which is a tree, or as one that waits for children.
#[derive(Drop)]
pub enum Place {
    /// A tree of its own.
    Leaf(Tree),
    /// A trim or a split.
    Inner(Inner),
}
