use crate::mixed::Mixed;
use crate::prices::Prices;
use crate::trees::Cause;

/// A node of a tree without its children.
#[derive(Drop)]
pub enum Node {
    /// A leaf: this leg keeps no choice.
    Bare {
        leg: u32,
    },
    /// A leaf: each leg keeps one choice.
    Sole,
    /// A leaf that prices refute.
    Refuted(Prices),
    /// A leaf that prices close.
    Priced(Prices),
    /// A leaf that stayed open.
    Open(Prices, Cause),
    /// A pair is set aside.
    Trim {
        leg: u32,
        choice: u32,
    },
    /// The subproblem is split by a pair.
    Split {
        leg: u32,
        choice: u32,
        prices: Prices,
        mixed: Mixed,
    },
}
