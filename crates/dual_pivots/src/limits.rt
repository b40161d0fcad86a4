/// What a run may do.
#[derive(Clone, Copy)]
pub struct Limits {
    /// How many pivots it may make.
    pub steps: u64,
    /// From which value on it need not go on, in parts.
    pub cutoff: Option<i128>,
    /// Whether the basis may be factored anew.
    pub may_renew: bool,
}

/// How a run ended.
#[derive(Clone, Copy)]
pub enum Ended {
    /// No column is below 0 or, where it is held, above it, and none costs less than it weighs, as far as the parts tell.
    Best,
    /// No column can bring this basic one down to 0, or where it isn't `up`, up to it.
    Refused { column: u32, up: bool },
    /// The value has come to the cut-off.
    Cut,
    /// A pivot or a factoring was wanted that may not be made.
    Spent,
    /// Too many pivots were unstable, or no basis could be made.
    Failed,
}
