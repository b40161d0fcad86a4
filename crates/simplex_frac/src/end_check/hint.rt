//! What somebody says that lines end with.
use entries::Entries;

/// An end that somebody found.
#[derive(Drop)]
pub enum Hint {
    /// A cheapest point.
    Point(PointHint),
    /// That no point meets the lines.
    Refusal(RefusalHint),
}

/// Dual values of the lines, and a point that is said to cost what their right sides weigh.
#[derive(Drop)]
pub struct PointHint {
    /// A dual value for each line, and no more, over their scale.
    pub duals: Entries<i128>,
    pub dual_scale: i128,
    /// A part of the scale for each real column, and no more.
    pub point: Entries<u64>,
    pub scale: u64,
}

/// Multipliers of the lines, which are said to weigh no column above 0, and the right sides above 0.
#[derive(Drop)]
pub struct RefusalHint {
    /// One for each line, and no more.
    pub multipliers: Entries<i128>,
}
