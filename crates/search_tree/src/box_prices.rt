//! Prices of subproblems by dual values of their lines: made proper, what they are worth, and their text.

pub mod priced_lines;
pub mod proper;
pub mod text_lines;
pub mod texts;
pub mod worths;

pub use priced_lines::{Place, PricedLines, arc_from};
pub use proper::make_proper;
pub use texts::{push_duals, push_weights};
pub use worths::worth;
