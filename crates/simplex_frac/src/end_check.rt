//! Whether what somebody found is an end of a linear program: dual values and a point that cost the same, or multipliers
//! that refuse all points. Whoever finds it is trusted in nothing, and handed in as an `EndFinder`.

pub mod adding;
pub mod checks;
pub mod finder;
pub mod hint;
pub mod meeting;
pub mod weighing;

pub use checks::{is_end, refuses};
pub use finder::EndFinder;
pub use hint::{Hint, PointHint, RefusalHint};
