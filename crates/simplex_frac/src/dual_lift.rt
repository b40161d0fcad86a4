//! What the last table of a run over a problem says of its lines: their dual values, in lowest terms, and the least scale
//! of its basic point, with the parts of it that columns have.

pub mod error;
pub mod lowest_terms;
pub mod mixture;
pub mod numbers;
pub mod parts;
pub mod reading;
pub mod rows;
pub mod scales;
pub mod values;

pub use error::{Excess, LiftError};
pub use lowest_terms::{Limits, fits, lowest};
pub use mixture::Mixture;
pub use parts::column_parts;
pub use reading::Reading;
pub use scales::least_scale;
pub use values::duals;
