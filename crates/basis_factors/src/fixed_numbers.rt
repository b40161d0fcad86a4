//! The numbers in which an end is looked for, and lists of whole ones. No operation fails: what doesn't fit becomes some
//! number, since all that is found is checked by others.

pub mod fixed;
pub mod item;
pub mod lists;
pub mod residue;
pub mod scalar;
pub mod units;

pub use fixed::{Fixed, PART_BITS};
pub use item::Item;
pub use lists::{NONE, at, fill, filled, place_of, put, reset};
pub use residue::{MODULUS, Residue};
pub use scalar::Scalar;
pub use units::{Unit, Units};
