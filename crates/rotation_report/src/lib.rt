//! What was made of each fleet's rotation: in words, leg by leg as the records of a file, and date by date as the lines of
//! tails.
#![tactic(auto)]

pub mod flying;
pub mod laws;
mod record_writer;
pub mod records;
pub mod tails;
pub mod text_lines;
mod tour_records;
pub mod words;

pub use euler_rotation::FleetRotation;
pub use flying::FleetLines;
pub use records::rotation_csv;
pub use tails::tail_lines;
pub use words::rotation_words;
