//! Lines of text, put together from pieces: bytes, and numbers in decimal.
#![tactic(auto)]

pub mod pieces;

pub use pieces::{Piece, line, push_line, push_pieces};
