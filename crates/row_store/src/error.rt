ghost use Rattle.std.specs.Prelude.{◌≡◌, option_map};

use frac_row::Growth;
use thiserror::Error;

/// A place of a table. The denominator stands in the column after the right side.
#[derive(Clone, Copy)]
pub struct Place {
    pub row: u32,
    pub column: u32,
}

/// The place of what is outgrown in a row.
pub fn place_in(row: u32, growth: Option<Growth>) -> Option<Place>
    ensures { result ≡ option_map (λ growth. record { row = row; column = growth.column }) growth }
{
    let column = growth?.column;
    Some(Place { row, column })
}

/// Why a pivot was refused.
#[derive(Clone, Copy, Debug, Error)]
pub enum PivotError {
    /// A product or difference is outgrown, first at this place.
    #[error("outgrown at row {row}, column {column}")]
    Grew { row: u32, column: u32 },
    #[error("out of memory")]
    NoMemory,
}
