ghost use Rattle.std.specs.Prelude.{◌≡◌};
ghost use Rattle.simplex_frac.specs.Ends.{outcome_of};

use entries::Entries;

/// How a run ended.
#[derive(Drop)]
pub enum Outcome {
    /// The last table's basic point is a cheapest one; its basic columns, line by line.
    Best { basis: Entries<u32>, made: u64 },
    /// No point meets the lines.
    NoPoint { basis: Entries<u32>, made: u64 },
    /// The entering column has no positive number in any line, so points go on without end along it.
    Ray { column: u32 },
    /// The budget of pivots is spent at a table that is no end.
    Spent { pivots: u64 },
    /// The next pivot is outgrown, first at this place of the table.
    Grew { pivots: u64, row: u32, column: u32 },
}

/// How a run without a budget ended. Pivots are counted up to 2^64 - 1.
#[derive(Drop)]
pub enum End {
    /// The last table's basic point is a cheapest one; its basic columns, line by line.
    Best { basis: Entries<u32>, made: u64 },
    /// No point meets the lines.
    NoPoint { basis: Entries<u32>, made: u64 },
    /// The entering column has no positive number in any line, so points go on without end along it.
    Ray { column: u32 },
    /// The next pivot is outgrown, first at this place of the table.
    Grew { pivots: u64, row: u32, column: u32 },
}

impl From<End> for Outcome {
    ghost from_gives = { λ end outcome. outcome ≡ outcome_of end };

    fn from(end: End) -> Outcome {
        match end {
            End::Best { basis, made } => Outcome::Best { basis, made },
            End::NoPoint { basis, made } => Outcome::NoPoint { basis, made },
            End::Ray { column } => Outcome::Ray { column },
            End::Grew {
                pivots,
                row,
                column,
            } => Outcome::Grew {
                pivots,
                row,
                column,
            },
        }
    }
}
