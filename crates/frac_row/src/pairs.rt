ghost use Rattle.std.specs.Prelude.{◌≡◌, ◌+◌, ◌<◌, [], ◌∷◌, length, pos, MatchOption};
ghost use Rattle.frac_row.specs.Pairs.{pairs_of};

use crate::entry::Entry;

/// What two rows have in a column.
#[derive(Clone, Copy)]
pub struct Pair {
    pub column: u32,
    pub number: i128,
    pub pivot_number: i128,
}

/// What is left of two rows that are read side by side.
#[derive(Clone, Copy)]
pub struct Pairs<'a> {
    pub row: &'a [Entry],
    pub pivot_row: &'a [Entry],
}

impl Pairs<'_> {
    /// The next column in which either row has a number, or none where none is left, before and after.
    #[inline(always)]
    pub fn next(&mut self) -> Option<Pair>
        ensures { MatchOption result ((pairs_of self.old.row.now self.old.pivot_row.now ≡ []) × (pairs_of self.new.row.now self.new.pivot_row.now ≡ [])) (λ pair. (pairs_of self.old.row.now self.old.pivot_row.now ≡ pair ∷ pairs_of self.new.row.now self.new.pivot_row.now) × (length self.new.row.now + length self.new.pivot_row.now < length self.old.row.now + length self.old.pivot_row.now)) }
    {
        match (self.row.split_first(), self.pivot_row.split_first()) {
            (None, None) => None,
            (Some((x, rest)), None) => {
                self.row = rest;
                Some(first_alone(x))
            }
            (None, Some((y, rest))) => {
                self.pivot_row = rest;
                Some(second_alone(y))
            }
            (Some((x, row)), Some((y, pivot_row))) => {
                if x.column < y.column {
                    self.row = row;
                    return Some(first_alone(x));
                }
                if y.column < x.column {
                    self.pivot_row = pivot_row;
                    return Some(second_alone(y));
                }
                self.row = row;
                self.pivot_row = pivot_row;
                Some(Pair {
                    column: x.column,
                    number: x.number,
                    pivot_number: y.number,
                })
            }
        }
    }
}

#[inline(always)]
fn first_alone(entry: &Entry) -> Pair
    ensures { result ≡ record { column = entry.now.column; number = entry.now.number; pivot_number = pos 0 } }
{
    Pair {
        column: entry.column,
        number: entry.number,
        pivot_number: 0,
    }
}

#[inline(always)]
fn second_alone(entry: &Entry) -> Pair
    ensures { result ≡ record { column = entry.now.column; number = pos 0; pivot_number = entry.now.number } }
{
    Pair {
        column: entry.column,
        number: 0,
        pivot_number: entry.number,
    }
}
