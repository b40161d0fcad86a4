ghost use Rattle.std.specs.Prelude.{◌≡◌, ◌<◌, ◌^◌, [], ◌∷◌, length, MatchOption};
ghost use Rattle.frac_row.specs.Lines.{numbered};

use crate::entry::Entry;
use std::marker::Model;

/// The numbers of a line that are still to be read. Contracts see them with their columns.
#[derive(Drop)]
pub struct Numbers<'a> {
    /// The column of the first one of `full`.
    from: u32,
    full: &'a [i128],
    /// What comes behind them.
    entries: &'a [Entry],
}

impl<'a> Model for Numbers<'a> {
    ghost use Rattle.std.specs.Prelude.{List, ◌+◌, ◌<◌, ◌^◌, ◌++◌, length};
    ghost use Rattle.frac_row.specs.declared.entry.Entry.{Entry};
    ghost use Rattle.frac_row.specs.Lines.{numbered};

    ghost Value = { List Entry };

    ghost view = { λ left. numbered left.from left.full.now ++ left.entries.now };

    ghost invariant = { λ left. left.from + length left.full.now < 2 ^ 32 };
}

impl<'a> Numbers<'a> {
    /// All numbers of a slice.
    pub fn of_slice(numbers: &'a [i128]) -> Numbers<'a>
        requires { length numbers.now < 2 ^ 32 }
        ensures { result ≡ numbered 0 numbers.now }
    {
        Numbers {
            from: 0,
            full: numbers,
            entries: &[],
        }
    }

    /// The numbers of a list of entries.
    pub fn of_entries(entries: &'a [Entry]) -> Numbers<'a>
        ensures { result ≡ entries.now }
    {
        Numbers {
            from: 0,
            full: &[],
            entries,
        }
    }

    /// The next number, or none where none is left, before and after.
    #[inline(always)]
    pub fn next(&mut self) -> Option<Entry>
        ensures { MatchOption result ((self.old ≡ []) × (self.new ≡ [])) (λ entry. self.old ≡ entry ∷ self.new) }
    {
        if let Some((number, rest)) = self.full.split_first() {
            let column = self.from;
            self.from += 1;
            self.full = rest;
            return Some(Entry {
                column,
                number: *number,
            });
        }
        let (entry, rest) = self.entries.split_first()?;
        self.entries = rest;
        Some(*entry)
    }
}
