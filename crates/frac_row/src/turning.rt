ghost use Rattle.std.specs.Prelude.{◌≡◌, ℕ, neg_ℤ, map};
ghost use Rattle.frac_row.specs.Outgrown.{IsWithin};
ghost use Rattle.frac_row.specs.Row.{IsRow};
ghost use Rattle.frac_row.specs.Content.{number_at, turned_entry};

use crate::entry::Entry;
use crate::sparse_row::SparseRow;

/// Turns the sign of all numbers of a row. Takes no memory.
pub fn turn(row: &mut SparseRow)
    requires { IsRow row.old }
    ensures { row.new ≡ record { numbers = map neg_ℤ row.old.numbers; den = row.old.den } }
{
    turn_entries(&mut row.entries);
}

fn turn_entries(entries: &mut Vec<Entry>)
    requires { (k : ℕ) → IsWithin (number_at entries.old.items k) }
    ensures { entries.new.items ≡ map turned_entry entries.old.items }
{
    for place in 0..entries.len() {
        entries[place] = Entry {
            column: entries[place].column,
            number: -entries[place].number,
        };
    }
}
