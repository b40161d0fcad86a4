//! The choices that a leg keeps, a bit each.
ghost use Rattle.std.specs.Prelude.{◌≡◌, ◌<◌, ◌≤◌, ◌+◌, length};
ghost use Rattle.fleet_model.specs.declared.limits.TheConstants.{MAX_CHOICES};
ghost use Rattle.fleet_model.specs.Bits.{IsWritten, bits_in, number_of_bits};

use crate::limits::MAX_CHOICES;
use std::marker::Model;

/// How many bits the first two numbers of a saved row hold, and the third.
const BITS: u32 = 61;

const LAST_BITS: u32 = MAX_CHOICES as u32 - 2 * BITS;

/// A row of kept choices, a bit each, so that a deep recursion can hold one at each level. Contracts see the list.
#[derive(Drop)]
pub(crate) struct SavedRow {
    first: u64,
    second: u64,
    third: u64,
}

impl Model for SavedRow {
    ghost use Rattle.std.specs.Prelude.{Bool, List, ◌++◌};
    ghost use Rattle.fleet_model.specs.Bits.{bits_in};

    ghost Value = { List Bool };

    ghost view = { λ saved. bits_in 61 saved.first ++ (bits_in 61 saved.second ++ bits_in 59 saved.third) };
}

impl SavedRow {
    /// A row of kept choices.
    pub(crate) fn of(row: &[bool; MAX_CHOICES]) -> Self
        ensures { result ≡ row.now }
    {
        SavedRow {
            first: number_of(row, 0, BITS),
            second: number_of(row, BITS, BITS),
            third: number_of(row, 2 * BITS, LAST_BITS),
        }
    }

    /// The row once more.
    pub(crate) fn row(&self) -> [bool; MAX_CHOICES]
        ensures { result ≡ self.now }
    {
        let mut row = [false; MAX_CHOICES];
        write_bits(&mut row, 0, BITS, self.first);
        write_bits(&mut row, BITS, BITS, self.second);
        write_bits(&mut row, 2 * BITS, LAST_BITS, self.third);
        row
    }
}

/// The number whose bits are so many choices of a row, from the first of them on.
fn number_of(row: &[bool; MAX_CHOICES], first: u32, count: u32) -> u64
    requires within { first + count ≤ MAX_CHOICES }
    requires few { count ≤ 61 }
    ensures { result ≡ number_of_bits row.now first count }
{
    let mut number = 0;
    for place in 0..count {
        number = 2 * number + u64::from(row[(first + place) as usize]);
    }
    number
}

/// Writes the bits of a number into a row, from a choice on.
fn write_bits(row: &mut [bool; MAX_CHOICES], first: u32, count: u32, number: u64)
    requires { first + count ≤ MAX_CHOICES }
    ensures { IsWritten row.old row.new first count (bits_in count number) }
{
    if count == 0 {
        return;
    }
    row[(first + count - 1) as usize] = number % 2 == 1;
    write_bits(row, first, count - 1, number / 2);
}
