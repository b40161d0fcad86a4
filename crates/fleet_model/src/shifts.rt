//! The times at which a leg may depart.
ghost use Rattle.std.specs.Prelude.{◌≡◌, ◌≤◌, ◌<◌, ◌++◌, [], ◌∷◌, length, IsTrue, ◌↔◌, pos, int_lt};
ghost use Rattle.fleet_model.specs.declared.limits.TheConstants.{MAX_SHIFTS};
ghost use Rattle.fleet_model.specs.Windows.{own_shift, own_slot};

use crate::limits::MAX_SHIFTS;
use std::marker::Model;

/// A time at which a leg may depart.
#[derive(Clone, Copy, Debug, PartialEq, Eq)]
pub struct Shift {
    /// The minutes by which it departs later than at its own time; below 0 where it departs earlier.
    pub minutes: i16,
    /// The minute of departure, counted from the start of the period.
    pub dep: u16,
    /// What it costs beside the cost of the fleet, in cost units.
    pub extra: i128,
}

impl Shift {
    /// The leg's own time, of a leg that departs at this minute.
    pub fn own(dep: u16) -> Self
        ensures { result ≡ own_shift dep }
    {
        Shift {
            minutes: 0,
            dep,
            extra: 0,
        }
    }
}

/// The times of a leg, by their minutes. Contracts see the list.
///
/// They lie in a row of fixed size, so that no call on them takes memory.
#[derive(Drop)]
pub struct Shifts {
    row: [Shift; MAX_SHIFTS],
    count: usize,
}

impl Model for Shifts {
    ghost use Rattle.std.specs.Prelude.{List, take, ◌≤◌};
    ghost use Rattle.fleet_model.specs.declared.limits.TheConstants.{MAX_SHIFTS};
    ghost use Rattle.fleet_model.specs.declared.shifts.Shift.{Shift};

    ghost Value = { List Shift };

    ghost view = { λ shifts. take shifts.count shifts.row };

    ghost invariant = { λ shifts. shifts.count ≤ MAX_SHIFTS };
}

impl Shifts {
    /// The one time of a leg that departs at this minute and at no other.
    pub fn own(dep: u16) -> Self
        ensures { result ≡ own_shift dep ∷ [] }
    {
        Shifts {
            row: [Shift::own(dep); MAX_SHIFTS],
            count: 1,
        }
    }

    /// No time yet.
    pub fn empty() -> Self
        ensures { result ≡ [] }
    {
        Shifts {
            row: [Shift::own(0); MAX_SHIFTS],
            count: 0,
        }
    }

    /// Adds a time behind the others.
    pub fn push(&mut self, shift: Shift)
        requires { length self.old < MAX_SHIFTS }
        ensures { self.new ≡ self.old ++ shift ∷ [] }
    {
        self.row[self.count] = shift;
        self.count += 1;
    }

    /// The times, by their minutes.
    pub fn as_slice(&self) -> &[Shift]
        ensures value { result.now ≡ self.now }
        ensures few { length result.now ≤ MAX_SHIFTS }
    {
        &self.row[..self.count]
    }

    /// The place of the leg's own time, behind those that are earlier.
    pub fn own_slot(&self) -> u32
        ensures value { result ≡ own_slot self.now }
        ensures few { result ≤ length self.now }
    {
        let mut earlier = 0;
        for shift in self.as_slice() {
            if is_earlier(shift) {
                earlier += 1;
            }
        }
        earlier
    }

    /// How many there are.
    pub fn len(&self) -> u32
        ensures value { result ≡ length self.now }
        ensures few { result ≤ MAX_SHIFTS }
    {
        self.as_slice().len() as u32
    }

    /// Whether there is none.
    pub fn is_empty(&self) -> bool
        ensures { IsTrue result ↔ (self.now ≡ []) }
    {
        self.as_slice().is_empty()
    }
}

// Whether a time is earlier than the leg's own.
fn is_earlier(shift: &Shift) -> bool
    ensures { result ≡ int_lt shift.now.minutes (pos 0) }
{
    shift.minutes < 0
}
