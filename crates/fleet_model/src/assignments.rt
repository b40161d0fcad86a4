ghost use Rattle.std.specs.Prelude.{◌≡◌, ◌<◌, ◌≤◌, ◌++◌, [], ◌∷◌, ℕ, length, take, slice_index, List, IsTrue, ◌↔◌};
ghost use Rattle.fleet_model.specs.declared.limits.TheConstants.{MAX_LEGS};

use crate::limits::MAX_LEGS;
use std::marker::Model;

/// An assignment: a choice for each leg, by number, in the order of the legs. Contracts see the list of choices.
///
/// It lies in a row of fixed size, so that no call on it takes memory.
#[derive(Drop)]
pub struct Assignment {
    choices: [u32; MAX_LEGS],
    legs: usize,
}

impl Model for Assignment {
    ghost Value = { List ℕ };

    ghost view = { λ assignment. take assignment.legs assignment.choices };

    ghost invariant = { λ assignment. assignment.legs ≤ MAX_LEGS };
}

impl Assignment {
    /// The assignment of no leg.
    pub fn empty() -> Self
        ensures { result ≡ [] }
    {
        Assignment {
            choices: [0; MAX_LEGS],
            legs: 0,
        }
    }

    /// Takes a choice for the next leg.
    pub fn push(&mut self, choice: u32)
        requires { length self.old < MAX_LEGS }
        ensures { self.new ≡ self.old ++ choice ∷ [] }
    {
        self.choices[self.legs] = choice;
        self.legs += 1;
    }

    /// The choice of a leg.
    pub fn choice(&self, leg: u32) -> u32
        requires { leg < length self.now }
        ensures { result ≡ slice_index self.now leg }
    {
        self.choices[leg as usize]
    }

    /// How many legs have a choice.
    pub fn len(&self) -> u32
        ensures { result ≡ length self.now }
    {
        self.legs as u32
    }

    /// Whether no leg has a choice.
    pub fn is_empty(&self) -> bool
        ensures { IsTrue result ↔ (self.now ≡ []) }
    {
        self.legs == 0
    }

    /// The same assignment once more. Takes no memory.
    pub fn copy(&self) -> Self
        ensures { result ≡ self.now }
    {
        Assignment {
            choices: self.choices,
            legs: self.legs,
        }
    }
}
