//! A prefix that is being visited, leg by leg.
ghost use Rattle.std.specs.Prelude.{◌≡◌, ◌∷◌, [], IfOk, OnOk, length};
ghost use Rattle.euler_rotation.specs.Walks.{legs_of_path, tail_of, top_of};

use entries::{Entries, NoMemory};
use std::alloc::Global;
use std::marker::Model;

/// A leg of a prefix.
#[derive(Clone, Copy)]
pub(crate) struct Level {
    pub leg: u32,
    /// The place, among the followers of the leg before it, at which the search goes on after this leg.
    pub next: usize,
    /// The nights without maintenance up to this leg.
    pub since: u32,
}

/// The legs of a prefix. Contracts see its levels, the last one first.
#[derive(Drop)]
pub(crate) struct Path {
    levels: Vec<Level>,
}

impl Model for Path {
    ghost use Rattle.std.specs.Prelude.{List, reverse};
    ghost use Rattle.euler_rotation.specs.declared.path.Level.{Level};

    ghost Value = { List Level };

    ghost view = { λ path. reverse path.levels.items };
}

impl Path {
    /// The path of no leg.
    pub(crate) fn new(alloc: Global) -> Self
        ensures { result ≡ [] }
    {
        Path {
            levels: Vec::new(alloc),
        }
    }

    /// How many legs it has.
    pub(crate) fn len(&self) -> usize
        ensures { result ≡ length self.now }
    {
        self.levels.len()
    }

    /// Puts a leg behind the others.
    pub(crate) fn push(&mut self, level: Level) -> Result<(), NoMemory>
        ensures { OnOk result (self.new ≡ level ∷ self.old) }
    {
        self.levels.push(level)?;
        Ok(())
    }

    /// Takes the last leg away.
    pub(crate) fn pop(&mut self)
        ensures { self.new ≡ tail_of self.old }
    {
        self.levels.pop();
    }

    /// The last leg.
    pub(crate) fn top(&self) -> Option<Level>
        ensures { result ≡ top_of self.now }
    {
        self.levels.last().copied()
    }

    /// The legs, the first one first.
    pub(crate) fn legs(&self, alloc: Global) -> Result<Entries<u32>, NoMemory>
        ensures { IfOk result (λ legs. legs ≡ legs_of_path self.now) }
    {
        let mut legs = Vec::new(alloc);
        for level in &self.levels {
            legs.push(level.leg)?;
        }
        Ok(Entries::from_vec(legs))
    }
}
