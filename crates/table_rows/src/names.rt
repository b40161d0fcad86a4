ghost use Rattle.std.specs.Prelude.{◌≡◌, ◌++◌, ◌↔◌, [], ◌∷◌, length, not, if◌then◌else◌, IfOk, IsTrue, OnErr};
ghost use Rattle.table_rows.specs.Names.{is_among, number_of_name};

use entries::NoMemory;
use std::alloc::Global;
use std::collections::BTreeMap;
use std::marker::Model;

/// Names, each once, numbered from 0 in the order in which they were added. Contracts see the list of names.
#[derive(Drop)]
pub struct Names {
    numbers: BTreeMap<Vec<u8>, usize>,
}

impl Model for Names {
    ghost use Rattle.std.specs.Prelude.{List, ℕ};
    ghost use Rattle.table_rows.specs.ByNumber.{AreNumbered, by_number};
    ghost use Rattle.table_rows.specs.Names.{bytes_of};

    ghost Value = { List (List ℕ) };

    ghost view = { λ names. by_number bytes_of names.numbers.entries };

    ghost invariant = { λ names. AreNumbered bytes_of names.numbers.entries };
}

impl Names {
    /// No name yet.
    pub fn new(alloc: Global) -> Self
        ensures { result ≡ [] }
    {
        Names {
            numbers: BTreeMap::new(alloc),
        }
    }

    /// Adds a name, where it isn't there yet, and answers whether it was added.
    pub fn add(&mut self, alloc: Global, name: &[u8]) -> Result<bool, NoMemory>
        ensures added { IfOk result (λ added. added ≡ not (is_among name.now self.old)) }
        ensures appended { IfOk result (λ added. self.new ≡ (if added then self.old ++ name.now ∷ [] else self.old)) }
        ensures unchanged { OnErr result (self.new ≡ self.old) }
    {
        if self.numbers.contains_key(name) {
            return Ok(false);
        }
        let number = self.numbers.len();
        self.numbers.insert(Vec::from_slice(alloc, name)?, number)?;
        Ok(true)
    }

    /// How many names there are.
    pub fn len(&self) -> usize
        ensures { result ≡ length self.now }
    {
        self.numbers.len()
    }

    /// Whether there is no name.
    pub fn is_empty(&self) -> bool
        ensures { IsTrue result ↔ (self.now ≡ []) }
    {
        self.numbers.is_empty()
    }

    /// The number of a name, where it is there.
    pub fn number(&self, name: &[u8]) -> Option<usize>
        ensures { result ≡ number_of_name name.now self.now }
    {
        self.numbers.get(name).copied()
    }
}
