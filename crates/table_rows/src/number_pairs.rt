ghost use Rattle.std.specs.Prelude.{◌≡◌, ◌++◌, ◌↔◌, [], ◌∷◌, length, not, if◌then◌else◌, IfOk, IsTrue, OnErr};
ghost use Rattle.table_rows.specs.Names.{is_among};

use entries::NoMemory;
use std::alloc::Global;
use std::collections::BTreeMap;
use std::marker::Model;

// Two numbers.
type NumberPair = (u32, u32);

/// Pairs of numbers, each once, in the order in which they were added. Contracts see the list of pairs, each as
/// the list of its two numbers.
#[derive(Drop)]
pub struct NumberPairs {
    numbers: BTreeMap<NumberPair, usize>,
}

impl Model for NumberPairs {
    ghost use Rattle.std.specs.Prelude.{List, ℕ};
    ghost use Rattle.table_rows.specs.ByNumber.{AreNumbered, by_number};
    ghost use Rattle.table_rows.specs.Pairs.{numbers_of_pair};

    ghost Value = { List (List ℕ) };

    ghost view = { λ pairs. by_number numbers_of_pair pairs.numbers.entries };

    ghost invariant = { λ pairs. AreNumbered numbers_of_pair pairs.numbers.entries };
}

impl NumberPairs {
    /// No pair yet.
    pub fn new(alloc: Global) -> Self
        ensures { result ≡ [] }
    {
        NumberPairs {
            numbers: BTreeMap::new(alloc),
        }
    }

    /// Adds a pair, where it isn't there yet, and answers whether it was added.
    pub fn add(&mut self, first: u32, second: u32) -> Result<bool, NoMemory>
        ensures added { IfOk result (λ added. added ≡ not (is_among (first ∷ second ∷ []) self.old)) }
        ensures appended { IfOk result (λ added. self.new ≡ (if added then self.old ++ (first ∷ second ∷ []) ∷ [] else self.old)) }
        ensures unchanged { OnErr result (self.new ≡ self.old) }
    {
        let pair = (first, second);
        if self.numbers.contains_key(&pair) {
            return Ok(false);
        }
        let number = self.numbers.len();
        self.numbers.insert(pair, number)?;
        Ok(true)
    }

    /// How many pairs there are.
    pub fn len(&self) -> usize
        ensures { result ≡ length self.now }
    {
        self.numbers.len()
    }

    /// Whether there is no pair.
    pub fn is_empty(&self) -> bool
        ensures { IsTrue result ↔ (self.now ≡ []) }
    {
        self.numbers.is_empty()
    }
}
