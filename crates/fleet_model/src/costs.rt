ghost use Rattle.std.specs.Prelude.{◌≡◌, IsTrue};
ghost use Rattle.fleet_model.specs.Costs.{Rise, cost_in};

use crate::parts::PairCost;
use std::marker::Model;

/// What it costs to fly legs with fleets: a list with one entry for each leg and each fleet that may fly it. Contracts see
/// the list.
///
/// It remembers whether its entries rise by leg and fleet, as they mostly do in a file, and then finds one by
/// bisection.
#[derive(Drop)]
pub struct Costs {
    entries: Vec<PairCost>,
    rising: bool,
}

impl Model for Costs {
    ghost use Rattle.std.specs.Prelude.{List, IsTrue};
    ghost use Rattle.fleet_model.specs.declared.parts.PairCost.{PairCost};

    ghost Value = { List PairCost };

    ghost use Rattle.fleet_model.specs.Costs.{Rise};

    ghost view = { λ costs. costs.entries.items };

    ghost invariant = { λ costs. IsTrue costs.rising → Rise costs.entries.items };
}

// A leg and a fleet, by which costs are found.
#[derive(Clone, Copy, PartialEq, Eq, PartialOrd, Ord)]
struct Key {
    leg: u32,
    fleet: u32,
}

impl PairCost {
    // The leg and the fleet that the cost is for.
    fn key(&self) -> Key
        ensures leg { result.leg ≡ self.now.leg }
        ensures fleet { result.fleet ≡ self.now.fleet }
    {
        Key {
            leg: self.leg,
            fleet: self.fleet,
        }
    }
}

impl Costs {
    /// The costs of a vector's entries. Takes no memory.
    pub fn from_vec(entries: Vec<PairCost>) -> Self
        ensures { result ≡ entries.items }
    {
        let rising = rises(&entries);
        Costs { entries, rising }
    }

    /// The entries, in the order of the list.
    pub fn as_slice(&self) -> &[PairCost]
        ensures { result.now ≡ self.now }
    {
        self.entries.as_slice()
    }

    /// What it costs to fly a leg with a fleet, in cost units: that of the first entry, and none where there is no entry.
    pub fn get(&self, leg: u32, fleet: u32) -> Option<i128>
        ensures { result ≡ cost_in self.now leg fleet }
    {
        let key = Key { leg, fleet };
        if self.rising {
            bisect(&self.entries, key)
        } else {
            scan(&self.entries, key)
        }
    }
}

// Whether each entry comes before the next one.
fn rises(entries: &[PairCost]) -> bool
    ensures { IsTrue result → Rise entries.now }
{
    entries.is_sorted_by(|a, b| a.key() < b.key())
}

// The cost of a leg and a fleet among entries that rise.
fn bisect(entries: &[PairCost], key: Key) -> Option<i128>
    requires { Rise entries.now }
    ensures { result ≡ cost_in entries.now key.leg key.fleet }
{
    match entries.binary_search_by_key(&key, |entry| entry.key()) {
        Ok(place) => Some(units_of(&entries[place])),
        Err(_) => None,
    }
}

// The cost of a leg and a fleet among entries in any order.
fn scan(entries: &[PairCost], key: Key) -> Option<i128>
    ensures { result ≡ cost_in entries.now key.leg key.fleet }
{
    for entry in entries {
        if entry.key() == key {
            return Some(units_of(entry));
        }
    }
    None
}

// The cost of an entry: a number read through a reference keeps its value in a proof.
fn units_of(entry: &PairCost) -> i128
    ensures { result ≡ entry.now.cost }
{
    entry.cost
}
