ghost use Rattle.std.specs.Prelude.{◌≡◌, ◌≢◌, ℕ, List, AllPairs, IfOk, map};

use crate::names::Names;
use entries::NoMemory;
use fleet_model::{Fleet, Leg, Station};
use std::alloc::Global;

/// What goes by a name in other tables.
pub trait Named {
    ghost name_of: { Self → List ℕ };

    /// The name, as its bytes.
    fn name(&self) -> &[u8]
        ensures { result.now ≡ name_of self.now };
}

impl Named for Station {
    ghost name_of = { λ station. station.code };

    fn name(&self) -> &[u8] {
        self.code.as_slice()
    }
}

impl Named for Fleet {
    ghost name_of = { λ fleet. fleet.name };

    fn name(&self) -> &[u8] {
        self.name.as_slice()
    }
}

impl Named for Leg {
    ghost name_of = { λ leg. leg.flight };

    fn name(&self) -> &[u8] {
        self.flight.as_slice()
    }
}

/// The names of entries, each by the number of its entry.
pub fn numbers_of<T: Named>(alloc: Global, entries: &[T]) -> Result<Names, NoMemory>
    requires { AllPairs (λ a b. T.name_of a ≢ T.name_of b) entries.now }
    ensures { IfOk result (λ names. names ≡ map T.name_of entries.now) }
{
    let mut names = Names::new(alloc);
    for entry in entries {
        names.add(alloc, entry.name())?;
    }
    Ok(names)
}
