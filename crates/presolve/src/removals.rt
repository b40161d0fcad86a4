ghost use Rattle.std.specs.Prelude.{◌≡◌, ◌+◌, IfOk, length};
ghost use Rattle.fleet_model.specs.Kept.{all_pairs, pairs_kept};
ghost use Rattle.presolve.specs.Removals.{AreRefuted, AreRemovals, IsDone, first_place, kept_after};

use crate::choices::Choices;
use crate::reasons::reason;
use crate::search::next_removal;
use crate::trims::Trim;
use entries::{Entries, NoMemory};
use fleet_model::{Pair, Tables};
use std::alloc::Global;

/// The pairs that can be removed before the search, in order: passes go over the kept pairs, by leg, then choice, and
/// remove those that meet a rule, until a whole pass removes none or some leg keeps no pair.
///
/// A pass takes constant time for each pair, and a removal looks once at each leg and at most once at each minute
/// (Hane and others 1995 remove pairs so before they solve).
pub fn trim(alloc: Global, tables: &Tables) -> Result<Entries<Trim>, NoMemory>
    // These pairs and no others, in this order, each with the reason by the first rule that it meets.
    ensures removals { IfOk result (AreRemovals tables.now (all_pairs tables.now) first_place) }

    // Each reason refutes what is left where its pair is flown.
    ensures refuted { IfOk result (AreRefuted tables.now (all_pairs tables.now)) }

    // What is kept at the end.
    ensures done { IfOk result (λ trims. IsDone tables.now (kept_after (all_pairs tables.now) trims)) }

    // Each removal is of another kept pair.
    ensures fewer { IfOk result (λ trims. length trims + pairs_kept tables.now (kept_after (all_pairs tables.now) trims)
        ≡ pairs_kept tables.now (all_pairs tables.now)) }
{
    let mut choices = Choices::all(alloc, tables)?;
    let mut trims = Vec::new(alloc);
    let mut place = Pair { leg: 0, choice: 0 };
    while let Some(found) = next_removal(tables, &choices, place) {
        let pair = found.pair;
        trims.push(Trim {
            leg: pair.leg,
            choice: pair.choice,
            reason: reason(alloc, tables, found.rule, pair)?,
        })?;
        choices.remove(tables, pair);
        place = pair;
    }
    Ok(Entries::from_vec(trims))
}
