//! Prices and fractional assignments, read from the lines of a proof.
ghost use Rattle.std.specs.Prelude.{◌≡◌, ◌++◌, ◌∷◌, [], None, OnOk};
ghost use Rattle.proof_lines.specs.Known.{naming};
ghost use Rattle.proof_lines.specs.Words.{seen};
ghost use Rattle.bound_cert.specs.Lines.{Gives};
ghost use Rattle.bound_cert.specs.Reading.{entries_from, listed, mixed_said, padded, prices_said, rents_from};

use crate::faults::Stop;
use crate::line_reading::{Listed, mixed_scale_at, rent_of, scale_at};
use crate::reading_lines::{Due, behind, next_line};
use dual_bound::{Mixed, Prices};
use entries::{Entries, NoMemory};
use proof_lines::Grammar;
use std::alloc::Global;

/// The prices that the next lines say, and what is left behind them.
#[tactic(auto, unfolding(crate::specs::Reading::prices_said))]
pub fn prices_at<'a, 'b>(
    alloc: Global,
    grammar: &Grammar<'_>,
    left: &'b [&'a [u8]],
) -> Result<(Prices, &'b [&'a [u8]]), Stop>
    ensures { Gives (λ r. (r.0, seen r.1.now)) result (prices_said (naming grammar.now) (seen left.now)) }
{
    let scale = scale_at(alloc, grammar, left)?;
    let mut rents = Vec::new(alloc);
    let rest = rents_from(alloc, grammar, &mut rents, behind(left))?;
    let mut charges = Vec::new(alloc);
    let rest = entries_from(alloc, grammar, Due::Charge, &mut charges, rest)?;
    let mut steps = Vec::new(alloc);
    let rest = entries_from(alloc, grammar, Due::Step, &mut steps, rest)?;
    let prices = Prices {
        scale,
        rents: Entries::from_vec(rents),
        steps: Entries::from_vec(steps),
        charges: Entries::from_vec(charges),
    };
    Ok((prices, rest))
}

/// The fractional assignment that the next lines say, and what is left behind them.
#[tactic(auto, unfolding(crate::specs::Reading::mixed_said))]
pub fn mixed_at<'a, 'b>(
    alloc: Global,
    grammar: &Grammar<'_>,
    left: &'b [&'a [u8]],
) -> Result<(Mixed, &'b [&'a [u8]]), Stop>
    ensures { Gives (λ r. (r.0, seen r.1.now)) result (mixed_said (naming grammar.now) (seen left.now)) }
{
    let scale = mixed_scale_at(alloc, grammar, left)?;
    let mut weights = Vec::new(alloc);
    let rest = entries_from(alloc, grammar, Due::Weight, &mut weights, behind(left))?;
    let weights = Entries::from_vec(weights);
    Ok((Mixed { scale, weights }, rest))
}

/// Reads the rents of all fleets, and answers what is left behind their lines.
fn rents_from<'a, 'b>(
    alloc: Global,
    grammar: &Grammar<'_>,
    rents: &mut Vec<i128>,
    left: &'b [&'a [u8]],
) -> Result<&'b [&'a [u8]], Stop>
    ensures { Gives (λ rest. (rents.new.items, seen rest.now)) result (rents_from (naming grammar.now) rents.old.items (seen left.now)) }
{
    let mut rest = left;
    while let Some(line) = next_line(alloc, grammar, Due::Rent, rest)? {
        let entry = match rent_of(rents.len(), line, rest) {
            Ok(entry) => entry,
            Err(stop) => return Err(stop),
        };
        push_rent(rents, &entry)?;
        rest = behind(rest);
    }
    pad(rents, grammar.fleets.len())?;
    Ok(rest)
}

/// Appends a rent at its fleet, and 0 for the fleets before that have none yet.
fn push_rent(rents: &mut Vec<i128>, entry: &(u32, i128)) -> Result<(), NoMemory>
    ensures { OnOk result (rents.new.items ≡ padded rents.old.items entry.now.0 ++ entry.now.1 ∷ []) }
{
    pad(rents, entry.0 as usize)?;
    rents.push(entry.1)?;
    Ok(())
}

/// Appends 0 for each of so many fleets that has no rent yet.
fn pad(rents: &mut Vec<i128>, fleets: usize) -> Result<(), NoMemory>
    ensures { OnOk result (rents.new.items ≡ padded rents.old.items fleets) }
{
    let missing = fleets.saturating_sub(rents.len());
    for _fleet in 0..missing {
        rents.push(0)?;
    }
    Ok(())
}

/// Reads entries of which each has a line of a kind, and answers what is left behind their lines.
fn entries_from<'a, 'b, T: Listed>(
    alloc: Global,
    grammar: &Grammar<'_>,
    due: Due,
    entries: &mut Vec<T>,
    left: &'b [&'a [u8]],
) -> Result<&'b [&'a [u8]], Stop>
    ensures { Gives (λ rest. (entries.new.items, seen rest.now)) result (entries_from (listed (naming grammar.now) due (T.says (naming grammar.now))) (entries.old.items, None) (seen left.now)) }
{
    let mut before = None;
    let mut rest = left;
    while let Some(line) = next_line(alloc, grammar, due, rest)? {
        let entry = match T::of_line(alloc, grammar, &before, line, rest) {
            Ok(entry) => entry,
            Err(stop) => return Err(stop),
        };
        entries.push(entry)?;
        before = Some(entry);
        rest = behind(rest);
    }
    Ok(rest)
}
