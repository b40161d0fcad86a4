//! The weights of pairs at the last table's basic point.
ghost use Rattle.std.specs.Prelude.{◌≡◌, ◌≤◌, pos, length, None, Some, IfErr, IfOk, OnOk, ◌++◌, MatchResult};
ghost use Rattle.sums.specs.Places.{first_below};
ghost use Rattle.row_store.specs.Table.{HasColumns, height_of};
ghost use Rattle.lp_rows.specs.Layout.{concat_below};
ghost use Rattle.lp_rows.specs.Outline.{column_count};
ghost use Rattle.dual_bound.specs.Prices.{max_scale};
ghost use Rattle.simplex_frac.specs.dual_lift.Parts.{HaveParts};
ghost use Rattle.simplex_frac.specs.dual_lift.Scales.{scale_below};
ghost use Rattle.simplex_frac.specs.dual_lift.TooLarge.{IsLiftError};
ghost use Rattle.price_lift.specs.Parts.{IsBasicMixed, weight_where, weights_at};
ghost use Rattle.price_lift.specs.TooLarge.{weights_excess};
ghost use Rattle.price_lift.specs.Wanted.{IsWantedBehind};

use dual_bound::prices::MAX_SCALE;
use dual_bound::{Mixed, Weight};
use entries::{Entries, NoMemory};
use fleet_model::Pair;
use lp_rows::Outline;
use row_store::RowStore;
use simplex_frac::dual_lift::{LiftError, column_parts, least_scale};
use std::alloc::Global;

/// The weights of the basic pairs, over the least scale that makes them whole.
pub(crate) fn basic_mixed<R: RowStore>(
    alloc: Global,
    table: &R,
    basis: &[u32],
    outline: &Outline,
) -> Result<Mixed, LiftError>
    requires basis { length basis.now ≡ height_of (R.content table.now) }
    requires columns { HasColumns (R.content table.now) (column_count outline.now) }
    requires parts { scale_below (R.content table.now) basis.now (length outline.now.pairs) (height_of (R.content table.now)) ≤ max_scale
        → HaveParts (R.content table.now) basis.now (length outline.now.pairs) (scale_below (R.content table.now) basis.now (length outline.now.pairs) (height_of (R.content table.now))) }
    ensures mixed { MatchResult result
        (λ mixed. (first_below (weights_excess (R.content table.now) basis.now (length outline.now.pairs)) (height_of (R.content table.now)) ≡ None)
        × IsBasicMixed (R.content table.now) basis.now outline.now.pairs mixed)
        (IsLiftError (first_below (weights_excess (R.content table.now) basis.now (length outline.now.pairs)) (height_of (R.content table.now)))) }
    ensures memory { IfErr result (IsWantedBehind (first_below (weights_excess (R.content table.now) basis.now (length outline.now.pairs)) (height_of (R.content table.now)))) }
{
    let columns = outline.column_count();
    let pairs = pair_count(outline);
    let scale = least_scale(table, basis, columns, pairs, scale_limit())?;
    let parts = column_parts(alloc, table, basis, columns, pairs, &scale)?;
    let weights = weights(alloc, outline, &parts)?;
    Ok(Mixed {
        scale,
        weights: Entries::from_vec(weights),
    })
}

/// How many pairs there are, whose columns are the first.
pub(crate) fn pair_count(outline: &Outline) -> u32
    ensures { result ≡ length outline.now.pairs }
{
    outline.pairs.len() as u32
}

// The limit of scales.
fn scale_limit() -> u64
    ensures { result ≡ max_scale }
{
    MAX_SCALE as u64
}

/// The weights of the pairs, by the parts of their columns, of those that are not 0.
pub(crate) fn weights(
    alloc: Global,
    outline: &Outline,
    parts: &[i128],
) -> Result<Vec<Weight>, NoMemory>
    requires { length parts.now ≡ length outline.now.pairs }
    ensures { IfOk result (λ weights. weights.items ≡ concat_below (weights_at outline.now.pairs parts.now) (length outline.now.pairs)) }
{
    let pairs = outline.pairs.as_slice();
    let mut weights = Vec::new(alloc);
    for number in 0..pair_count(outline) {
        let column = outline.flight_column(number);
        push_weight(
            &mut weights,
            pairs[number as usize],
            &parts[column as usize],
        )?;
    }
    Ok(weights)
}

// Puts the weight of a pair behind those so far, where it is not 0.
fn push_weight(weights: &mut Vec<Weight>, pair: Pair, weight: &i128) -> Result<(), NoMemory>
    ensures { OnOk result (weights.new.items ≡ weights.old.items ++ weight_where pair weight.now) }
{
    if *weight == 0 {
        return Ok(());
    }
    weights.push(Weight {
        leg: pair.leg,
        choice: pair.choice,
        weight: *weight,
    })?;
    Ok(())
}
