//! Prices and fractional assignments from ends that were checked.
ghost use Rattle.std.specs.Prelude.{◌≡◌, ◌+◌, ◌<◌, ◌≤◌, ℕ, pos, int_lt, ◌<ℤ◌, drop, length, IfOk, IfErr, None, Some, MatchResult, unsigned_abs};
ghost use Rattle.frac_row.specs.Outgrown.{IsWithin};
ghost use Rattle.sums.specs.Divisors.{gcd};
ghost use Rattle.sums.specs.Places.{or_else};
ghost use Rattle.frac_row.specs.Row.{IsRow, common_divisor, reduced, width_of};
ghost use Rattle.fleet_model.specs.Kept.{IsBare, kept_by};
ghost use Rattle.fleet_model.specs.Schedule.{legs_in};
ghost use Rattle.row_store.specs.declared.problem.Rows.{Rows};
ghost use Rattle.simplex_frac.specs.end_check.Ends.{IsPricedEnd, IsRefusedEnd, value_in};
ghost use Rattle.lp_rows.specs.Layout.{all_kept, starts_in};
ghost use Rattle.lp_rows.specs.Outline.{IsOutline, IsOutlineOver};
ghost use Rattle.lp_rows.specs.Points.{AreLinesOf};
ghost use Rattle.dual_bound.specs.Prices.{max_scale};
ghost use Rattle.simplex_frac.specs.dual_lift.TooLarge.{IsLiftError};
ghost use Rattle.price_lift.specs.BestPoint.{AreRefuting, IsBestPoint};
ghost use Rattle.price_lift.specs.EndLifts.{IsLiftOf, IsMixedOfParts, end_duals, end_excess, first_parts, lowest_end_excess, pair_parts, parts_excess, priced_values, refusing_duals, refusing_excess};
ghost use Rattle.price_lift.specs.Lifted.{AreLiftedPrices, IsLiftedRefusal};
ghost use Rattle.price_lift.specs.PaidBack.{FitsBy, IsLiftErrorBy};
ghost use Rattle.price_lift.specs.Steps.{prices_by};
ghost use Rattle.price_lift.specs.TooLarge.{prices_excess};
ghost use Rattle.price_lift.specs.Wanted.{IsWantedBehind};

use crate::best_point::BestPoint;
use crate::lowest::fits;
use crate::paying::paid_back;
use crate::pricing::prices_of;
use crate::weighing::{pair_count, weights};
use dual_bound::prices::MAX_SCALE;
use dual_bound::{Mixed, Prices};
use entries::{Entries, NoMemory};
use fleet_model::{Kept, Tables};
use frac_row::{FracRow, reduce};
use lp_rows::Outline;
use simplex_frac::dual_lift::error::WEIGHTS_STEP;
use simplex_frac::dual_lift::numbers::quotient;
use simplex_frac::dual_lift::{Excess, LiftError};
use simplex_frac::end_check::{PointHint, RefusalHint};
use std::alloc::Global;

/// Prices and a cheapest fractional assignment from an end of a subproblem's lines. The prices are the dual values of the
/// lines with a price, in lowest terms, paid back where they rise over arcs that went. The weights are the parts of the
/// pairs, in lowest terms. The worth of the prices is the cost of the fractional assignment, both over their scales (linear
/// duality).
///
/// The outline is that of the kept pairs. No number is outgrown on the way; prices, their scale and that of the weights
/// may pass their limits.
pub fn lift_end(
    alloc: Global,
    hint: &PointHint,
    tables: &Tables,
    kept: &Kept,
    outline: &Outline,
) -> Result<BestPoint, LiftError>
    requires outline { IsOutline tables.now (kept_by kept.now) outline.now }
    requires ends { (rows : Rows) × AreLinesOf tables.now (kept_by kept.now) rows × IsPricedEnd rows hint.now }
    ensures lifted { IfOk result (IsBestPoint tables.now (kept_by kept.now)) }
    ensures prices { IfOk result (λ best. AreLiftedPrices tables.now (kept_by kept.now) (end_duals tables.now hint.now) best.prices) }
    ensures weights { IfOk result (λ best. IsMixedOfParts (pair_parts tables.now (kept_by kept.now) hint.now) (all_kept tables.now (kept_by kept.now)) best.mixed) }
    ensures fits { IfOk result (λ _. FitsBy tables.now (kept_by kept.now) (end_excess tables.now (kept_by kept.now) hint.now)) }
    ensures too_large { IfErr result (IsLiftErrorBy tables.now (kept_by kept.now) (end_excess tables.now (kept_by kept.now) hint.now)) }
    ensures memory { IfErr result (IsWantedBehind (lowest_end_excess tables.now (kept_by kept.now) hint.now)) }
{
    lifted_end(alloc, hint, tables, kept, outline)
}

/// Prices that show that nothing in a subproblem is legal, from multipliers that refuse all points of its lines. The prices
/// are the multipliers of the lines with a price, in lowest terms, paid back where they rise over arcs that went. Their
/// worth without costs is above 0 where each leg keeps a pair.
///
/// The outline is that of the kept pairs. No number is outgrown on the way; prices may pass their limits.
pub fn lift_refusing_end(
    alloc: Global,
    hint: &RefusalHint,
    tables: &Tables,
    kept: &Kept,
    outline: &Outline,
) -> Result<Prices, LiftError>
    requires outline { IsOutline tables.now (kept_by kept.now) outline.now }
    requires ends { (rows : Rows) × AreLinesOf tables.now (kept_by kept.now) rows × IsRefusedEnd rows hint.now }
    ensures lifted { IfOk result (λ prices. ((l : ℕ) → ¬ (IsBare tables.now (kept_by kept.now) l)) → AreRefuting tables.now (kept_by kept.now) prices) }
    ensures prices { IfOk result (AreLiftedPrices tables.now (kept_by kept.now) (refusing_duals tables.now hint.now)) }
    ensures fits { IfOk result (λ _. FitsBy tables.now (kept_by kept.now) (refusing_excess tables.now (kept_by kept.now) hint.now)) }
    ensures too_large { IfErr result (IsLiftErrorBy tables.now (kept_by kept.now) (refusing_excess tables.now (kept_by kept.now) hint.now)) }
    ensures memory { IfErr result (IsWantedBehind (prices_excess (legs_in tables.now) (refusing_duals tables.now hint.now))) }
{
    lifted_refusing(alloc, hint, tables, kept, outline)
}

// Prices and weights of an end.
fn lifted_end(
    alloc: Global,
    hint: &PointHint,
    tables: &Tables,
    kept: &Kept,
    outline: &Outline,
) -> Result<BestPoint, LiftError>
    requires outline { IsOutline tables.now (kept_by kept.now) outline.now }
    requires ends { (rows : Rows) × AreLinesOf tables.now (kept_by kept.now) rows × IsPricedEnd rows hint.now }
    ensures lifted { MatchResult result
        (λ best. (end_excess tables.now (kept_by kept.now) hint.now (starts_in outline.now.network) ≡ None) × IsLiftOf tables.now (kept_by kept.now) hint.now best)
        (IsLiftError (end_excess tables.now (kept_by kept.now) hint.now (starts_in outline.now.network))) }
    ensures memory { IfErr result (IsWantedBehind (lowest_end_excess tables.now (kept_by kept.now) hint.now)) }
{
    end_fits(hint, tables, outline)?;
    let before = end_prices(
        alloc,
        hint.duals.as_slice(),
        hint.dual_scale,
        tables,
        outline,
    )?;
    let mixed = end_mixed(alloc, hint, outline)?;
    let prices = paid_back(alloc, tables, outline, before)?;
    Ok(BestPoint { prices, mixed })
}

// That prices and the scale of the weights are within their limits in lowest terms. Takes no memory.
fn end_fits(hint: &PointHint, tables: &Tables, outline: &Outline) -> Result<(), Excess>
    requires outline { IsOutlineOver tables.now outline.now }
    requires long { length hint.now.duals ≡ legs_in tables.now + (length outline.now.nodes + outline.now.fleets + length outline.now.parks) }
    requires within { (line : ℕ) → IsWithin (value_in hint.now.duals line) }
    requires scale { pos 0 <ℤ hint.now.dual_scale }
    requires some { 0 < hint.now.scale }
    requires pairs { length outline.now.pairs ≤ length hint.now.point }
    ensures { MatchResult result
        (λ _. or_else (prices_excess (legs_in tables.now) (end_duals tables.now hint.now)) (parts_excess (first_parts hint.now.point hint.now.scale (length outline.now.pairs))) ≡ None)
        (λ excess. or_else (prices_excess (legs_in tables.now) (end_duals tables.now hint.now)) (parts_excess (first_parts hint.now.point hint.now.scale (length outline.now.pairs))) ≡ Some excess) }
{
    prices_fit(hint.duals.as_slice(), hint.dual_scale, tables, outline)?;
    parts_fit(hint.point.as_slice(), hint.scale, pair_count(outline))
}

// Prices alone, where no point meets the lines.
fn lifted_refusing(
    alloc: Global,
    hint: &RefusalHint,
    tables: &Tables,
    kept: &Kept,
    outline: &Outline,
) -> Result<Prices, LiftError>
    requires outline { IsOutline tables.now (kept_by kept.now) outline.now }
    requires ends { (rows : Rows) × AreLinesOf tables.now (kept_by kept.now) rows × IsRefusedEnd rows hint.now }
    ensures lifted { MatchResult result
        (λ prices. (refusing_excess tables.now (kept_by kept.now) hint.now (starts_in outline.now.network) ≡ None) × IsLiftedRefusal tables.now (kept_by kept.now) (refusing_duals tables.now hint.now) prices)
        (IsLiftError (refusing_excess tables.now (kept_by kept.now) hint.now (starts_in outline.now.network))) }
    ensures memory { IfErr result (IsWantedBehind (prices_excess (legs_in tables.now) (refusing_duals tables.now hint.now))) }
{
    let before = end_prices(alloc, hint.multipliers.as_slice(), 1, tables, outline)?;
    paid_back(alloc, tables, outline, before)
}

// The prices by the nodes of values of the lines, over their scale. That they are within their limits is found before memory
// is taken.
fn end_prices(
    alloc: Global,
    values: &[i128],
    scale: i128,
    tables: &Tables,
    outline: &Outline,
) -> Result<Prices, LiftError>
    requires outline { IsOutlineOver tables.now outline.now }
    requires long { length values.now ≡ legs_in tables.now + (length outline.now.nodes + outline.now.fleets + length outline.now.parks) }
    requires within { (line : ℕ) → IsWithin (value_in values.now line) }
    requires scale { pos 0 <ℤ scale }
    ensures prices { MatchResult result
        (λ prices. (prices_excess (legs_in tables.now) (priced_values tables.now values.now scale) ≡ None)
        × (prices ≡ prices_by tables.now (starts_in outline.now.network) (reduced (priced_values tables.now values.now scale))))
        (IsLiftError (prices_excess (legs_in tables.now) (priced_values tables.now values.now scale))) }
    ensures memory { IfErr result (IsWantedBehind (prices_excess (legs_in tables.now) (priced_values tables.now values.now scale))) }
{
    prices_fit(values, scale, tables, outline)?;
    let duals = priced_row(alloc, values, scale, outline.first_priced_line())?;
    prices_of(alloc, tables, outline, duals)
}

// That the values of the lines with a price are within the limits of prices in lowest terms. Takes no memory.
fn prices_fit(
    values: &[i128],
    scale: i128,
    tables: &Tables,
    outline: &Outline,
) -> Result<(), Excess>
    requires outline { IsOutlineOver tables.now outline.now }
    requires long { length values.now ≡ legs_in tables.now + (length outline.now.nodes + outline.now.fleets + length outline.now.parks) }
    requires within { (line : ℕ) → IsWithin (value_in values.now line) }
    requires scale { pos 0 <ℤ scale }
    ensures { MatchResult result
        (λ _. prices_excess (legs_in tables.now) (priced_values tables.now values.now scale) ≡ None)
        (λ excess. prices_excess (legs_in tables.now) (priced_values tables.now values.now scale) ≡ Some excess) }
{
    let first = tables.leg_count();
    fits(first, &values[first as usize..], &scale)
}

// The values from a line on, over a scale.
fn priced_row(alloc: Global, values: &[i128], scale: i128, first: u32) -> Result<FracRow, NoMemory>
    requires { first ≤ length values.now }
    ensures { IfOk result (λ row. row ≡ record { numbers = drop first values.now; den = scale }) }
{
    let numbers = Vec::from_slice(alloc, &values[first as usize..])?;
    Ok(FracRow {
        numbers: Entries::from_vec(numbers),
        den: scale,
    })
}

// The weights of the pairs: their parts of the point, in lowest terms. That their scale is within its limit is found before
// memory is taken.
fn end_mixed(alloc: Global, hint: &PointHint, outline: &Outline) -> Result<Mixed, LiftError>
    requires some { 0 < hint.now.scale }
    requires long { length outline.now.pairs ≤ length hint.now.point }
    ensures mixed { MatchResult result
        (λ mixed. (parts_excess (first_parts hint.now.point hint.now.scale (length outline.now.pairs)) ≡ None) × IsMixedOfParts (first_parts hint.now.point hint.now.scale (length outline.now.pairs)) outline.now.pairs mixed)
        (IsLiftError (parts_excess (first_parts hint.now.point hint.now.scale (length outline.now.pairs)))) }
    ensures memory { IfErr result (IsWantedBehind (parts_excess (first_parts hint.now.point hint.now.scale (length outline.now.pairs)))) }
{
    let count = pair_count(outline);
    let point = hint.point.as_slice();
    parts_fit(point, hint.scale, count)?;
    let parts = row_of_parts(alloc, point, hint.scale, count)?;
    mixed_of(alloc, outline, parts)
}

// The same of their parts.
fn mixed_of(alloc: Global, outline: &Outline, parts: FracRow) -> Result<Mixed, LiftError>
    requires row { IsRow parts }
    requires width { width_of parts ≡ length outline.now.pairs }
    ensures mixed { MatchResult result
        (λ mixed. (parts_excess parts ≡ None) × IsMixedOfParts parts outline.now.pairs mixed)
        (IsLiftError (parts_excess parts)) }
    ensures memory { IfErr result (IsWantedBehind (parts_excess parts)) }
{
    let mut lowest = parts;
    reduce(&mut lowest);
    if is_past_scale(&lowest.den) {
        return Err(LiftError::TooLarge {
            step: WEIGHTS_STEP,
            at: 0,
        });
    }
    let weights = weights(alloc, outline, lowest.numbers.as_slice())?;
    Ok(Mixed {
        scale: lowest.den,
        weights: Entries::from_vec(weights),
    })
}

// That the scale of the parts of the first columns, in lowest terms, is within its limit. Takes no memory.
fn parts_fit(point: &[u64], scale: u64, count: u32) -> Result<(), Excess>
    requires some { 0 < scale }
    requires long { count ≤ length point.now }
    ensures { MatchResult result
        (λ _. parts_excess (first_parts point.now scale count) ≡ None)
        (λ excess. parts_excess (first_parts point.now scale count) ≡ Some excess) }
{
    let divisor = parts_divisor(point, scale, count);
    if is_past_scale(&quotient(&whole(scale), &divisor)) {
        return Err(Excess {
            step: WEIGHTS_STEP,
            at: 0,
        });
    }
    Ok(())
}

// The greatest common divisor of those parts and their scale.
fn parts_divisor(point: &[u64], scale: u64, count: u32) -> i128
    requires some { 0 < scale }
    requires long { count ≤ length point.now }
    ensures value { result ≡ pos (common_divisor (first_parts point.now scale count)) }
    ensures positive { pos 0 <ℤ result }
{
    let mut divisor = whole(scale);
    for column in 0..count {
        divisor = divisor_with(&divisor, point[column as usize]);
    }
    divisor
}

// The greatest common divisor of one so far and a part.
fn divisor_with(divisor: &i128, part: u64) -> i128
    requires { IsWithin divisor.now }
    ensures { result ≡ pos (gcd (unsigned_abs divisor.now) part) }
{
    frac_row::gcd(*divisor, whole(part))
}

// Whether a scale is past the limit of scales.
fn is_past_scale(scale: &i128) -> bool
    ensures { result ≡ int_lt (pos max_scale) scale.now }
{
    *scale > i128::from(MAX_SCALE)
}

// The parts of the first columns, over the scale, each of which has 64 bits.
fn row_of_parts(alloc: Global, point: &[u64], scale: u64, count: u32) -> Result<FracRow, NoMemory>
    requires some { 0 < scale }
    requires long { count ≤ length point.now }
    ensures parts { IfOk result (λ row. row ≡ first_parts point.now scale count) }
    ensures row { IfOk result IsRow }
{
    first_parts(alloc, point, scale, count)
}

// The parts, column by column.
fn first_parts(alloc: Global, point: &[u64], scale: u64, count: u32) -> Result<FracRow, NoMemory>
    requires { count ≤ length point.now }
    ensures { IfOk result (λ row. row ≡ first_parts point.now scale count) }
{
    let mut numbers = Vec::new(alloc);
    for column in 0..count {
        numbers.push(whole(point[column as usize]))?;
    }
    Ok(FracRow {
        numbers: Entries::from_vec(numbers),
        den: whole(scale),
    })
}

// A number of 64 bits in 128.
fn whole(number: u64) -> i128
    ensures { result ≡ pos number }
{
    i128::from(number)
}
