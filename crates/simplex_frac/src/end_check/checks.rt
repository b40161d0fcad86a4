//! Whether a hint is an end of the lines.
ghost use Rattle.std.specs.Prelude.{◌≡◌, ◌<◌, ◌≤ℤ◌, ◌<ℤ◌, ◌*ℤ◌, ℕ, pos, length, slice_index_or, IfOk, IsTrue, MatchBool};
ghost use Rattle.row_store.specs.Problem.{IsProblem};
ghost use Rattle.simplex_frac.specs.end_check.Ends.{AreByLine, IsPricedEnd, IsRefusedEnd, value_in};
ghost use Rattle.simplex_frac.specs.end_check.Sums.{IsCheckable, IsRefusalCheckable, weights_of};
ghost use Rattle.simplex_frac.specs.end_check.Shown.{HasShape, ShowsEnd, ShowsRefusal, CostsTheWeight};

use crate::end_check::hint::{PointHint, RefusalHint};
use crate::end_check::meeting::{cost_at, meets_lines};
use crate::end_check::weighing::{weigh, zeros};
use entries::NoMemory;
use frac_row::compare_ratio;
use row_store::Rows;
use row_store::checks::are_within;
use std::alloc::Global;
use std::cmp::Ordering;

/// Whether the hint is a cheapest point with dual values that show it. It is refused too where a number is outgrown on the
/// way. The memory is that of a number for each column.
pub fn is_end(alloc: Global, rows: &Rows, hint: &PointHint) -> Result<bool, NoMemory>
    requires { IsProblem rows.now }
    ensures end { IfOk result (λ is. IsTrue is → IsPricedEnd rows.now hint.now) }
    ensures found { IfOk result (λ is. IsPricedEnd rows.now hint.now → IsCheckable rows.now hint.now → IsTrue is) }
{
    if !has_shape(rows, hint) {
        return Ok(false);
    }
    let mut weights = zeros(alloc, rows.columns as usize + 1)?;
    if !weigh(&mut weights, rows, hint.duals.as_slice()) {
        return Ok(false);
    }
    Ok(shows_end(weights.as_slice(), rows, hint))
}

/// Whether the hint shows that no point meets the lines. It is refused too where a number is outgrown on the way. The
/// memory is that of a number for each column.
pub fn refuses(alloc: Global, rows: &Rows, hint: &RefusalHint) -> Result<bool, NoMemory>
    requires { IsProblem rows.now }
    ensures end { IfOk result (λ is. IsTrue is → IsRefusedEnd rows.now hint.now) }
    ensures found { IfOk result (λ is. IsRefusedEnd rows.now hint.now → IsRefusalCheckable rows.now hint.now → IsTrue is) }
{
    if !are_by_line(rows, hint.multipliers.as_slice()) {
        return Ok(false);
    }
    let mut weights = zeros(alloc, rows.columns as usize + 1)?;
    if !weigh(&mut weights, rows, hint.multipliers.as_slice()) {
        return Ok(false);
    }
    Ok(shows_refusal(weights.as_slice(), rows.columns as usize))
}

// Whether there are as many numbers as there are to be, and both scales are above 0.
fn has_shape(rows: &Rows, hint: &PointHint) -> bool
    ensures { MatchBool result (HasShape rows.now hint.now) (¬ (HasShape rows.now hint.now)) }
{
    hint.scale > 0
        && hint.dual_scale > 0
        && hint.point.len() == rows.columns as usize
        && are_by_line(rows, hint.duals.as_slice())
}

// Whether there is one number for each line, and none is outgrown.
fn are_by_line(rows: &Rows, values: &[i128]) -> bool
    ensures { MatchBool result (AreByLine rows.now values.now) (¬ (AreByLine rows.now values.now)) }
{
    values.len() == rows.lines.len() && are_within(values)
}

// Whether these weights, of columns and right sides, are those of an end at the hint's point.
fn shows_end(weights: &[i128], rows: &Rows, hint: &PointHint) -> bool
    requires problem { IsProblem rows.now }
    requires shape { HasShape rows.now hint.now }
    requires weights { weights.now ≡ weights_of rows.now (value_in hint.now.duals) (length rows.now.lines) }
    ensures { MatchBool result (ShowsEnd rows.now hint.now weights.now) (¬ (ShowsEnd rows.now hint.now weights.now)) }
{
    are_under(weights, rows.costs.as_slice(), &hint.dual_scale)
        && meets_lines(rows, hint.point.as_slice(), hint.scale)
        && costs_the_weight(rows.costs.as_slice(), hint, &weights[rows.columns as usize])
}

// Whether no column weighs more than it costs, times the scale.
fn are_under(weights: &[i128], costs: &[i128], scale: &i128) -> bool
    requires long { length costs.now < length weights.now }
    requires some { pos 0 <ℤ scale.now }
    ensures { MatchBool result
        ((column : ℕ) → column < length costs.now → value_in weights.now column ≤ℤ (scale.now *ℤ value_in costs.now column))
        (¬ ((column : ℕ) → column < length costs.now → value_in weights.now column ≤ℤ (scale.now *ℤ value_in costs.now column))) }
{
    for column in 0..costs.len() {
        if !is_under(&weights[column], &costs[column], scale) {
            return false;
        }
    }
    true
}

// Whether a weight is no more than a cost times the scale.
fn is_under(weight: &i128, cost: &i128, scale: &i128) -> bool
    requires { pos 0 <ℤ scale.now }
    ensures { MatchBool result (weight.now ≤ℤ (scale.now *ℤ cost.now)) (¬ (weight.now ≤ℤ (scale.now *ℤ cost.now))) }
{
    match compare_ratio(*weight, *scale, *cost, 1) {
        Ordering::Less | Ordering::Equal => true,
        Ordering::Greater => false,
    }
}

// Whether the point costs what the right sides weigh, each over its own scale.
fn costs_the_weight(costs: &[i128], hint: &PointHint, weight: &i128) -> bool
    requires long { length costs.now ≡ length hint.now.point }
    requires some { 0 < hint.now.scale }
    requires dual_scale { pos 0 <ℤ hint.now.dual_scale }
    ensures { MatchBool result (CostsTheWeight costs.now hint.now weight.now) (¬ (CostsTheWeight costs.now hint.now weight.now)) }
{
    match cost_at(costs, hint.point.as_slice()) {
        Some(cost) => are_same(&cost, hint.scale, weight, &hint.dual_scale),
        None => false,
    }
}

// Whether two numbers are the same, each over its own scale.
fn are_same(cost: &i128, scale: u64, weight: &i128, dual_scale: &i128) -> bool
    requires some { 0 < scale }
    requires dual_scale { pos 0 <ℤ dual_scale.now }
    ensures { MatchBool result (cost.now *ℤ dual_scale.now ≡ weight.now *ℤ pos scale) (¬ (cost.now *ℤ dual_scale.now ≡ weight.now *ℤ pos scale)) }
{
    match compare_ratio(*cost, i128::from(scale), *weight, *dual_scale) {
        Ordering::Equal => true,
        Ordering::Less | Ordering::Greater => false,
    }
}

// Whether no column weighs more than 0, and the right sides, behind them, do.
fn shows_refusal(weights: &[i128], columns: usize) -> bool
    requires { columns < length weights.now }
    ensures { MatchBool result (ShowsRefusal columns weights.now) (¬ (ShowsRefusal columns weights.now)) }
{
    weights[columns] > 0 && are_none_above(weights, columns)
}

// Whether none of the first numbers is above 0.
fn are_none_above(weights: &[i128], columns: usize) -> bool
    requires { columns < length weights.now }
    ensures { MatchBool result
        ((column : ℕ) → column < columns → value_in weights.now column ≤ℤ pos 0)
        (¬ ((column : ℕ) → column < columns → value_in weights.now column ≤ℤ pos 0)) }
{
    for column in 0..columns {
        if weights[column] > 0 {
            return false;
        }
    }
    true
}
