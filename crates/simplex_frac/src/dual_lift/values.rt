//! The dual values of lines, over one scale.
ghost use Rattle.std.specs.Prelude.{◌≡◌, ◌+◌, ◌-◌, ◌<◌, None, Some, MatchOption, MatchResult, IfErr, IfOk, true, false};
ghost use Rattle.sums.specs.Places.{first_below, list_below};
ghost use Rattle.frac_row.specs.Outgrown.{is_outgrown};
ghost use Rattle.frac_row.specs.Row.{IsRow};
ghost use Rattle.row_store.specs.Table.{HasColumns, height_of};
ghost use Rattle.simplex_frac.specs.dual_lift.Duals.{best_value, phase_value, phases_value};
ghost use Rattle.simplex_frac.specs.dual_lift.Mixture.{IsMixture};
ghost use Rattle.simplex_frac.specs.dual_lift.Readings.{IsReadingOf, duals_by, duals_excess, scale_by, scale_excess_by, value_by, value_excess_by};
ghost use Rattle.simplex_frac.specs.dual_lift.TooLarge.{IsLiftError, IsWantedBehind, best_value_excess, best_value_outgrown, phases_outgrown, refusal_value_excess};

use crate::dual_lift::error::{Excess, LiftError, VALUES_STEP};
use crate::dual_lift::mixture::{Mixture, best_scale};
use crate::dual_lift::reading::Reading;
use crate::dual_lift::rows::{cost_number, identity_column, phase_den, phase_number};
use entries::Entries;
use frac_row::FracRow;
use frac_row::growth::{difference, product};
use row_store::RowStore;
use std::alloc::Global;

/// The dual values of the lines from the first given one on, over their scale. The table has so many real columns.
pub fn duals<R: RowStore>(
    alloc: Global,
    table: &R,
    reading: &Reading,
    columns: u32,
    first: u32,
) -> Result<FracRow, LiftError>
    requires columns { HasColumns (R.content table.now) columns }
    requires reading { IsReadingOf (R.content table.now) reading.now }
    ensures duals { MatchResult result
        (λ duals. (duals_excess (R.content table.now) reading.now first ≡ None) × (duals ≡ duals_by (R.content table.now) reading.now first))
        (IsLiftError (duals_excess (R.content table.now) reading.now first)) }
    ensures memory { IfErr result (IsWantedBehind (duals_excess (R.content table.now) reading.now first)) }
    ensures row { IfOk result IsRow }
{
    let scale = scale(table, reading)?;
    let numbers = values(alloc, table, reading, columns, first)?;
    Ok(FracRow {
        numbers,
        den: scale,
    })
}

// The scale of all of them.
fn scale<R: RowStore>(table: &R, reading: &Reading) -> Result<i128, Excess>
    requires { IsReadingOf (R.content table.now) reading.now }
    ensures { MatchResult result
        (λ scale. (scale_excess_by (R.content table.now) reading.now ≡ None) × (scale ≡ scale_by (R.content table.now) reading.now))
        (λ excess. scale_excess_by (R.content table.now) reading.now ≡ Some excess) }
{
    match reading {
        Reading::BothRows(mixture) => best_scale(table, mixture),
        Reading::PhaseRow => Ok(phase_den(table)),
    }
}

// The dual values, line by line. That none is too large is found before memory is taken.
fn values<R: RowStore>(
    alloc: Global,
    table: &R,
    reading: &Reading,
    columns: u32,
    first: u32,
) -> Result<Entries<i128>, LiftError>
    requires columns { HasColumns (R.content table.now) columns }
    requires reading { IsReadingOf (R.content table.now) reading.now }
    ensures numbers { MatchResult result
        (λ numbers. (first_below (λ k. value_excess_by (R.content table.now) reading.now (first + k)) (height_of (R.content table.now) - first) ≡ None)
        × (numbers ≡ list_below (λ k. value_by (R.content table.now) reading.now (first + k)) (height_of (R.content table.now) - first)))
        (IsLiftError (first_below (λ k. value_excess_by (R.content table.now) reading.now (first + k)) (height_of (R.content table.now) - first))) }
    ensures memory { IfErr result (IsWantedBehind (first_below (λ k. value_excess_by (R.content table.now) reading.now (first + k)) (height_of (R.content table.now) - first))) }
{
    all_fit(table, reading, columns, first)?;
    let mut numbers = Vec::new(alloc);
    for past in 0..table.height().saturating_sub(first) {
        let line = first + past;
        numbers.push(value(table, reading, columns, line)?)?;
    }
    Ok(Entries::from_vec(numbers))
}

// That no dual value is too large, or the first that is.
fn all_fit<R: RowStore>(
    table: &R,
    reading: &Reading,
    columns: u32,
    first: u32,
) -> Result<(), Excess>
    requires columns { HasColumns (R.content table.now) columns }
    requires reading { IsReadingOf (R.content table.now) reading.now }
    ensures { MatchResult result
        (λ _. first_below (λ k. value_excess_by (R.content table.now) reading.now (first + k)) (height_of (R.content table.now) - first) ≡ None)
        (λ excess. first_below (λ k. value_excess_by (R.content table.now) reading.now (first + k)) (height_of (R.content table.now) - first) ≡ Some excess) }
{
    for past in 0..table.height().saturating_sub(first) {
        match value(table, reading, columns, first + past) {
            Ok(_) => {}
            Err(excess) => return Err(excess),
        }
    }
    Ok(())
}

// The dual value of a line, or that it is too large.
fn value<R: RowStore>(table: &R, reading: &Reading, columns: u32, line: u32) -> Result<i128, Excess>
    requires columns { HasColumns (R.content table.now) columns }
    requires reading { IsReadingOf (R.content table.now) reading.now }
    requires line { line < height_of (R.content table.now) }
    ensures { MatchResult result
        (λ value. (value_excess_by (R.content table.now) reading.now line ≡ None) × (value ≡ value_by (R.content table.now) reading.now line))
        (λ excess. value_excess_by (R.content table.now) reading.now line ≡ Some excess) }
{
    match reading {
        Reading::BothRows(mixture) => mixed_value(table, mixture, columns, line),
        Reading::PhaseRow => refusal_value(table, columns, line),
    }
}

// The dual value of a line by both rows, or that it is too large.
fn mixed_value<R: RowStore>(
    table: &R,
    mixture: &Mixture,
    columns: u32,
    line: u32,
) -> Result<i128, Excess>
    requires columns { HasColumns (R.content table.now) columns }
    requires mixture { IsMixture (R.content table.now) mixture.now }
    requires line { line < height_of (R.content table.now) }
    ensures { MatchResult result
        (λ value. (best_value_excess (R.content table.now) line ≡ None) × (value ≡ best_value (R.content table.now) line))
        (λ excess. best_value_excess (R.content table.now) line ≡ Some excess) }
{
    match best_value(table, mixture, columns, line) {
        Some(value) => Ok(value),
        None => Err(too_large(line)),
    }
}

// The dual value of a line by the phase row, or that it is too large.
fn refusal_value<R: RowStore>(table: &R, columns: u32, line: u32) -> Result<i128, Excess>
    requires columns { HasColumns (R.content table.now) columns }
    requires line { line < height_of (R.content table.now) }
    ensures { MatchResult result
        (λ value. (refusal_value_excess (R.content table.now) line ≡ None) × (value ≡ phase_value (R.content table.now) line))
        (λ excess. refusal_value_excess (R.content table.now) line ≡ Some excess) }
{
    match phase_value(table, columns, line) {
        Some(value) => Ok(value),
        None => Err(too_large(line)),
    }
}

// That the dual value of a line is too large.
fn too_large(line: u32) -> Excess
    ensures { result ≡ record { step = VALUES_STEP; at = line } }
{
    Excess {
        step: VALUES_STEP,
        at: line.into(),
    }
}

// The dual value of a line, unless a number on the way to it is outgrown.
fn best_value<R: RowStore>(table: &R, mixture: &Mixture, columns: u32, line: u32) -> Option<i128>
    requires columns { HasColumns (R.content table.now) columns }
    requires mixture { IsMixture (R.content table.now) mixture.now }
    requires line { line < height_of (R.content table.now) }
    ensures { MatchOption result (best_value_outgrown (R.content table.now) line ≡ true)
        (λ value. (best_value_outgrown (R.content table.now) line ≡ false) × (value ≡ best_value (R.content table.now) line)) }
{
    let Some(by_phases) = phases_value(table, mixture, columns, line) else {
        return None;
    };
    let cost = cost_number(table, identity_column(table, columns, line));
    let Some(by_cost) = product(&cost, &mixture.phase_part) else {
        return None;
    };
    difference(&by_phases, &by_cost)
}

// What the phases that were added say of a line, unless a number on the way to it is outgrown.
fn phases_value<R: RowStore>(table: &R, mixture: &Mixture, columns: u32, line: u32) -> Option<i128>
    requires columns { HasColumns (R.content table.now) columns }
    requires mixture { IsMixture (R.content table.now) mixture.now }
    requires line { line < height_of (R.content table.now) }
    ensures { MatchOption result (phases_outgrown (R.content table.now) line ≡ true)
        (λ value. (phases_outgrown (R.content table.now) line ≡ false) × (value ≡ phases_value (R.content table.now) line)) }
{
    let Some(value) = phase_value(table, columns, line) else {
        return None;
    };
    let Some(added) = product(&mixture.phases, &value) else {
        return None;
    };
    product(&added, &mixture.cost_part)
}

// What the phase row says of a line, unless it is outgrown.
fn phase_value<R: RowStore>(table: &R, columns: u32, line: u32) -> Option<i128>
    requires columns { HasColumns (R.content table.now) columns }
    requires line { line < height_of (R.content table.now) }
    ensures { MatchOption result (is_outgrown (phase_value (R.content table.now) line) ≡ true)
        (λ value. (is_outgrown (phase_value (R.content table.now) line) ≡ false) × (value ≡ phase_value (R.content table.now) line)) }
{
    let number = phase_number(table, identity_column(table, columns, line));
    difference(&phase_den(table), &number)
}
