//! Single lines of prices and fractional assignments, read.
ghost use Rattle.std.specs.Prelude.{◌≡◌, Option, drop, IfOk};
ghost use Rattle.proof_lines.specs.Known.{Naming, naming};
ghost use Rattle.proof_lines.specs.Reading.{is_step_of};
ghost use Rattle.proof_lines.specs.Words.{seen};
ghost use Rattle.proof_lines.specs.declared.line.Line.{Line};
ghost use Rattle.bound_cert.specs.Lines.{Gives, Left, Reading};
ghost use Rattle.bound_cert.specs.Reading.{charge_in_line, charge_in_order, first_words, in_order, is_needless, mixed_scale_at, mixed_scale_of, rent_follows, rent_in_line, scale_at, scale_of, step_in_line, step_in_order, weight_in_order, weight_of};
ghost use Rattle.bound_cert.specs.Wants.{WantsNone};
ghost use Rattle.dual_bound.specs.Order.{charge_follows, same_place, step_follows, step_place_before, weight_follows};

use crate::faults::{Stop, WRONG_ORDER, WRONG_WORD};
use crate::reading_lines::{Due, behind, line_due, stopped};
use dual_bound::{Charge, PriceStep, Weight};
use entries::NoMemory;
use proof_lines::{Grammar, Line, is_step_of};
use std::alloc::Global;

/// Goes on where a line is in order. Takes no memory.
fn in_order(is: bool, left: &[&[u8]]) -> Result<(), Stop>
    ensures gives { Gives (λ _. tt) result (in_order is (seen left.now)) }
    ensures wants_none { WantsNone result }
{
    if is {
        Ok(())
    } else {
        stopped(left, WRONG_ORDER)
    }
}

/// An entry of prices or of a fractional assignment, which has a line of its own.
pub trait Listed: Copy {
    // The entry that a line says in its order, behind the entry before.
    ghost says: { Naming → Option Self → Line → Left → Reading Self };

    /// The entry that a line says in its order, behind the entry before.
    fn of_line(
        alloc: Global,
        grammar: &Grammar<'_>,
        before: &Option<Self>,
        line: Line,
        left: &[&[u8]],
    ) -> Result<Self, Stop>
        ensures { Gives (λ entry. entry) result (says (naming grammar.now) before.now line (seen left.now)) };
}

/// The scale of prices that the first line says.
#[tactic(auto, unfolding(crate::specs::Reading::said_at))]
pub fn scale_at(alloc: Global, grammar: &Grammar<'_>, left: &[&[u8]]) -> Result<i128, Stop>
    ensures { Gives (λ scale. scale) result (scale_at (naming grammar.now) (seen left.now)) }
{
    let line = line_due(alloc, grammar, Due::Scale, left)?;
    scale_of(line, left)
}

/// The scale that a line of prices says. Takes no memory.
fn scale_of(line: Line, left: &[&[u8]]) -> Result<i128, Stop>
    ensures gives { Gives (λ scale. scale) result (scale_of line (seen left.now)) }
    ensures wants_none { WantsNone result }
{
    match line {
        Line::Scale { scale } => Ok(scale),
        _ => stopped(left, WRONG_WORD),
    }
}

/// The scale of a fractional assignment that the first line says.
#[tactic(auto, unfolding(crate::specs::Reading::said_at))]
pub fn mixed_scale_at(alloc: Global, grammar: &Grammar<'_>, left: &[&[u8]]) -> Result<i128, Stop>
    ensures { Gives (λ scale. scale) result (mixed_scale_at (naming grammar.now) (seen left.now)) }
{
    let line = line_due(alloc, grammar, Due::Mixed, left)?;
    mixed_scale_of(line, left)
}

/// The scale that a line of a fractional assignment says. Takes no memory.
fn mixed_scale_of(line: Line, left: &[&[u8]]) -> Result<i128, Stop>
    ensures gives { Gives (λ scale. scale) result (mixed_scale_of line (seen left.now)) }
    ensures wants_none { WantsNone result }
{
    match line {
        Line::Mixed { scale } => Ok(scale),
        _ => stopped(left, WRONG_WORD),
    }
}

/// The rent that a line says in its order, with its fleet, which is no less than this one. Takes no memory.
pub fn rent_of(least: usize, line: Line, left: &[&[u8]]) -> Result<(u32, i128), Stop>
    ensures gives { Gives (λ entry. entry) result (rent_in_line least line (seen left.now)) }
    ensures wants_none { WantsNone result }
{
    match line {
        Line::Rent { fleet, rent } => {
            in_order(rent_follows(least, &(fleet, rent)), left)?;
            Ok((fleet, rent))
        }
        _ => stopped(left, WRONG_WORD),
    }
}

/// Whether a rent may follow: it isn't 0, and its fleet is no less than this one.
fn rent_follows(least: usize, entry: &(u32, i128)) -> bool
    ensures { result ≡ rent_follows least entry.now.0 entry.now.1 }
{
    least <= entry.0 as usize && entry.1 != 0
}

impl Listed for Charge {
    ghost says = { λ n. charge_in_line };

    /// The charge that a line says in its order, behind the charge before. Takes no memory.
    fn of_line(
        _alloc: Global,
        _grammar: &Grammar<'_>,
        before: &Option<Charge>,
        line: Line,
        left: &[&[u8]],
    ) -> Result<Charge, Stop>
        ensures gives { Gives (λ entry. entry) result (charge_in_line before.now line (seen left.now)) }
        ensures wants_none { WantsNone result }
    {
        match line {
            Line::Charge {
                station,
                day,
                charge,
            } => {
                let entry = Charge {
                    station,
                    day,
                    charge,
                };
                charge_in_order(before, entry, left)
            }
            _ => stopped(left, WRONG_WORD),
        }
    }
}

/// A charge that is in its order behind the charge before. Takes no memory.
fn charge_in_order(before: &Option<Charge>, entry: Charge, left: &[&[u8]]) -> Result<Charge, Stop>
    ensures gives { Gives (λ entry. entry) result (charge_in_order before.now entry (seen left.now)) }
    ensures wants_none { WantsNone result }
{
    in_order(charge_follows(before, &entry), left)?;
    Ok(entry)
}

/// Whether a charge may follow: it isn't 0, and it is of a later station, or of a later day there.
fn charge_follows(before: &Option<Charge>, entry: &Charge) -> bool
    ensures { result ≡ charge_follows before.now entry.now }
{
    match before {
        None => entry.charge != 0,
        Some(before) => {
            (before.station < entry.station
                || (before.station == entry.station && before.day < entry.day))
                && entry.charge != 0
        }
    }
}

impl Listed for PriceStep {
    ghost says = { step_in_line };

    /// The step that a line says in its order, behind the step before.
    fn of_line(
        alloc: Global,
        grammar: &Grammar<'_>,
        before: &Option<PriceStep>,
        line: Line,
        left: &[&[u8]],
    ) -> Result<PriceStep, Stop> {
        match line {
            Line::At {
                fleet,
                station,
                minute,
                value,
            } => {
                let step = PriceStep {
                    fleet,
                    station,
                    minute,
                    value,
                };
                step_in_order(alloc, grammar, before, step, left)
            }
            _ => stopped(left, WRONG_WORD),
        }
    }
}

/// A step that is in its order behind the step before.
fn step_in_order(
    alloc: Global,
    grammar: &Grammar<'_>,
    before: &Option<PriceStep>,
    step: PriceStep,
    left: &[&[u8]],
) -> Result<PriceStep, Stop>
    ensures { Gives (λ step. step) result (step_in_order (naming grammar.now) before.now step (seen left.now)) }
{
    let needless = is_needless(alloc, grammar, &step, left)?;
    in_order(step_follows(before, &step) && !needless, left)?;
    Ok(step)
}

/// Whether a step may follow: at its place a later minute and another value, at the next place minute 0.
fn step_follows(before: &Option<PriceStep>, step: &PriceStep) -> bool
    ensures { result ≡ step_follows before.now step.now }
{
    match before {
        None => step.minute == 0,
        Some(before) => {
            if same_place(before, step) {
                before.minute < step.minute && before.value != step.value
            } else {
                place_before(before, step) && step.minute == 0
            }
        }
    }
}

/// Whether steps are of one fleet at one station.
fn same_place(a: &PriceStep, b: &PriceStep) -> bool
    ensures { result ≡ same_place a.now b.now }
{
    a.fleet == b.fleet && a.station == b.station
}

/// Whether a step's place comes before another's, by fleet and then by station.
fn place_before(a: &PriceStep, b: &PriceStep) -> bool
    ensures { result ≡ step_place_before a.now b.now }
{
    a.fleet < b.fleet || (a.fleet == b.fleet && a.station < b.station)
}

/// Whether a step is of value 0 at minute 0, and no other step of its place comes behind its line, the first that is
/// left, not even a bad one.
fn is_needless(
    alloc: Global,
    grammar: &Grammar<'_>,
    step: &PriceStep,
    left: &[&[u8]],
) -> Result<bool, NoMemory>
    ensures { IfOk result (λ needless. needless ≡ is_needless (naming grammar.now) step.now (drop 1 (seen left.now))) }
{
    if step.minute != 0 || step.value != 0 {
        return Ok(false);
    }
    let goes_on = goes_on(alloc, grammar, step, left)?;
    Ok(!goes_on)
}

/// Whether another step of a step's place comes behind its line, the first that is left, if only a bad one.
fn goes_on(
    alloc: Global,
    grammar: &Grammar<'_>,
    step: &PriceStep,
    left: &[&[u8]],
) -> Result<bool, NoMemory>
    ensures { IfOk result (λ goes_on. goes_on ≡ is_step_of (naming grammar.now) step.now.fleet step.now.station (first_words (drop 1 (seen left.now)))) }
{
    let Some((next, _)) = behind(left).split_first() else {
        return Ok(false);
    };
    is_step_of(alloc, grammar, step.fleet, step.station, next)
}

impl Listed for Weight {
    ghost says = { λ n. weight_of };

    /// The weight that a line says in its order, behind the weight before. Takes no memory.
    fn of_line(
        _alloc: Global,
        _grammar: &Grammar<'_>,
        before: &Option<Weight>,
        line: Line,
        left: &[&[u8]],
    ) -> Result<Weight, Stop>
        ensures gives { Gives (λ entry. entry) result (weight_of before.now line (seen left.now)) }
        ensures wants_none { WantsNone result }
    {
        match line {
            Line::Weight {
                leg,
                choice,
                weight,
            } => {
                let entry = Weight {
                    leg,
                    choice,
                    weight,
                };
                weight_in_order(before, entry, left)
            }
            _ => stopped(left, WRONG_WORD),
        }
    }
}

/// A weight that is in its order behind the weight before. Takes no memory.
fn weight_in_order(before: &Option<Weight>, entry: Weight, left: &[&[u8]]) -> Result<Weight, Stop>
    ensures gives { Gives (λ entry. entry) result (weight_in_order before.now entry (seen left.now)) }
    ensures wants_none { WantsNone result }
{
    in_order(weight_follows(before, &entry), left)?;
    Ok(entry)
}

/// Whether a weight may follow: it isn't 0, and its pair comes later, by leg and then by choice.
fn weight_follows(before: &Option<Weight>, entry: &Weight) -> bool
    ensures { result ≡ weight_follows before.now entry.now }
{
    match before {
        None => entry.weight != 0,
        Some(before) => {
            (before.leg < entry.leg || (before.leg == entry.leg && before.choice < entry.choice))
                && entry.weight != 0
        }
    }
}
