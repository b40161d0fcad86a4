//! The choices of legs by the texts that records have of them.
ghost use Rattle.std.specs.Prelude.{◌≡◌, ◌<◌, ◌≤◌, IfOk, bytes_eq, codes, length};
ghost use Rattle.std.specs.Fmt.{signed_decimal};
ghost use Rattle.fleet_model.specs.Schedule.{fleet_names, legs_in};
ghost use Rattle.fleet_model.specs.declared.limits.TheConstants.{MAX_SHIFTS};
ghost use Rattle.plan_text.specs.Reading.{choice_with, slot_with};

use crate::writing::{LEFT_OUT, OWN_TIME};
use entries::NoMemory;
use fleet_model::Tables;
use fleet_model::shifts::Shift;
use std::alloc::Global;
use table_rows::Names;

/// The choice of a leg whose record has these texts.
pub fn choice_with(
    alloc: Global,
    tables: &Tables,
    fleets: &Names,
    leg: u32,
    fleet: &[u8],
    shift: &[u8],
) -> Result<Option<u32>, NoMemory>
    requires names { fleets.now ≡ fleet_names tables.now }
    requires leg { leg < legs_in tables.now }
    ensures { IfOk result (λ choice. choice ≡ choice_with tables.now leg fleet.now shift.now) }
{
    if fleet == LEFT_OUT {
        return Ok(left_out_with(tables, leg, shift));
    }
    let Some(number) = fleets.number(fleet) else {
        return Ok(None);
    };
    match slot_with(alloc, tables.leg(leg).shifts.as_slice(), shift)? {
        Some(slot) => Ok(Some(number as u32 * tables.shift_count(leg) + slot)),
        None => Ok(None),
    }
}

/// The choice by which a leg is left out, where it may be and the text of its shift is 0.
fn left_out_with(tables: &Tables, leg: u32, shift: &[u8]) -> Option<u32>
    requires { leg < legs_in tables.now }
    ensures { result ≡ choice_with tables.now leg (codes "-") shift.now }
{
    if tables.optional && shift == OWN_TIME {
        Some(tables.left_out(leg))
    } else {
        None
    }
}

/// The place of the first time that is written so.
#[tactic(auto, unfolding(crate::specs::Reading::slot_with))]
fn slot_with(alloc: Global, shifts: &[Shift], text: &[u8]) -> Result<Option<u32>, NoMemory>
    requires { length shifts.now ≤ MAX_SHIFTS }
    ensures { IfOk result (λ slot. slot ≡ slot_with shifts.now text.now) }
{
    for slot in 0..shifts.len() {
        if is_written(alloc, &shifts[slot], text)? {
            return Ok(Some(slot as u32));
        }
    }
    Ok(None)
}

/// Whether a text is that of a time.
fn is_written(alloc: Global, shift: &Shift, text: &[u8]) -> Result<bool, NoMemory>
    ensures { IfOk result (λ same. same ≡ bytes_eq text.now (signed_decimal shift.now.minutes)) }
{
    let minutes = shift.minutes.to_string(alloc)?;
    Ok(text == minutes.as_bytes())
}
