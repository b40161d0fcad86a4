//! The fields of made records.
ghost use Rattle.std.specs.Prelude.{◌≡◌, ◌++◌, ◌∷◌, IfOk, OnOk, map, string_bytes};
ghost use Rattle.csv.specs.Writing.{comma};
ghost use Rattle.plan_text.specs.Text.{record_line};
ghost use Rattle.table_maker.specs.Fields.{clock_text, fleet_name, flight_name, is_out, spoke_code};

use entries::NoMemory;
use fleet_model::period::minute_of_day;
use std::alloc::Global;

/// The code of the hub.
pub const HUB: &[u8] = b"HUB";

/// The code of a spoke: S and two letters, which count from AA.
pub fn spoke_code(spoke: u8) -> [u8; 3]
    ensures { result ≡ spoke_code spoke }
{
    [b'S', b'A' + spoke / 26, b'A' + spoke % 26]
}

/// The name of a fleet: F1 is number 0.
pub fn fleet_name(fleet: usize) -> &'static [u8]
    ensures { result.now ≡ fleet_name fleet }
{
    match fleet {
        0 => b"F1",
        _ => b"F2",
    }
}

/// Whether a leg is the flight out of its round trip.
pub fn is_out(leg: usize) -> bool
    ensures { result ≡ is_out leg }
{
    leg % 2 == 0
}

/// The flight of a leg: O for the flight out or R for the flight back, and the number of the round trip.
pub fn flight_name(alloc: Global, leg: usize) -> Result<String, NoMemory>
    ensures { IfOk result (λ flight. string_bytes flight ≡ flight_name leg) }
{
    let letter = if is_out(leg) { "O" } else { "R" };
    Ok(format!(in alloc; "{}{}", letter, leg / 2)?)
}

/// What the clock shows at a minute from some midnight on: hours, a colon, and minutes.
pub fn clock_text(minute: u32) -> [u8; 5]
    ensures { result ≡ clock_text minute }
{
    let of_day = minute_of_day(minute);
    let hours = (of_day / 60) as u8;
    let minutes = (of_day % 60) as u8;
    [
        b'0' + hours / 10,
        b'0' + hours % 10,
        b':',
        b'0' + minutes / 10,
        b'0' + minutes % 10,
    ]
}

/// Appends the line of a record: a first field and others, with a comma between each two, and a line feed.
pub fn push_record(text: &mut Vec<u8>, first: &[u8], others: &[&[u8]]) -> Result<(), NoMemory>
    ensures { OnOk result (text.new.items ≡ text.old.items ++ record_line (first.now ∷ map (λ field. field.now) others.now)) }
{
    text.extend_from_slice(first)?;
    for field in others {
        push_field(text, field)?;
    }
    text.push(b'\n')?;
    Ok(())
}

/// Appends a comma and a field.
fn push_field(text: &mut Vec<u8>, field: &[u8]) -> Result<(), NoMemory>
    ensures { OnOk result (text.new.items ≡ text.old.items ++ comma ∷ field.now) }
{
    text.push(b',')?;
    text.extend_from_slice(field)?;
    Ok(())
}
