ghost use Rattle.std.specs.Prelude.{◌≡◌, ◌↔◌, All, IsOk, IsTrue};
ghost use Rattle.std.specs.List.{list_all};
ghost use Rattle.csv_fields.specs.Name.{name_of, station_code_of};
ghost use Rattle.entries.specs.Names.{IsName, IsNameByte, IsStationCode, is_name_byte};

use crate::fault::FieldFault;

const CODE_LENGTH: usize = 3;

const LONGEST_NAME: usize = 8;

/// Whether a field is the code of a station: three letters A to Z. The code is the field itself.
///
/// The faults are empty, then wrong length, then forbidden byte.
#[tactic(auto, unfolding(crate::specs::Name::station_code_of))]
pub fn station_code(field: &[u8]) -> Result<(), FieldFault>
    ensures reads { result ≡ station_code_of field.now }
    ensures form { IsOk result ↔ IsStationCode field.now }
{
    if field.is_empty() {
        return Err(FieldFault::EMPTY);
    }
    if field.len() != CODE_LENGTH {
        return Err(FieldFault::WRONG_LENGTH);
    }
    if !field.iter().all(|byte| byte.is_ascii_uppercase()) {
        return Err(FieldFault::FORBIDDEN_BYTE);
    }
    Ok(())
}

/// Whether a field is the name of a flight: 1 to 8 letters A to Z and digits. The name is the field
/// itself.
///
/// The faults are empty, then wrong length, then forbidden byte.
pub fn flight_name(field: &[u8]) -> Result<(), FieldFault>
    ensures reads { result ≡ name_of field.now }
    ensures form { IsOk result ↔ IsName field.now }
{
    name(field)
}

/// Whether a field is the name of a fleet, which has the form of a flight's.
pub fn fleet_name(field: &[u8]) -> Result<(), FieldFault>
    ensures reads { result ≡ name_of field.now }
    ensures form { IsOk result ↔ IsName field.now }
{
    name(field)
}

#[tactic(auto, unfolding(crate::specs::Name::name_of))]
fn name(field: &[u8]) -> Result<(), FieldFault>
    ensures reads { result ≡ name_of field.now }
    ensures form { IsOk result ↔ IsName field.now }
{
    if field.is_empty() {
        return Err(FieldFault::EMPTY);
    }
    if field.len() > LONGEST_NAME {
        return Err(FieldFault::WRONG_LENGTH);
    }
    if !has_name_bytes(field) {
        return Err(FieldFault::FORBIDDEN_BYTE);
    }
    Ok(())
}

fn has_name_bytes(field: &[u8]) -> bool
    ensures value { result ≡ list_all is_name_byte field.now }
    ensures each { IsTrue result ↔ All IsNameByte field.now }
{
    field
        .iter()
        .all(|byte| byte.is_ascii_uppercase() || byte.is_ascii_digit())
}
