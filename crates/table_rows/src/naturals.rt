ghost use Rattle.std.specs.Prelude.{◌≡◌, ◌≤◌, IfOk};
ghost use Rattle.table_rows.specs.Fields.{natural_of};

use csv_fields::{FieldFault, whole};

/// The whole number from 0 to `greatest` that a field writes, with the faults of `whole`.
pub fn natural(field: &[u8], greatest: u32) -> Result<u32, FieldFault>
    ensures reads { result ≡ natural_of field.now greatest }
    ensures within { IfOk result (λ n. n ≤ greatest) }
{
    let n = whole(field, 0, i128::from(greatest))?;
    Ok(n as u32)
}
