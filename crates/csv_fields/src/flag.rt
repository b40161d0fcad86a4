ghost use Rattle.std.specs.Prelude.{◌≡◌, ◌↔◌, Bool};
ghost use Rattle.csv_fields.specs.Flag.{flag_text, yes_no_of};

use crate::fault::FieldFault;

/// The flag that a field says: `yes` or `no`, in these letters. Any other field is no flag.
#[tactic(auto, unfolding(crate::specs::Flag::yes_no_of))]
pub fn yes_no(field: &[u8]) -> Result<bool, FieldFault>
    ensures reads { result ≡ yes_no_of field.now }
    ensures form { (flag : Bool) → (result ≡ Ok flag) ↔ (field.now ≡ flag_text flag) }
{
    match field {
        b"yes" => Ok(true),
        b"no" => Ok(false),
        _ => Err(FieldFault::NOT_A_FLAG),
    }
}
