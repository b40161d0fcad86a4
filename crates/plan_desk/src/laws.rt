//! The laws of the outside: each contract is the statement, and the functions do nothing.
ghost use Rattle.std.specs.Prelude.{◌≡◌};
ghost use Rattle.plan_desk.specs.declared.file.TheConstants.{PROOF_LIMIT, TABLE_LIMIT};

/// The limits of reading in numbers.
pub fn limits_in_numbers()
    ensures table { TABLE_LIMIT ≡ 4194304 }
    ensures proof { PROOF_LIMIT ≡ 9223372036854775807 }
{}
