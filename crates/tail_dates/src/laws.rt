//! The limits of tails: the contract is the statement, and the function does nothing.
ghost use Rattle.std.specs.Prelude.{◌≡◌};
ghost use Rattle.tail_dates.specs.declared.tail_table.TheConstants.{MAX_NIGHTS_LEFT, MAX_TAILS};

/// The limits of tails in numbers.
pub fn limits_in_numbers()
    ensures tails { MAX_TAILS ≡ 10000 }
    ensures nights_left { MAX_NIGHTS_LEFT ≡ 30 }
{}
