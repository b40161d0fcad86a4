//! The laws of the choice. Each function is a law: its contract is the statement, and it does nothing.
ghost use Rattle.std.specs.Prelude.{◌≡◌};
ghost use Rattle.plan_rotations.specs.through_flights.Choice.{NoSetIsWorthMore};
ghost use Rattle.plan_rotations.specs.declared.through_flights.worths.TheConstants.{CLEAN_WORTH, MAX_VALUE};

/// No through set of a fleet is worth more than numbers sum to that reach its turns, and so none is worth more than the
/// pairs that are chosen.
pub fn none_is_worth_more()
    ensures { NoSetIsWorthMore }
{}

/// What a clean turn is worth, and the greatest sum of through values, in numbers.
pub fn worths_in_numbers()
    ensures clean { CLEAN_WORTH ≡ 1000000000000001 }
    ensures values { MAX_VALUE ≡ 1000000000000 }
{}
