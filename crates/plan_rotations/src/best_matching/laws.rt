//! The laws of dual numbers. Each function is a law: its contract is the statement, and it does nothing.
ghost use Rattle.std.specs.Prelude.{◌≡◌};
ghost use Rattle.plan_rotations.specs.declared.best_matching.matching.TheConstants.{MAX_WORTH};
ghost use Rattle.plan_rotations.specs.best_matching.Worths.{DualsBound, DualsSumToWorth, NoneIsWorthMore};

/// Where dual numbers meet the worths that a one-to-one map has, they sum to what it is worth.
pub fn duals_sum_to_worth()
    ensures { DualsSumToWorth }
{}

/// No one-to-one map is worth more than dual numbers sum to.
pub fn duals_bound()
    ensures { DualsBound }
{}

/// So a one-to-one map at which they are met is worth most.
pub fn none_is_worth_more()
    ensures { NoneIsWorthMore }
{}

/// The greatest worth of a row at a column, in numbers.
pub fn limits_in_numbers()
    ensures { MAX_WORTH ≡ 4611686018427387904 }
{}
