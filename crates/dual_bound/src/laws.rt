//! The laws of bounds, over all tables, subproblems and prices. Each function is a law: its contract is the statement,
//! and it does nothing.
ghost use Rattle.std.specs.Prelude.{◌≡◌, ◌^◌, ◌-◌, pos};
ghost use Rattle.dual_bound.specs.Duality.{CeilingIsLowerBound, WeakDuality, WorthIsLowerBound, WorthRefutes, ZeroIsProper};
ghost use Rattle.dual_bound.specs.declared.prices.TheConstants.{MAX_PRICE, MAX_SCALE, MAX_SIZE};
ghost use Rattle.dual_bound.specs.declared.trees.TheConstants.{MAX_DEPTH};

/// Prices that are all 0, over the scale 1 and with no rents and no charges, are proper.
pub fn zero_is_proper()
    ensures { ZeroIsProper }
{}

/// Weak duality: the worth of prices is no more than k times their scale times the cost of any mixed plan in the
/// subproblem.
pub fn weak_duality()
    ensures { WeakDuality }
{}

/// The worth over the scale is no more than the cost of any legal assignment of kept pairs.
pub fn worth_is_lower_bound()
    ensures { WorthIsLowerBound }
{}

/// The worth over the scale, rounded up, is no more than the cost of any legal assignment of kept pairs.
pub fn ceiling_is_lower_bound()
    ensures { CeilingIsLowerBound }
{}

/// Where the worth without costs is above 0, no assignment of kept pairs is legal.
pub fn worth_refutes()
    ensures { WorthRefutes }
{}

/// The limits of proofs in numbers: of levels, of the numbers of a text, of scales, and of rents, prices and charges.
pub fn limits_in_numbers()
    ensures depth { MAX_DEPTH ≡ 20000 }
    ensures size { MAX_SIZE ≡ 2 ^ 127 - 1 }
    ensures scale { MAX_SCALE ≡ pos (10 ^ 18) }
    ensures price { MAX_PRICE ≡ pos (10 ^ 30) }
{}
