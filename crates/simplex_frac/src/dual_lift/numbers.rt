//! Numbers behind references, which keep their values in proofs.
ghost use Rattle.std.specs.Int.{int_max};
ghost use Rattle.std.specs.Prelude.{◌≡◌, pos, neg_ℤ, ◌<ℤ◌, int_div, unsigned_abs};
ghost use Rattle.sums.specs.Divisors.{gcd};
ghost use Rattle.frac_row.specs.Outgrown.{IsWithin};
ghost use Rattle.simplex_frac.specs.dual_lift.Duals.{ceiling};

use frac_row::division::divide;
use frac_row::{ceil_div, gcd};

/// The greatest common divisor of two numbers, of which the second is above 0.
pub fn common_divisor(a: &i128, b: &i128) -> i128
    requires first { IsWithin a.now }
    requires second { IsWithin b.now }
    requires some { pos 0 <ℤ b.now }
    ensures value { result ≡ pos (gcd (unsigned_abs a.now) (unsigned_abs b.now)) }
    ensures positive { pos 0 <ℤ result }
{
    gcd(*a, *b)
}

/// The quotient by a number above 0, rounded towards 0.
pub fn quotient(n: &i128, d: &i128) -> i128
    requires { pos 0 <ℤ d.now }
    ensures { result ≡ int_div n.now d.now }
{
    divide(*n, *d).quotient
}

/// The quotient of two numbers above 0, rounded up.
pub fn ceiling(n: &i128, d: &i128) -> i128
    requires number { pos 0 <ℤ n.now }
    requires divisor { pos 0 <ℤ d.now }
    ensures { result ≡ pos (ceiling (unsigned_abs n.now) (unsigned_abs d.now)) }
{
    ceil_div(*n, *d)
}

/// The number with the other sign.
pub fn opposite(n: &i128) -> i128
    requires { IsWithin n.now }
    ensures { result ≡ neg_ℤ n.now }
{
    -*n
}

/// The greater of two numbers.
pub fn greater(one: &i128, other: &i128) -> i128
    ensures { result ≡ int_max one.now other.now }
{
    if *other < *one { *one } else { *other }
}
