ghost use Rattle.std.specs.Prelude.{◌≡◌, pos, unsigned_abs};
ghost use Rattle.sums.specs.Divisors as divisors;
ghost use Rattle.frac_row.specs.Outgrown.{IsWithin};

/// The greatest common divisor of the sizes of two numbers, 0 for two zeros.
pub fn gcd(a: i128, b: i128) -> i128
    requires first { IsWithin a }
    requires second { IsWithin b }
    ensures { result ≡ pos (divisors.gcd (unsigned_abs a) (unsigned_abs b)) }
{
    gcd_of_sizes(a.unsigned_abs(), b.unsigned_abs()) as i128
}

/// Most sizes are small, and 64 bits divide faster.
fn gcd_of_sizes(a: u128, b: u128) -> u128
    ensures { result ≡ divisors.gcd a b }
{
    match (u64::try_from(a), u64::try_from(b)) {
        (Ok(a), Ok(b)) => gcd_of_small(a, b).into(),
        _ => gcd_of_large(a, b),
    }
}

/// Euclid's algorithm.
#[tactic(auto, using(crate::proofs::Steps::steps))]
fn gcd_of_small(a: u64, b: u64) -> u64
    ensures { result ≡ divisors.gcd a b }
{
    let mut left = a;
    let mut right = b;
    while right != 0 {
        let rest = left % right;
        left = right;
        right = rest;
    }
    left
}

#[tactic(auto, using(crate::proofs::Steps::steps))]
fn gcd_of_large(a: u128, b: u128) -> u128
    ensures { result ≡ divisors.gcd a b }
{
    let mut left = a;
    let mut right = b;
    while right != 0 {
        let rest = left % right;
        left = right;
        right = rest;
    }
    left
}
