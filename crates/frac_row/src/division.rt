ghost use Rattle.std.specs.Prelude.{◌≡◌, ◌<◌, ℤ, pos, ◌+ℤ◌, ◌*ℤ◌, ◌<ℤ◌, unsigned_abs, int_div};

/// A division with remainder.
#[derive(Clone, Copy)]
pub struct Division {
    pub quotient: i128,
    pub rest: i128,
}

/// Divides by a positive number and rounds towards 0. Most numbers are small, and 64 bits divide faster.
pub fn divide(n: i128, d: i128) -> Division
    requires { pos 0 <ℤ d }
    ensures exact { (result.quotient *ℤ d) +ℤ result.rest ≡ n }
    ensures below { unsigned_abs result.rest < unsigned_abs d }
    ensures quotient { result.quotient ≡ int_div n d }
{
    match (i64::try_from(n), i64::try_from(d)) {
        (Ok(n), Ok(d)) => divide_small(n, d),
        _ => divide_large(n, d),
    }
}

fn divide_small(n: i64, d: i64) -> Division
    requires { pos 0 <ℤ d }
    ensures exact { (result.quotient *ℤ d) +ℤ result.rest ≡ n }
    ensures below { unsigned_abs result.rest < unsigned_abs d }
    ensures quotient { result.quotient ≡ int_div n d }
{
    let quotient = n / d;
    let rest = n % d;
    Division {
        quotient: quotient.into(),
        rest: rest.into(),
    }
}

fn divide_large(n: i128, d: i128) -> Division
    requires { pos 0 <ℤ d }
    ensures exact { (result.quotient *ℤ d) +ℤ result.rest ≡ n }
    ensures below { unsigned_abs result.rest < unsigned_abs d }
    ensures quotient { result.quotient ≡ int_div n d }
{
    Division {
        quotient: n / d,
        rest: n % d,
    }
}
