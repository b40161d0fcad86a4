ghost use Rattle.std.specs.Prelude.{◌≡◌, ◌↔◌, ◌≤◌, ◌≤ℤ◌, ℤ, IfOk, count_by, length, true};
ghost use Rattle.std.specs.Char.{is_ascii_digit};
ghost use Rattle.std.specs.List.{list_all};
ghost use Rattle.std.specs.Str.Parse.{digits_value};
ghost use Rattle.csv_fields.specs.Number.{WritesWhole, magnitude_of, number_of, whole_of};

use crate::fault::FieldFault;

const MOST_DIGITS: usize = 20;

/// The whole number that a field writes: an optional minus and 1 to 20 digits in base ten, leading
/// zeros allowed, from `least` to `greatest`.
///
/// The faults are empty, then wrong length where the whole field has no digit or more than 20, then
/// forbidden byte, then out of range.
#[tactic(auto, unfolding(crate::specs::Number::whole_of))]
pub fn whole(field: &[u8], least: i128, greatest: i128) -> Result<i128, FieldFault>
    ensures reads { result ≡ whole_of field.now least greatest }
    ensures in_range { IfOk result (λ n. (least ≤ℤ n) × (n ≤ℤ greatest)) }
    ensures form { (n : ℤ) → (result ≡ Ok n) ↔ (WritesWhole field.now n × (least ≤ℤ n) × (n ≤ℤ greatest)) }
{
    let number = number(field)?;
    if number < least || number > greatest {
        return Err(FieldFault::OUT_OF_RANGE);
    }
    Ok(number)
}

// The number that a field writes, of any size that its digits allow.
#[tactic(auto, using(crate::proofs::Digits::count_drop), unfolding(crate::specs::Number::number_of))]
fn number(field: &[u8]) -> Result<i128, FieldFault>
    ensures { result ≡ number_of field.now }
{
    if field.is_empty() {
        return Err(FieldFault::EMPTY);
    }
    let count = digit_count(field);
    if count == 0 || count > MOST_DIGITS {
        return Err(FieldFault::WRONG_LENGTH);
    }
    match field {
        [b'-', digits @ ..] => match magnitude(digits) {
            Ok(size) => Ok(-size),
            Err(fault) => Err(fault),
        },
        digits => magnitude(digits),
    }
}

// The number that a field of digits alone writes.
#[tactic(auto, using(crate::proofs::Digits::count_all, crate::proofs::Digits::value_small))]
fn magnitude(digits: &[u8]) -> Result<i128, FieldFault>
    requires { count_by is_ascii_digit digits.now ≤ 20 }
    ensures { result ≡ magnitude_of digits.now }
{
    if !are_digits(digits) {
        return Err(FieldFault::FORBIDDEN_BYTE);
    }
    Ok(decimal_value(digits) as i128)
}

fn digit_count(field: &[u8]) -> usize
    ensures { result ≡ count_by is_ascii_digit field.now }
{
    field.iter().filter(|byte| byte.is_ascii_digit()).count()
}

fn are_digits(field: &[u8]) -> bool
    ensures { result ≡ list_all is_ascii_digit field.now }
{
    field.iter().all(|byte| byte.is_ascii_digit())
}

// The number that some digits write in base ten.
#[tactic(auto, using(crate::proofs::Digits::digit_fits, crate::proofs::Digits::prefix_small, crate::proofs::Digits::prefix_more))]
fn decimal_value(digits: &[u8]) -> u128
    requires few { length digits.now ≤ 20 }
    requires decimal { list_all is_ascii_digit digits.now ≡ true }
    ensures { result ≡ digits_value 10 digits.now }
{
    let mut value = 0;
    for digit in digits {
        value = value * 10 + u128::from(*digit - b'0');
    }
    value
}
