//! The numbers that words write. Takes no memory.
ghost use Rattle.std.specs.Prelude.{◌≡◌, ◌≤◌, IfSome, option_map, pos};
ghost use Rattle.proof_lines.specs.Figures.{count_in, day_in, figure, minute_in, natural_in, negative, signed_figure, signed_in, version_in};
ghost use Rattle.dual_bound.specs.declared.prices.TheConstants.{MAX_SIZE};

use crate::flaws::Flaw;
use crate::line::Version;
use crate::numerals::natural;
use crate::words::is_same;
use dual_bound::prices::MAX_SIZE;

/// The version that a word writes.
pub fn version(word: &[u8]) -> Result<Version, Flaw>
    ensures { result ≡ version_in word.now }
{
    if is_same(word, b"1") {
        Ok(Version::One)
    } else if is_same(word, b"2") {
        Ok(Version::Two)
    } else if is_same(word, b"3") {
        Ok(Version::Three)
    } else {
        Err(Flaw::Number)
    }
}

/// The count of 64 bits that a word writes.
pub fn count(word: &[u8]) -> Result<u64, Flaw>
    ensures { result ≡ count_in word.now }
{
    match natural(18_446_744_073_709_551_615, word) {
        Some(n) => Ok(n as u64),
        None => Err(Flaw::Number),
    }
}

/// The minute that a word writes, of a period with this last one.
pub fn minute(last: u16, word: &[u8]) -> Result<u16, Flaw>
    ensures { result ≡ minute_in last word.now }
{
    match natural(u128::from(last), word) {
        Some(n) => Ok(n as u16),
        None => Err(Flaw::Number),
    }
}

/// The day that a word writes, of a period of so many, days counted from 1.
pub fn day(days: u32, word: &[u8]) -> Result<u32, Flaw>
    ensures { result ≡ day_in days word.now }
{
    match natural(u128::from(days), word) {
        None | Some(0) => Err(Flaw::Number),
        Some(n) => Ok(n as u32),
    }
}

/// The signed number that a word writes.
pub fn number(word: &[u8]) -> Result<i128, Flaw>
    ensures { result ≡ signed_figure word.now }
{
    match signed(word) {
        Some(n) => Ok(n),
        None => Err(Flaw::Number),
    }
}

/// The number whose decimal form a word is, where its size is no more than `MAX_SIZE`.
#[tactic(auto, unfolding(crate::specs::Figures::signed_in))]
fn signed(word: &[u8]) -> Option<i128>
    ensures { result ≡ signed_in word.now }
{
    match word.split_first() {
        Some((b'-', digits)) => negative(natural(MAX_SIZE, digits)),
        _ => positive(natural(MAX_SIZE, word)),
    }
}

/// A number of this size with a minus; none of size 0 is written so.
fn negative(size: Option<u128>) -> Option<i128>
    requires { IfSome size (λ n. n ≤ MAX_SIZE) }
    ensures { result ≡ negative size }
{
    match size {
        None | Some(0) => None,
        Some(n) => Some(-(n as i128)),
    }
}

/// A number of this size without a minus.
fn positive(size: Option<u128>) -> Option<i128>
    requires { IfSome size (λ n. n ≤ MAX_SIZE) }
    ensures { result ≡ option_map pos size }
{
    match size {
        None => None,
        Some(n) => Some(n as i128),
    }
}
