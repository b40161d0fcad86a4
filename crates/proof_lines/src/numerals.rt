//! The shortest decimal forms.
ghost use Rattle.std.specs.Prelude.{◌≡◌, ◌≤◌, IfSome};
ghost use Rattle.proof_lines.specs.Figures.{is_shortest, natural_in};
ghost use Rattle.dual_bound.specs.declared.prices.TheConstants.{MAX_SIZE};

use std::str;

/// The number up to a greatest one whose decimal form a word is. Takes no memory.
pub fn natural(most: u128, word: &[u8]) -> Option<u128>
    requires { most ≤ MAX_SIZE }
    ensures reads { result ≡ natural_in most word.now }
    ensures within { IfSome result (λ n. n ≤ most) }
{
    let Ok(text) = str::from_utf8(word) else {
        return None;
    };
    let Ok(n) = text.parse::<u128>() else {
        return None;
    };
    if n > most {
        return None;
    }
    if is_shortest(word) { Some(n) } else { None }
}

/// Whether no plus, and no zero before other digits, begins a word.
fn is_shortest(word: &[u8]) -> bool
    ensures { result ≡ is_shortest word.now }
{
    match word.split_first() {
        Some((b'0', rest)) => rest.is_empty(),
        Some((b'+', _)) => false,
        _ => true,
    }
}
