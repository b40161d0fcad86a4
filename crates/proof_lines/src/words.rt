//! The words of a line.
ghost use Rattle.std.specs.Prelude.{◌≡◌, ◌++◌, ◌∷◌, [], bytes_eq, filter, IfOk, OnOk};
ghost use Rattle.proof_lines.specs.Words.{is_plain, is_word, parts_of, seen, stands, word_at};

use entries::NoMemory;
use std::alloc::{AllocError, Global};

/// The parts of a line between its spaces.
pub fn parts_of(alloc: Global, line: &[u8]) -> Result<Vec<&[u8]>, AllocError>
    ensures { IfOk result (λ parts. seen parts.items ≡ parts_of line.now) }
{
    line.split(|byte| *byte == b' ').collect(alloc)
}

/// The words among the parts of a line.
pub fn words_of<'a>(alloc: Global, parts: &[&'a [u8]]) -> Result<Vec<&'a [u8]>, NoMemory>
    ensures { IfOk result (λ words. seen words.items ≡ filter is_word (seen parts.now)) }
{
    let mut words = Vec::new(alloc);
    for part in parts {
        push_part(&mut words, part)?;
    }
    Ok(words)
}

/// Appends a part of a line where it is a word.
fn push_part<'a>(words: &mut Vec<&'a [u8]>, part: &'a [u8]) -> Result<(), NoMemory>
    ensures { OnOk result (seen words.new.items ≡ seen words.old.items ++ filter is_word (part.now ∷ [])) }
{
    if part.is_empty() {
        return Ok(());
    }
    words.push(part)?;
    Ok(())
}

/// Whether all bytes of a line are plain text. Takes no memory.
pub fn is_plain(line: &[u8]) -> bool
    ensures { result ≡ is_plain line.now }
{
    line.iter().all(|byte| 32 <= *byte && *byte <= 126)
}

/// A word of a line, and none behind the last. Takes no memory.
pub fn word_at<'a>(words: &[&'a [u8]], place: usize) -> &'a [u8]
    ensures { result.now ≡ word_at (seen words.now) place }
{
    match words.get(place) {
        Some(word) => *word,
        None => &[],
    }
}

/// Whether a word stands at a place of the line. Takes no memory.
pub fn stands(words: &[&[u8]], place: usize, word: &[u8]) -> bool
    ensures { result ≡ stands (seen words.now) place word.now }
{
    is_same(word_at(words, place), word)
}

/// Whether a word is another. Takes no memory.
pub fn is_same(word: &[u8], other: &[u8]) -> bool
    ensures { result ≡ bytes_eq word.now other.now }
{
    word == other
}
