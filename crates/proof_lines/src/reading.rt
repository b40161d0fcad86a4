//! A line, read from its bytes.
ghost use Rattle.std.specs.Prelude.{◌≡◌, IfOk};
ghost use Rattle.proof_lines.specs.Forms.{form_in};
ghost use Rattle.proof_lines.specs.Known.{naming};
ghost use Rattle.proof_lines.specs.Reading.{is_number, is_step_of, of_form, of_words, seen_in};
ghost use Rattle.proof_lines.specs.Words.{seen, words_of};

use crate::fields::fields;
use crate::flaws::Flaw;
use crate::forms::{Form, form_in};
use crate::grammar::Grammar;
use crate::line::Line;
use crate::words::{is_plain, parts_of, stands, word_at, words_of};
use entries::NoMemory;
use std::alloc::Global;

/// A line as it stands in a text.
#[derive(Clone, Copy)]
pub struct Seen {
    /// Its form, where its first words say one.
    pub form: Option<Form>,
    /// What it says, or its flaw of the least kind.
    pub line: Result<Line, Flaw>,
}

/// What bytes without a line feed are as a line. The error is want of memory alone.
#[tactic(auto, unfolding(crate::specs::Reading::line_in))]
pub fn read_line(alloc: Global, grammar: &Grammar<'_>, bytes: &[u8]) -> Result<Seen, NoMemory>
    ensures { IfOk result (λ line. line ≡ seen_in (naming grammar.now) bytes.now) }
{
    let Ok(parts) = parts_of(alloc, bytes) else {
        return Err(NoMemory);
    };
    let Ok(words) = words_of(alloc, parts.as_slice()) else {
        return Err(NoMemory);
    };
    Ok(of_words(grammar, is_plain(bytes), parts.len(), words.as_slice()))
}

/// What words are as a line, which stand as so many parts between spaces. Takes no memory.
fn of_words(grammar: &Grammar<'_>, plain: bool, parts: usize, words: &[&[u8]]) -> Seen
    ensures { result ≡ of_words (naming grammar.now) plain parts (seen words.now) }
{
    let form = form_in(grammar.version, words);
    let line = if plain {
        of_form(grammar, parts, words, form)
    } else {
        Err(Flaw::Byte)
    };
    Seen { form, line }
}

/// The line that plain words are, of a form that their first words say. Takes no memory.
fn of_form(
    grammar: &Grammar<'_>,
    parts: usize,
    words: &[&[u8]],
    form: Option<Form>,
) -> Result<Line, Flaw>
    ensures { result ≡ of_form (naming grammar.now) parts (seen words.now) form }
{
    match form {
        None => Err(Flaw::Word),
        Some(form) => {
            if words.len() == parts && words.len() == form.width(grammar.tables.windows) {
                fields(grammar, form, words)
            } else {
                Err(Flaw::Width)
            }
        }
    }
}

/// Whether bytes begin as a step of this fleet at this station, whatever stands behind.
pub fn is_step_of(
    alloc: Global,
    grammar: &Grammar<'_>,
    fleet: u32,
    station: u32,
    bytes: &[u8],
) -> Result<bool, NoMemory>
    ensures { IfOk result (λ is. is ≡ is_step_of (naming grammar.now) fleet station (words_of bytes.now)) }
{
    let Ok(parts) = parts_of(alloc, bytes) else {
        return Err(NoMemory);
    };
    let Ok(words) = words_of(alloc, parts.as_slice()) else {
        return Err(NoMemory);
    };
    Ok(names_step(grammar, fleet, station, words.as_slice()))
}

/// The same of its words. Takes no memory.
fn names_step(grammar: &Grammar<'_>, fleet: u32, station: u32, words: &[&[u8]]) -> bool
    ensures { result ≡ is_step_of (naming grammar.now) fleet station (seen words.now) }
{
    stands(words, 0, b"at")
        && is_number(grammar.fleet(word_at(words, 1)), fleet)
        && is_number(grammar.station(word_at(words, 2)), station)
}

/// Whether a word names this number. Takes no memory.
fn is_number(named: Result<u32, Flaw>, wanted: u32) -> bool
    ensures { result ≡ is_number named wanted }
{
    match named {
        Ok(number) => number == wanted,
        Err(_) => false,
    }
}
