ghost use Rattle.std.specs.Prelude.{◌≡◌, ◌++◌, IfOk, OnOk, map};
ghost use Rattle.std.specs.List.{concat};
ghost use Rattle.printed_lines.specs.Lines.{line_of, piece_text};

use entries::NoMemory;
use std::alloc::Global;

/// A piece of a text.
#[derive(Drop)]
pub enum Piece<'a> {
    /// Bytes as they stand.
    Text(&'a [u8]),
    /// A number without a sign, in decimal.
    Count(u64),
    /// A number in decimal, with a minus below 0.
    Number(i128),
}

/// A line of its own: pieces and a line feed.
pub fn line(alloc: Global, pieces: &[Piece<'_>]) -> Result<Vec<u8>, NoMemory>
    ensures { IfOk result (λ text. text.items ≡ line_of (map piece_text pieces.now)) }
{
    let mut text = Vec::new(alloc);
    push_line(alloc, &mut text, pieces)?;
    Ok(text)
}

/// Appends pieces and a line feed to a text.
pub fn push_line(alloc: Global, text: &mut Vec<u8>, pieces: &[Piece<'_>]) -> Result<(), NoMemory>
    ensures { OnOk result (text.new.items ≡ text.old.items ++ line_of (map piece_text pieces.now)) }
{
    push_pieces(alloc, text, pieces)?;
    text.push(b'\n')?;
    Ok(())
}

/// Appends pieces to a text.
pub fn push_pieces(alloc: Global, text: &mut Vec<u8>, pieces: &[Piece<'_>]) -> Result<(), NoMemory>
    ensures { OnOk result (text.new.items ≡ text.old.items ++ concat (map piece_text pieces.now)) }
{
    for piece in pieces {
        push_piece(alloc, text, piece)?;
    }
    Ok(())
}

/// Appends a piece to a text.
fn push_piece(alloc: Global, text: &mut Vec<u8>, piece: &Piece<'_>) -> Result<(), NoMemory>
    ensures { OnOk result (text.new.items ≡ text.old.items ++ piece_text piece.now) }
{
    match piece {
        Piece::Text(bytes) => text.extend_from_slice(bytes)?,
        Piece::Count(count) => text.extend_from_slice(count.to_string(alloc)?.as_bytes())?,
        Piece::Number(number) => text.extend_from_slice(number.to_string(alloc)?.as_bytes())?,
    }
    Ok(())
}
