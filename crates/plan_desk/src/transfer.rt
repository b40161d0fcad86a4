ghost use Rattle.std.specs.Prelude.{◌≡◌, ◌+◌, ◌-◌, ◌<◌, ◌≤◌, ◌^◌, length, IfOk, IfSome, OnErr, OnOk};
ghost use Rattle.std.specs.Io.KnownBytes.{Appends, ReadConsumes, WriteAppends};
ghost use Rattle.std.specs.Io.{ReadsAtMost, WritesAtMost};
ghost use Rattle.plan_desk.specs.Counts.{counted, RoseBy};
ghost use Rattle.plan_desk.specs.Desk.{OnNotTooLong, OnTooLong};
ghost use Rattle.plan_desk.specs.Sink.{TakesFront};

use crate::DeskError;
use std::alloc::Global;
use std::io;
use std::io::{ErrorKind, Read, Write};

/// How many bytes are asked for in one read.
const PIECE: usize = 65_536;

/// All that a reader gives up to its end, of which there may be up to `limit` bytes. The count is raised by the
/// bytes that were taken.
pub(crate) fn read_whole<S: Read>(
    alloc: Global,
    source: &mut S,
    limit: u64,
    taken: &mut u64,
) -> Result<Vec<u8>, DeskError>
    ensures whole { IfOk result (λ bytes. IfSome (S.remaining source.old) (λ all. bytes.items ≡ all)) }
    ensures within { IfOk result (λ bytes. length bytes.items ≤ limit) }
    ensures too_long { OnTooLong result (IfSome (S.remaining source.old) (λ all. limit < length all)) }
    ensures taken { IfOk result (λ bytes. taken.new ≡ counted taken.old (length bytes.items)) }
    ensures taken_few { OnNotTooLong result (taken.new ≤ taken.old + (limit + 1)) }
    ensures too_long_taken { OnTooLong result (RoseBy (limit + 1) taken.old taken.new) }
    ensures too_long_limit { OnTooLong result (limit < 2 ^ 63 - 1) }
    ensures never_falls { taken.old ≤ taken.new }
{
    let mut piece = [0u8; PIECE];
    let mut bytes = Vec::new(alloc);
    let before = *taken;
    for _turn in 0..u64::MAX {
        let Ok(n) = read_piece(source, &mut piece) else {
            return Err(DeskError::Failed);
        };
        if n == 0 {
            return Ok(bytes);
        }
        bytes.extend_from_slice(&piece[..n])?;
        *taken = before.saturating_add(bytes.len() as u64);
        if bytes.len() as u64 > limit {
            return Err(DeskError::TooLong);
        }
    }
    unreachable!()
}

/// Writes all the bytes. A write that takes nothing of what is left is a fault, and some first bytes were taken then.
pub(crate) fn write_whole<W: Write>(target: &mut W, bytes: &[u8]) -> io::Result<()>
    ensures whole { OnOk result (Appends (W.contents target.old) (W.contents target.new) bytes.now) }
    ensures part { OnErr result (TakesFront (W.contents target.old) (W.contents target.new) bytes.now) }
{
    let mut rest = bytes;
    while !rest.is_empty() {
        let n = write_piece(target, rest)?;
        if n == 0 {
            return Err(io::Error::from(ErrorKind::WriteZero));
        }
        rest = &rest[n..];
    }
    target.flush()
}

/// One read, which is asked for again where a signal interrupted it.
fn read_piece<S: Read>(source: &mut S, piece: &mut [u8]) -> io::Result<usize>
    ensures at_most { ReadsAtMost result piece.new }
    ensures bytes { ReadConsumes (S.remaining source.old) (S.remaining source.new) result piece.new }
{
    for _ in 0..u64::MAX {
        match source.read(piece) {
            Ok(n) => return Ok(n),
            Err(e) => {
                if e.kind() != ErrorKind::Interrupted {
                    return Err(e);
                }
            }
        }
    }
    Err(io::Error::from(ErrorKind::TimedOut))
}

/// One write, which is asked for again where a signal interrupted it.
fn write_piece<W: Write>(target: &mut W, piece: &[u8]) -> io::Result<usize>
    ensures at_most { WritesAtMost result piece.now }
    ensures bytes { WriteAppends (W.contents target.old) (W.contents target.new) result piece.now }
{
    for _ in 0..u64::MAX {
        match target.write(piece) {
            Ok(n) => return Ok(n),
            Err(e) => {
                if e.kind() != ErrorKind::Interrupted {
                    return Err(e);
                }
            }
        }
    }
    Err(io::Error::from(ErrorKind::TimedOut))
}
