// Pieces and texts that go through std's writers and readers.
ghost use Rattle.std.specs.Prelude.{◌≡◌, ◌+◌, ◌≤◌, [], length, IfErr, IfOk, IfSome, Some};
ghost use Rattle.std.specs.Io.KnownBytes.{Keeps, ReadConsumes};
ghost use Rattle.mk_outside.specs.Told.{Puts, Reads};
ghost use Rattle.mk_outside.specs.Streams.{chunk_bytes, TakesAtMost};
ghost use Rattle.mk_outside.specs.declared.answers.PutFail.TheVariants as put_fail;

use crate::causes::{Cause, cause_of};
use crate::{Failed, FileFail, PutFail, ReadEnd};
use std::io::{Read, Write};

// How many bytes are asked for at once.
const CHUNK: usize = 16_384;

/// Writes the whole piece and flushes the writer. A write that takes nothing fails. Want of memory
/// is told apart only before the writer took any of the piece.
pub fn put_whole<W: Write>(writer: &mut W, piece: &[u8]) -> Result<(), PutFail>
    ensures { Puts (W.contents writer.old) (W.contents writer.new) piece.now result }
{
    let mut done = 0;
    for _ in 0..u64::MAX {
        if done >= piece.len() {
            return flush_whole(writer);
        }
        match writer.write(&piece[done..]) {
            Ok(0) => return Err(PutFail::Failed),
            Ok(count) => done += count,
            Err(error) => match cause_of(&error) {
                Cause::Interrupted => {}
                Cause::Memory if done == 0 => return Err(PutFail::Memory),
                _ => return Err(PutFail::Failed),
            },
        }
    }
    Err(PutFail::Failed)
}

// Flushes the writer.
fn flush_whole<W: Write>(writer: &mut W) -> Result<(), PutFail>
    ensures kept { Keeps (W.contents writer.old) (W.contents writer.new) }
    ensures err { IfErr result (λ fail. fail ≡ put_fail.Failed) }
{
    for _ in 0..u64::MAX {
        match writer.flush() {
            Ok(()) => return Ok(()),
            Err(error) => {
                if cause_of(&error) != Cause::Interrupted {
                    return Err(PutFail::Failed);
                }
            }
        }
    }
    Err(PutFail::Failed)
}

/// Reads once, again where a call is interrupted.
pub fn read_some<R: Read>(reader: &mut R, buf: &mut [u8]) -> Result<usize, Failed>
    ensures within { IfOk result (λ n. n ≤ length buf.old) }
    ensures told { ReadConsumes (R.remaining reader.old) (R.remaining reader.new) result buf.new }
{
    for _ in 0..u64::MAX {
        match reader.read(buf) {
            Ok(count) => return Ok(count),
            Err(error) => {
                if cause_of(&error) != Cause::Interrupted {
                    return Err(Failed);
                }
            }
        }
    }
    Err(Failed)
}

/// Reads to the end, or until there are more than `most` bytes: then at most one chunk more was
/// taken.
pub fn read_up_to<R: Read>(
    reader: &mut R,
    most: usize,
    out: &mut Vec<u8>,
) -> Result<ReadEnd, FileFail>
    requires { out.old.items ≡ [] }
    ensures told { IfSome (R.remaining reader.old) (λ bytes. Reads (Some bytes) most out.new.items result) }
    ensures fills { length out.new.items ≤ most }
    ensures taken { TakesAtMost (most + chunk_bytes) (R.remaining reader.old) (R.remaining reader.new) }
{
    let mut chunk = [0u8; CHUNK];
    for _ in 0..u64::MAX {
        match reader.read(&mut chunk) {
            Ok(0) => return Ok(ReadEnd::Whole),
            Ok(count) => {
                if count > most - out.len() {
                    return Ok(ReadEnd::TooLong);
                }
                out.extend_from_slice(&chunk[..count])?;
            }
            Err(error) => match cause_of(&error) {
                Cause::Interrupted => {}
                Cause::Memory => return Err(FileFail::Memory),
                _ => return Err(FileFail::Failed),
            },
        }
    }
    Err(FileFail::Failed)
}
