// Kept lines: lines without the CR bytes at their ends, each with LF behind it.
ghost use Rattle.std.specs.Prelude.{◌≡◌, ◌++◌, ◌≤◌, slice_range, IfOk, OnOk};
ghost use Rattle.mk_text.specs.KeptLines.{kept_lines, without_crs};
ghost use Rattle.mk_text.specs.LineStart.{IsLineStart};
ghost use Rattle.mk_text.specs.Lines.{ended, lines_of};
ghost use Rattle.mk_text.specs.Spans.{AreWithin, parts};

use crate::columns::length_without_last;
use crate::line_start::{LineStart, line_from};
use crate::{Memory, Span};
use std::alloc::Global;

/// The kept lines of these lines of a text.
pub fn kept_lines(alloc: Global, text: &[u8], lines: &[Span]) -> Result<Vec<u8>, Memory>
    requires { AreWithin text.now lines.now }
    ensures { IfOk result (λ kept. kept.items ≡ kept_lines (parts text.now lines.now)) }
{
    let mut kept = Vec::new(alloc);
    for line in lines {
        put_kept_line(&mut kept, &text[line.from..line.to])?;
    }
    Ok(kept)
}

/// The kept lines of the lines from one on up to another, which isn't among them.
pub fn kept_lines_between(
    alloc: Global,
    text: &[u8],
    from: LineStart,
    to: LineStart,
) -> Result<Vec<u8>, Memory>
    requires from { IsLineStart text.now from }
    requires to { IsLineStart text.now to }
    requires order { from.line ≤ to.line }
    ensures { IfOk result (λ kept. kept.items ≡ kept_lines (slice_range (lines_of text.now) from.line to.line)) }
{
    // Without their CR bytes the lines take no more room than they have, but for an LF behind the
    // last.
    let room = to.byte.saturating_sub(from.byte) + 1;
    let mut kept = Vec::with_capacity(alloc, room)?;
    let mut at = from;
    for i in from.line..to.line {
        let Some((line, next)) = line_from(text, at) else {
            unreachable!()
        };
        put_kept_line(&mut kept, line)?;
        at = next;
    }
    Ok(kept)
}

// Appends the line without the CR bytes at its end, and LF.
fn put_kept_line(out: &mut Vec<u8>, line: &[u8]) -> Result<(), Memory>
    ensures { OnOk result (out.new.items ≡ out.old.items ++ ended (without_crs line.now)) }
{
    out.extend_from_slice(without_crs(line))?;
    out.extend_from_slice(b"\n")
}

// The line without the CR bytes at its end.
fn without_crs(line: &[u8]) -> &[u8]
    ensures { result.now ≡ without_crs line.now }
{
    &line[..length_without_last(b'\r', line)]
}
