// The lines of a text, one after the other, with no list of them.
ghost use Rattle.std.specs.Prelude.{◌≡◌, ◌+◌, ◌<◌, ◌≤◌, ◌⊎◌, ℕ, [], length, slice_index_or, IfNone, IfSome};
ghost use Rattle.mk_text.specs.Lines.{lines_of};
ghost use Rattle.mk_text.specs.LineStart.{BeginLines, IsLineStart};
ghost use Rattle.mk_text.specs.Spans.{parts};

use crate::cutting::{Span, end_of_line, first_from};

/// Where a line of a text begins: behind so many lines, and so many bytes.
#[derive(Clone, Copy)]
pub struct LineStart {
    pub line: usize,
    pub byte: usize,
}

/// Where the first line of a text begins.
pub fn first_line(text: &[u8]) -> LineStart
    ensures start { IsLineStart text.now result }
    ensures first { result.line ≡ 0 }
{
    LineStart { line: 0, byte: 0 }
}

/// Where the line of this index begins, or the text's end where all lines are before it. Indexes
/// count from 0.
pub fn start_of_line(text: &[u8], lines: &[Span], at: usize) -> LineStart
    requires lines { parts text.now lines.now ≡ lines_of text.now }
    requires starts { BeginLines text.now lines.now }
    requires there { at ≤ length lines.now }
    ensures start { IsLineStart text.now result }
    ensures line { result.line ≡ at }
{
    let byte = if at < lines.len() {
        lines[at].from
    } else {
        text.len()
    };
    LineStart { line: at, byte }
}

// The place behind an LF, or the end of the text.
fn behind_lf(text: &[u8], lf: usize) -> usize
    requires { lf ≤ length text.now }
    ensures { ((lf < length text.now) × (result ≡ lf + 1)) ⊎ ((length text.now ≤ lf) × (result ≡ lf)) }
{
    if lf < text.len() {
        return lf + 1;
    }
    lf
}

/// The line that begins there, and where the next one begins; None where no line is left.
pub fn line_from(text: &[u8], start: LineStart) -> Option<(&[u8], LineStart)>
    requires { IsLineStart text.now start }
    ensures none { IfNone result (start.line ≡ length (lines_of text.now)) }
    ensures there { IfSome result (λ r. start.line < length (lines_of text.now)) }
    ensures line { IfSome result (λ r. r.0.now ≡ slice_index_or (lines_of text.now) start.line []) }
    ensures next { IfSome result (λ r. r.1.line ≡ start.line + 1) }
    ensures start { IfSome result (λ r. IsLineStart text.now r.1) }
{
    if start.byte == text.len() {
        return None;
    }
    let lf = first_from(text, start.byte, b'\n');
    let to = end_of_line(text, start.byte, lf);
    let next = LineStart {
        line: start.line + 1,
        byte: behind_lf(text, lf),
    };
    Some((&text[start.byte..to], next))
}
