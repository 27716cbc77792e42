// Logical lines in a text, from where the first of their lines begins.
ghost use Rattle.std.specs.Prelude.{◌≡◌, ◌<◌, ◌≤◌, ◌+◌, drop, length, IfOk, IfSome};
ghost use Rattle.std.specs.List.{suffix_len};
ghost use Rattle.mk_text.specs.LineStart.{IsLineStart};
ghost use Rattle.mk_text.specs.Lines.{lines_of};
ghost use Rattle.mk_tables.specs.TableWalk.{AnswersAt, TakesTo};
ghost use Rattle.mk_v3000.specs.LogicalLines.{is_logical, is_blank_or_cr, without_last, text_behind, ends_with_dash, piece_of};
ghost use Rattle.mk_v3000.specs.Walking.{texts};

use mk_tables::TableFault;
use mk_text::{Bytes, LineStart, Listed, line_from};
use std::alloc::Global;

#[tactic(auto, unfolding(crate::specs::LogicalLines::is_logical))]
fn is_logical(line: &[u8]) -> bool
    ensures { result ≡ is_logical line.now }
{
    line.starts_with(b"M  V30 ")
}

fn is_blank_or_cr(byte: u8) -> bool
    ensures { result ≡ is_blank_or_cr byte }
{
    byte == b' ' || byte == b'\r'
}

// How long the cells are without the blanks and CR bytes at their end.
fn length_without_last(cells: &[u8]) -> usize
    ensures { result + suffix_len is_blank_or_cr cells.now ≡ length cells.now }
{
    let mut size = cells.len();
    while size > 0 && is_blank_or_cr(cells[size - 1]) {
        size -= 1;
    }
    size
}

// What follows `M  V30 ` on a line that begins so.
#[tactic(auto, unfolding(crate::specs::LogicalLines::text_behind))]
fn text_behind(line: &[u8]) -> &[u8]
    requires { 7 ≤ length line.now }
    ensures { result.now ≡ text_behind line.now }
{
    let cells = &line[7..];
    &cells[..length_without_last(cells)]
}

#[tactic(auto, unfolding(crate::specs::LogicalLines::ends_with_dash))]
fn ends_with_dash(text: &[u8]) -> bool
    ensures { result ≡ ends_with_dash text.now }
{
    !text.is_empty() && text[text.len() - 1] == b'-'
}

// The text without a `-` at its end.
#[tactic(auto, unfolding(crate::specs::LogicalLines::piece_of, crate::specs::LogicalLines::ends_with_dash))]
fn piece_of(text: &[u8]) -> &[u8]
    ensures { result.now ≡ piece_of text.now }
{
    if text.is_empty() || text[text.len() - 1] != b'-' {
        return text;
    }
    &text[..text.len() - 1]
}

/// The text of the logical line that begins there where it is one line, and where the line behind it
/// begins; None where it is several lines, or none.
pub fn one_line_from(text: &[u8], at: LineStart) -> Option<(&[u8], LineStart)>
    requires { IsLineStart text.now at }
    ensures value { IfSome result (λ r. TakesTo text.now r.1 r.0.now (texts.read (drop at.line (lines_of text.now)))) }
    ensures next { IfSome result (λ r. r.1.line ≡ at.line + 1) }
{
    let (line, next) = line_from(text, at)?;
    if !is_logical(line) {
        return None;
    }
    let behind = text_behind(line);
    if ends_with_dash(behind) {
        return None;
    }
    Some((behind, next))
}

/// The text of the logical line that begins there, and where the line behind it begins.
pub fn logical_line_from(
    alloc: Global,
    text: &[u8],
    from: LineStart,
) -> Result<(Bytes, LineStart), TableFault>
    requires { IsLineStart text.now from }
    ensures value { AnswersAt text.now result (texts.read (drop from.line (lines_of text.now))) }
    ensures ahead { IfOk result (λ r. from.line < r.1.line) }
{
    let mut joint = Vec::new(alloc);
    let mut at = from;
    while let Some((line, next)) = line_from(text, at) {
        if !is_logical(line) {
            return Err(TableFault::Bad { line: at.line + 1 });
        }
        let behind = text_behind(line);
        joint.extend_from_slice(piece_of(behind))?;
        if !ends_with_dash(behind) {
            return Ok((Listed::of(joint), next));
        }
        at = next;
    }
    Err(TableFault::Bad { line: at.line + 1 })
}
