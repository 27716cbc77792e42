// V3000 tables in a text, from where the first line of one begins.
ghost use Rattle.std.specs.Prelude.{◌≡◌, ◌<◌, ◌≤◌, drop, length, IfOk};
ghost use Rattle.mk_form.specs.Lines.{line_where};
ghost use Rattle.mk_text.specs.LineStart.{IsLineStart};
ghost use Rattle.mk_text.specs.Lines.{lines_of};
ghost use Rattle.mk_tables.specs.TableLines.{is_v3000};
ghost use Rattle.mk_tables.specs.TableWalk.{AnswersAt, AnswersPast};
ghost use Rattle.mk_v3000.specs.V3000Table.{is_end_line};
ghost use Rattle.mk_v3000.specs.Walk.{first_walk, IsFew};
ghost use Rattle.mk_v3000.specs.Walking.{one_step, walk_part, end_part, v3000_at};

use crate::logical_lines::{logical_line_from, one_line_from};
use crate::walk::{Walk, first_walk, is_done, take};
use mk_props::LineFault;
use mk_tables::{RawTable, TableFault};
use mk_text::{LineStart, line_from, trimmed_column};
use std::alloc::Global;

fn says_v3000(line: &[u8]) -> bool
    ensures { result ≡ is_v3000 line.now }
{
    trimmed_column(line, 34, 39) == b"V3000".as_slice()
}

#[tactic(auto, unfolding(crate::specs::V3000Table::is_end_line))]
fn is_end_line(line: &[u8]) -> bool
    ensures { result ≡ is_end_line line.now }
{
    line.starts_with(b"M  END")
}

// The counts line, which isn't read further.
fn counts_line_from(text: &[u8], at: LineStart) -> Result<LineStart, TableFault>
    requires { IsLineStart text.now at }
    ensures { AnswersPast text.now result ((line_where is_v3000).read (drop at.line (lines_of text.now))) }
{
    let Some((line, next)) = line_from(text, at) else {
        return Err(TableFault::Bad { line: at.line + 1 });
    };
    if !says_v3000(line) {
        return Err(TableFault::Bad { line: at.line + 1 });
    }
    Ok(next)
}

fn last_line_from(text: &[u8], at: LineStart) -> Result<LineStart, TableFault>
    requires { IsLineStart text.now at }
    ensures { AnswersPast text.now result ((line_where is_end_line).read (drop at.line (lines_of text.now))) }
{
    let Some((line, next)) = line_from(text, at) else {
        return Err(TableFault::Bad { line: at.line + 1 });
    };
    if !is_end_line(line) {
        return Err(TableFault::Bad { line: at.line + 1 });
    }
    Ok(next)
}

// One logical line, and what it makes of what has been read.
fn step_from(
    alloc: Global,
    text: &[u8],
    at: LineStart,
    walk: Walk,
) -> Result<(Walk, LineStart), TableFault>
    requires start { IsLineStart text.now at }
    requires few { IsFew walk }
    ensures value { AnswersAt text.now result ((one_step walk).read (drop at.line (lines_of text.now))) }
    ensures ahead { IfOk result (λ r. at.line < r.1.line) }
    ensures few { IfOk result (λ r. IsFew r.0) }
{
    // Nearly every logical line is one line, whose text isn't copied.
    if let Some((words, next)) = one_line_from(text, at) {
        return match take(alloc, walk, words) {
            Ok(taken) => Ok((taken, next)),
            Err(LineFault::Bad) => Err(TableFault::Bad { line: at.line + 1 }),
            Err(LineFault::Memory) => Err(TableFault::Memory),
        };
    }
    let (joint, next) = logical_line_from(alloc, text, at)?;
    match take(alloc, walk, joint.as_slice()) {
        Ok(taken) => Ok((taken, next)),
        Err(LineFault::Bad) => Err(TableFault::Bad { line: next.line }),
        Err(LineFault::Memory) => Err(TableFault::Memory),
    }
}

// The logical lines to the end of the table.
fn body_from(alloc: Global, text: &[u8], from: LineStart) -> Result<(Walk, LineStart), TableFault>
    requires { IsLineStart text.now from }
    ensures { AnswersAt text.now result ((walk_part first_walk).read (drop from.line (lines_of text.now))) }
{
    let mut walk = first_walk(alloc);
    let mut at = from;
    while !is_done(&walk) {
        let (taken, next) = step_from(alloc, text, at, walk)?;
        walk = taken;
        at = next;
    }
    Ok((walk, at))
}

/// Reads the V3000 table that begins there, and gives where the line behind its `M  END` begins.
/// The lines that a fault names count from 1, in the whole text.
pub fn v3000_from(
    alloc: Global,
    text: &[u8],
    at: LineStart,
) -> Result<(RawTable, LineStart), TableFault>
    requires { IsLineStart text.now at }
    ensures { AnswersAt text.now result (v3000_at (drop at.line (lines_of text.now))) }
{
    let next = counts_line_from(text, at)?;
    let (walk, next) = body_from(alloc, text, next)?;
    let next = last_line_from(text, next)?;
    Ok((walk.table, next))
}
