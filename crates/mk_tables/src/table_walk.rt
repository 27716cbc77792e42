// Tables in a text, read line by line from where the first one begins, with no list of lines.
ghost use Rattle.std.specs.Prelude.{◌≤◌, ◌<◌, ◌^◌, drop, IfOk};
ghost use Rattle.mk_text.specs.LineStart.{IsLineStart};
ghost use Rattle.mk_text.specs.Lines.{lines_of};
ghost use Rattle.mk_form.specs.Lines.{line as one_line, counts_line};
ghost use Rattle.mk_form.specs.Rows.{rows, any_lines};
ghost use Rattle.mk_props.specs.Reading.{property_of};
ghost use Rattle.mk_tables.specs.Molfile.{molfile_at};
ghost use Rattle.mk_tables.specs.TableLines.{is_v3000, counts_of};
ghost use Rattle.mk_tables.specs.TableReading.{AnswersProperty, properties_part, table_at};
ghost use Rattle.mk_tables.specs.TableWalk.{AnswersAt, AnswersPast};

use crate::fault::TableFault;
use crate::raw::{Properties, RawAtom, RawBond, RawList, RawTable};
use crate::rows::Row;
use crate::table_lines::{CountsLine, read_counts, says_v3000};
use mk_props::{LineFault, Property, read_property};
use mk_text::{LineStart, Listed, line_from};
use std::alloc::Global;

fn counts_from(text: &[u8], at: LineStart) -> Result<(CountsLine, LineStart), TableFault>
    requires { IsLineStart text.now at }
    ensures { AnswersAt text.now result ((counts_line is_v3000 counts_of).read (drop at.line (lines_of text.now))) }
{
    let Some((line, next)) = line_from(text, at) else {
        return Err(TableFault::Bad { line: at.line + 1 });
    };
    match read_counts(line) {
        Some(counts) => Ok((counts, next)),
        None => {
            if says_v3000(line) {
                Err(TableFault::V3000 { line: at.line + 1 })
            } else {
                Err(TableFault::Bad { line: at.line + 1 })
            }
        }
    }
}

fn row_from<R: Row>(alloc: Global, text: &[u8], at: LineStart) -> Result<(R, LineStart), TableFault>
    requires { IsLineStart text.now at }
    ensures { AnswersAt text.now result ((one_line R.row_of).read (drop at.line (lines_of text.now))) }
{
    let Some((line, next)) = line_from(text, at) else {
        return Err(TableFault::Bad { line: at.line + 1 });
    };
    match R::read(alloc, line) {
        Ok(row) => Ok((row, next)),
        Err(LineFault::Bad) => Err(TableFault::Bad { line: at.line + 1 }),
        Err(LineFault::Memory) => Err(TableFault::Memory),
    }
}

// So many rows.
fn rows_from<R: Row + Drop>(
    alloc: Global,
    text: &[u8],
    from: LineStart,
    count: usize,
) -> Result<(Listed<R>, LineStart), TableFault>
    requires { IsLineStart text.now from }
    ensures { AnswersAt text.now result ((rows count (one_line R.row_of)).read (drop from.line (lines_of text.now))) }
{
    let mut rows = Vec::with_capacity(alloc, count)?;
    let mut at = from;
    for i in 0..count {
        let (row, next) = row_from::<R>(alloc, text, at)?;
        rows.push(row)?;
        at = next;
    }
    Ok((Listed::of(rows), at))
}

// So many lines, whatever they are.
fn pass_over(text: &[u8], from: LineStart, count: usize) -> Result<LineStart, TableFault>
    requires { IsLineStart text.now from }
    ensures value { AnswersPast text.now result ((any_lines count).read (drop from.line (lines_of text.now))) }
    ensures ahead { IfOk result (λ next. from.line ≤ next.line) }
{
    let mut at = from;
    for i in 0..count {
        let Some((_line, next)) = line_from(text, at) else {
            return Err(TableFault::Bad { line: at.line + 1 });
        };
        at = next;
    }
    Ok(at)
}

// The property of a line, which is that of the index `at`.
fn property_on(alloc: Global, line: &[u8], at: usize) -> Result<Property, TableFault>
    requires { at < 2 ^ 63 }
    ensures { AnswersProperty at result (property_of line.now) }
{
    match read_property(alloc, line) {
        Ok(property) => Ok(property),
        Err(LineFault::Bad) => Err(TableFault::Bad { line: at + 1 }),
        Err(LineFault::Memory) => Err(TableFault::Memory),
    }
}

// Property lines up to `M  END`.
fn properties_from(
    alloc: Global,
    text: &[u8],
    from: LineStart,
) -> Result<(Properties, LineStart), TableFault>
    requires { IsLineStart text.now from }
    ensures { AnswersAt text.now result (properties_part.read (drop from.line (lines_of text.now))) }
{
    let mut props = Properties::new(alloc);
    let mut at = from;
    while let Some((line, next)) = line_from(text, at) {
        match property_on(alloc, line, at.line)? {
            Property::End => return Ok((props, next)),
            Property::Passed(count) => {
                at = pass_over(text, next, count as usize)?;
            }
            property => {
                props.push(property)?;
                at = next;
            }
        }
    }
    Err(TableFault::Bad { line: at.line + 1 })
}

/// Reads the table that begins there, and gives where the line behind its `M  END` begins. The
/// lines that a fault names count from 1, in the whole text.
pub fn table_from(
    alloc: Global,
    text: &[u8],
    at: LineStart,
) -> Result<(RawTable, LineStart), TableFault>
    requires { IsLineStart text.now at }
    ensures { AnswersAt text.now result (table_at (drop at.line (lines_of text.now))) }
{
    let (counts, next) = counts_from(text, at)?;
    let (atoms, next) = rows_from::<RawAtom>(alloc, text, next, counts.atoms as usize)?;
    let (bonds, next) = rows_from::<RawBond>(alloc, text, next, counts.bonds as usize)?;
    let (lists, next) = rows_from::<RawList>(alloc, text, next, counts.lists as usize)?;
    let next = pass_over(text, next, 2 * counts.stext as usize)?;
    let (props, next) = properties_from(alloc, text, next)?;
    let table = RawTable {
        atoms,
        bonds,
        lists,
        props,
    };
    Ok((table, next))
}

/// Reads the molfile that begins there, which is three header lines and a table, and gives where
/// the line behind its `M  END` begins. The lines that a fault names count from 1, in the whole
/// text.
pub fn molfile_from(
    alloc: Global,
    text: &[u8],
    at: LineStart,
) -> Result<(RawTable, LineStart), TableFault>
    requires { IsLineStart text.now at }
    ensures { AnswersAt text.now result (molfile_at (drop at.line (lines_of text.now))) }
{
    let behind = pass_over(text, at, 3)?;
    table_from(alloc, text, behind)
}
