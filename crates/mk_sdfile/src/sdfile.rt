// Reads SDfiles, from where one line begins to where the next one does.
ghost use Rattle.std.specs.Prelude.{◌≡◌, ◌++◌, ◌<◌, ◌∷◌, [], All, Ok, IfOk, MatchOption, drop, length, List, max, nat_eq};
ghost use Rattle.mk_form.specs.Reading.{Took, StopsAtLine};
ghost use Rattle.mk_form.specs.ToEnd.{read_all};
ghost use Rattle.mk_text.specs.Columns.{are_blank};
ghost use Rattle.mk_text.specs.LineStart.{IsLineStart};
ghost use Rattle.mk_text.specs.Lines.{lines_of};
ghost use Rattle.mk_tables.specs.TableFacts.{IsRawTable};
ghost use Rattle.mk_tables.specs.TableFaults.{IfBad, IfV3000};
ghost use Rattle.mk_tables.specs.TableReading.{AnswersText};
ghost use Rattle.mk_sdfile.specs.Sdfile.{is_separator, IsSdfile, IsBadSdfileLine, IsNamedV3000};
ghost use Rattle.mk_sdfile.specs.SdfileReading.{sdfile_at, farther_fault};
ghost use Rattle.mk_sdfile.specs.SdfileSteps.{IsDataEnd, AnswersFirst, AnswersBlock};

use crate::molecule_file::molecule_from;
use crate::raw_record::{RawRecord, RawRecords};
use mk_tables::TableFault;
use mk_text::{LineStart, Listed, first_line, is_blank, kept_lines_between, line_from};
use std::alloc::Global;

// The number of the first line from there on that isn't blank; None where all are, to the end.
fn first_not_blank(text: &[u8], from: LineStart) -> Option<usize>
    requires { IsLineStart text.now from }
    ensures { AnswersFirst (lines_of text.now) from.line result }
{
    let mut at = from;
    while let Some((line, next)) = line_from(text, at) {
        if !is_blank(line) {
            return Some(at.line + 1);
        }
        at = next;
    }
    None
}

// Where data lines end, and where the next block begins, if a separator ends them.
#[derive(Clone, Copy)]
pub struct DataEnd {
    pub end: LineStart,
    pub next: Option<LineStart>,
}

fn is_separator(line: &[u8]) -> bool
    ensures { result ≡ is_separator line.now }
{
    line.starts_with(b"$$$$")
}

// The end of the data lines from there on.
fn data_from(text: &[u8], from: LineStart) -> DataEnd
    requires { IsLineStart text.now from }
    ensures { IsDataEnd text.now from.line result }
{
    let mut at = from;
    while let Some((line, next)) = line_from(text, at) {
        if is_separator(line) {
            return DataEnd {
                end: at,
                next: Some(next),
            };
        }
        at = next;
    }
    DataEnd {
        end: at,
        next: None,
    }
}

// The record of the block that begins there, and where the next block begins, if a separator stands
// behind this one.
fn block_from(
    alloc: Global,
    text: &[u8],
    at: LineStart,
) -> Result<(RawRecord, Option<LineStart>), TableFault>
    requires { IsLineStart text.now at }
    ensures { AnswersBlock text.now at.line result }
{
    let (table, behind) = molecule_from(alloc, text, at)?;
    let data = data_from(text, behind);
    let kept = kept_lines_between(alloc, text, at, data.end)?;
    let record = RawRecord {
        table,
        text: Listed::of(kept),
    };
    Ok((record, data.next))
}

// The fault of lines that are neither blank lines alone nor begin with a block, where `first` is
// the first that isn't blank.
fn farther(first: usize, fault: TableFault) -> TableFault
    ensures { result ≡ farther_fault first fault }
{
    match fault {
        TableFault::Bad { line } => TableFault::Bad {
            line: line.max(first),
        },
        TableFault::V3000 { line } => TableFault::V3000 { line },
        TableFault::Memory => TableFault::Memory,
    }
}

fn records_from(alloc: Global, text: &[u8]) -> Result<RawRecords, TableFault>
    ensures { AnswersText (lines_of text.now) result (sdfile_at (lines_of text.now)) }
{
    let mut records = Vec::new(alloc);
    let mut at = first_line(text);
    while let Some(first) = first_not_blank(text, at) {
        match block_from(alloc, text, at) {
            Ok((record, next)) => {
                records.push(record)?;
                match next {
                    Some(behind) => at = behind,
                    None => return Ok(Listed::of(records)),
                }
            }
            Err(fault) => return Err(farther(first, fault)),
        }
    }
    Ok(Listed::of(records))
}

/// Reads the records of an SDfile, in the order of the file. A file of blank lines alone, or of no
/// lines, has none. A table of the format V3000 is read as its twin, and no line is named V3000.
/// Lines count from 1, in the whole text.
pub fn read_sdfile(alloc: Global, text: &[u8]) -> Result<RawRecords, TableFault>
    ensures sdfile { IfOk result (IsSdfile (lines_of text.now)) }
    ensures bad { IfBad result (IsBadSdfileLine (lines_of text.now)) }
    ensures unnamed { IfBad result (λ k. ¬ (IsNamedV3000 (lines_of text.now) k)) }
    ensures v3000 { IfV3000 result (IsBadSdfileLine (lines_of text.now)) }
    ensures named { IfV3000 result (IsNamedV3000 (lines_of text.now)) }
    ensures never { IfV3000 result (λ k. ⊥) }

    ensures keeps { IfOk result (All (λ r. IsRawTable r.table)) }
    ensures fewer { IfOk result (All (λ r. length r.table.props < max (length (lines_of text.now)) 2998)) }

    // The same, computed from the left.
    ensures value { AnswersText (lines_of text.now) result (sdfile_at (lines_of text.now)) }
{
    records_from(alloc, text)
}
