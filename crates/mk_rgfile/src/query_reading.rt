// Reads query files. A line is read where it lies in the text, by its index.
ghost use Rattle.std.specs.Prelude.{◌≡◌, ◌≤◌, ◌<◌, ◌+◌, [], length, drop, slice_index_or, IfOk};
ghost use Rattle.mk_form.specs.Lines.{line as one_line};
ghost use Rattle.mk_form.specs.Rows.{any_lines};
ghost use Rattle.mk_form.specs.ToEnd.{lines_to_end};
ghost use Rattle.mk_text.specs.Columns.{are_blank};
ghost use Rattle.mk_text.specs.Lines.{lines_of};
ghost use Rattle.mk_tables.specs.TableFaults.{IfBad, IfV3000};
ghost use Rattle.mk_tables.specs.TableReading.{Answers, AnswersText, AnswersLine, AnswersIndex};
ghost use Rattle.mk_rgfile.specs.QueryLines.{group_number_of};
ghost use Rattle.mk_rgfile.specs.QueryFile.{IsQueryFile, IsBadQueryLine, IsV3000Line};
ghost use Rattle.mk_rgfile.specs.QueryFacts.{IsRawQuery, FitsIn};
ghost use Rattle.mk_rgfile.specs.QueryReading.{AreLines, keyword, block_at, members_part, group_at, first_of, head_part, groups_part, rgfile_part, molfile_part, query_at};

use crate::query_lines::{is_keyword_line, is_mdl_line, read_group_number};
use crate::raw_query::{RawGroup, RawGroups, RawQuery, RawTables};
use mk_tables::{RawTable, TableFault, read_table};
use mk_text::{Span, is_blank, lines};
use std::alloc::Global;

// ---- single lines

fn line_at<'a>(text: &'a [u8], lines: &[Span], at: usize) -> &'a [u8]
    requires lines { AreLines text.now lines.now }
    requires there { at < length lines.now }
    ensures { result.now ≡ slice_index_or (lines_of text.now) at [] }
{
    let span = lines[at];
    &text[span.from..span.to]
}

// The line that is the keyword.
fn keyword_at(text: &[u8], lines: &[Span], at: usize, word: &[u8]) -> Result<usize, TableFault>
    requires lines { AreLines text.now lines.now }
    requires there { at ≤ length lines.now }
    ensures value { AnswersIndex (lines_of text.now) result ((keyword word.now).read (drop at (lines_of text.now))) }
    ensures next { IfOk result (λ next. next ≡ at + 1) }
{
    if at == lines.len() {
        return Err(TableFault::Bad { line: at + 1 });
    }
    if !is_keyword_line(line_at(text, lines, at), word) {
        return Err(TableFault::Bad { line: at + 1 });
    }
    Ok(at + 1)
}

// The line with the number of a group.
fn number_at(text: &[u8], lines: &[Span], at: usize) -> Result<u8, TableFault>
    requires lines { AreLines text.now lines.now }
    requires there { at ≤ length lines.now }
    ensures { AnswersLine (lines_of text.now) at result ((one_line group_number_of).read (drop at (lines_of text.now))) }
{
    if at == lines.len() {
        return Err(TableFault::Bad { line: at + 1 });
    }
    match read_group_number(line_at(text, lines, at)) {
        Some(number) => Ok(number),
        None => Err(TableFault::Bad { line: at + 1 }),
    }
}

// Whether the first line begins with `$MDL`.
fn begins_rgfile(text: &[u8], lines: &[Span]) -> Result<bool, TableFault>
    requires { AreLines text.now lines.now }
    ensures { AnswersLine (lines_of text.now) 0 result ((one_line first_of).read (lines_of text.now)) }
{
    if lines.is_empty() {
        return Err(TableFault::Bad { line: 1 });
    }
    Ok(is_mdl_line(line_at(text, lines, 0)))
}

// So many lines, whatever they are.
fn pass_over(text: &[u8], lines: &[Span], at: usize, count: usize) -> Result<usize, TableFault>
    requires lines { AreLines text.now lines.now }
    requires there { at ≤ length lines.now }
    ensures { AnswersIndex (lines_of text.now) result ((any_lines count).read (drop at (lines_of text.now))) }
{
    if lines.len() - at < count {
        return Err(TableFault::Bad {
            line: lines.len() + 1,
        });
    }
    Ok(at + count)
}

// Blank lines to the end.
fn blanks_from(text: &[u8], lines: &[Span], at: usize) -> Result<(), TableFault>
    requires lines { AreLines text.now lines.now }
    requires there { at ≤ length lines.now }
    ensures { AnswersText (lines_of text.now) result ((lines_to_end are_blank).read (drop at (lines_of text.now))) }
{
    for i in at..lines.len() {
        if !is_blank(line_at(text, lines, i)) {
            return Err(TableFault::Bad { line: i + 1 });
        }
    }
    Ok(())
}

// ---- the parts of an RGfile

// From `$MOL` to `$END HDR`.
fn head_from(text: &[u8], lines: &[Span], at: usize) -> Result<usize, TableFault>
    requires lines { AreLines text.now lines.now }
    requires there { at ≤ length lines.now }
    ensures { AnswersIndex (lines_of text.now) result (head_part.read (drop at (lines_of text.now))) }
{
    let next = keyword_at(text, lines, at, b"$MOL")?;
    let opened = keyword_at(text, lines, next, b"$HDR")?;
    let closing = pass_over(text, lines, opened, 3)?;
    keyword_at(text, lines, closing, b"$END HDR")
}

// A table between its keywords.
#[tactic(auto, unfolding(crate::specs::QueryReading::block_at))]
fn block_from(
    alloc: Global,
    text: &[u8],
    lines: &[Span],
    at: usize,
) -> Result<(RawTable, usize), TableFault>
    requires lines { AreLines text.now lines.now }
    requires there { at ≤ length lines.now }
    ensures value { Answers (lines_of text.now) result (block_at (drop at (lines_of text.now))) }
    ensures ahead { IfOk result (λ r. at < r.1) }
{
    let opened = keyword_at(text, lines, at, b"$CTAB")?;
    let (table, closing) = read_table(alloc, text, lines, opened)?;
    let next = keyword_at(text, lines, closing, b"$END CTAB")?;
    Ok((table, next))
}

// The members of a group, one or more, up to `$END RGP`.
fn members_from(
    alloc: Global,
    text: &[u8],
    lines: &[Span],
    from: usize,
) -> Result<(RawTables, usize), TableFault>
    requires lines { AreLines text.now lines.now }
    requires there { from ≤ length lines.now }
    ensures value { Answers (lines_of text.now) result (members_part.read (drop from (lines_of text.now))) }
    ensures ahead { IfOk result (λ r. from < r.1) }
{
    let (first, mut at) = block_from(alloc, text, lines, from)?;
    let mut members = RawTables::new(alloc);
    members.push(first)?;
    while at < lines.len() {
        if is_keyword_line(line_at(text, lines, at), b"$END RGP") {
            return Ok((members, at + 1));
        }
        let (member, next) = block_from(alloc, text, lines, at)?;
        members.push(member)?;
        at = next;
    }
    Err(TableFault::Bad { line: at + 1 })
}

#[tactic(auto, unfolding(crate::specs::QueryReading::group_at))]
fn group_from(
    alloc: Global,
    text: &[u8],
    lines: &[Span],
    at: usize,
) -> Result<(RawGroup, usize), TableFault>
    requires lines { AreLines text.now lines.now }
    requires there { at ≤ length lines.now }
    ensures value { Answers (lines_of text.now) result (group_at (drop at (lines_of text.now))) }
    ensures ahead { IfOk result (λ r. at < r.1) }
{
    let opened = keyword_at(text, lines, at, b"$RGP")?;
    let number = number_at(text, lines, opened)?;
    let (members, next) = members_from(alloc, text, lines, opened + 1)?;
    Ok((RawGroup { number, members }, next))
}

// Groups, any number of them, up to `$END MOL`.
fn groups_from(
    alloc: Global,
    text: &[u8],
    lines: &[Span],
    from: usize,
) -> Result<(RawGroups, usize), TableFault>
    requires lines { AreLines text.now lines.now }
    requires there { from ≤ length lines.now }
    ensures { Answers (lines_of text.now) result (groups_part.read (drop from (lines_of text.now))) }
{
    let mut groups = RawGroups::new(alloc);
    let mut at = from;
    while at < lines.len() {
        if is_keyword_line(line_at(text, lines, at), b"$END MOL") {
            return Ok((groups, at + 1));
        }
        let (group, next) = group_from(alloc, text, lines, at)?;
        groups.push(group)?;
        at = next;
    }
    Err(TableFault::Bad { line: at + 1 })
}

// ---- the whole

// An RGfile behind its first line.
fn rgfile_from(alloc: Global, text: &[u8], lines: &[Span]) -> Result<RawQuery, TableFault>
    requires lines { AreLines text.now lines.now }
    requires some { 1 ≤ length lines.now }
    ensures { AnswersText (lines_of text.now) result (rgfile_part.read (drop 1 (lines_of text.now))) }
{
    let opened = head_from(text, lines, 1)?;
    let (root, next) = block_from(alloc, text, lines, opened)?;
    let (groups, last) = groups_from(alloc, text, lines, next)?;
    blanks_from(text, lines, last)?;
    Ok(RawQuery { root, groups })
}

// A molfile behind its first line.
fn molfile_from(alloc: Global, text: &[u8], lines: &[Span]) -> Result<RawQuery, TableFault>
    requires lines { AreLines text.now lines.now }
    requires some { 1 ≤ length lines.now }
    ensures { AnswersText (lines_of text.now) result (molfile_part.read (drop 1 (lines_of text.now))) }
{
    let opened = pass_over(text, lines, 1, 2)?;
    let (root, next) = read_table(alloc, text, lines, opened)?;
    blanks_from(text, lines, next)?;
    let groups = RawGroups::new(alloc);
    Ok(RawQuery { root, groups })
}

// Reads a query file by the places of its lines.
#[tactic(auto, unfolding(crate::specs::QueryReading::query_at))]
fn query_of(alloc: Global, text: &[u8], lines: &[Span]) -> Result<RawQuery, TableFault>
    requires { AreLines text.now lines.now }
    ensures { AnswersText (lines_of text.now) result (query_at (lines_of text.now)) }
{
    if begins_rgfile(text, lines)? {
        rgfile_from(alloc, text, lines)
    } else {
        molfile_from(alloc, text, lines)
    }
}

/// Reads an RGfile, where the first line begins with `$MDL`, or else a molfile followed by blank
/// lines alone. Where the text is neither, the fault names the first line with which no query file
/// can begin. Lines count from 1.
pub fn read_rgfile(alloc: Global, text: &[u8]) -> Result<RawQuery, TableFault>
    ensures query { IfOk result (IsQueryFile (lines_of text.now)) }
    ensures bad { IfBad result (IsBadQueryLine (lines_of text.now)) }
    ensures unnamed { IfBad result (λ k. ¬ (IsV3000Line (lines_of text.now) k)) }
    ensures v3000 { IfV3000 result (IsBadQueryLine (lines_of text.now)) }
    ensures named { IfV3000 result (IsV3000Line (lines_of text.now)) }

    ensures keeps { IfOk result IsRawQuery }
    ensures fits { IfOk result (FitsIn (length (lines_of text.now))) }
{
    let lines = lines(alloc, text)?;
    query_of(alloc, text, &lines)
}
