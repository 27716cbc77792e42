// The table that begins at a line of a text whose lines are known by their places.
ghost use Rattle.std.specs.Prelude.{◌≡◌, ◌≤◌, ◌<◌, length, drop, IfOk};
ghost use Rattle.mk_text.specs.Lines.{lines_of};
ghost use Rattle.mk_text.specs.LineStart.{BeginLines};
ghost use Rattle.mk_text.specs.Spans.{parts};
ghost use Rattle.mk_tables.specs.TableReading.{Answers, table_at};
ghost use Rattle.mk_tables.specs.TableFacts.{IsRawTable};
ghost use Rattle.mk_tables.specs.TableFaults.{IfBad, IfV3000};
ghost use Rattle.mk_tables.specs.TableLaws.{IsTableFrom, IsBadFrom, IsV3000From};

use crate::fault::TableFault;
use crate::raw::RawTable;
use crate::table_walk::table_from;
use mk_text::{Span, start_of_line};
use std::alloc::Global;

fn table_of_line(
    alloc: Global,
    text: &[u8],
    lines: &[Span],
    at: usize,
) -> Result<(RawTable, usize), TableFault>
    requires lines { parts text.now lines.now ≡ lines_of text.now }
    requires starts { BeginLines text.now lines.now }
    requires there { at ≤ length lines.now }
    ensures { Answers (lines_of text.now) result (table_at (drop at (lines_of text.now))) }
{
    let (table, next) = table_from(alloc, text, start_of_line(text, lines, at))?;
    Ok((table, next.line))
}

/// Reads the table that begins at the line of the index `at`, and gives the index of the line
/// behind its `M  END`. Indexes count from 0, and the lines that a fault names from 1.
pub fn read_table(
    alloc: Global,
    text: &[u8],
    lines: &[Span],
    at: usize,
) -> Result<(RawTable, usize), TableFault>
    requires lines { parts text.now lines.now ≡ lines_of text.now }
    requires starts { BeginLines text.now lines.now }
    requires there { at ≤ length lines.now }

    ensures table { IfOk result (λ r. IsTableFrom at (lines_of text.now) r.1 r.0) }
    ensures bad { IfBad result (IsBadFrom at (lines_of text.now)) }
    ensures unnamed { IfBad result (λ k. ¬ (IsV3000From at (lines_of text.now) k)) }
    ensures v3000 { IfV3000 result (IsBadFrom at (lines_of text.now)) }
    ensures named { IfV3000 result (IsV3000From at (lines_of text.now)) }

    ensures keeps { IfOk result (λ r. IsRawTable r.0) }
    ensures fewer { IfOk result (λ r. length r.0.props < length (lines_of text.now)) }

    // The same, computed from the left.
    ensures value { Answers (lines_of text.now) result (table_at (drop at (lines_of text.now))) }
{
    table_of_line(alloc, text, lines, at)
}
