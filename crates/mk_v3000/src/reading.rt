// The V3000 table that begins at a line of a text whose lines are known by their places.
ghost use Rattle.std.specs.Prelude.{◌≡◌, ◌≤◌, length, drop, IfOk};
ghost use Rattle.mk_text.specs.Lines.{lines_of};
ghost use Rattle.mk_text.specs.LineStart.{BeginLines};
ghost use Rattle.mk_text.specs.Spans.{parts};
ghost use Rattle.mk_tables.specs.TableFacts.{IsRawTable};
ghost use Rattle.mk_tables.specs.TableFaults.{IfBad, IfV3000};
ghost use Rattle.mk_tables.specs.TableReading.{Answers};
ghost use Rattle.mk_v3000.specs.V3000Form.{IsV3000TableFrom, IsBadV3000From};
ghost use Rattle.mk_v3000.specs.Walking.{v3000_at};

use crate::v3000::v3000_from;
use mk_tables::{RawTable, TableFault};
use mk_text::{Span, start_of_line};
use std::alloc::Global;

fn v3000_of_line(
    alloc: Global,
    text: &[u8],
    lines: &[Span],
    at: usize,
) -> Result<(RawTable, usize), TableFault>
    requires lines { parts text.now lines.now ≡ lines_of text.now }
    requires starts { BeginLines text.now lines.now }
    requires there { at ≤ length lines.now }
    ensures { Answers (lines_of text.now) result (v3000_at (drop at (lines_of text.now))) }
{
    let (table, next) = v3000_from(alloc, text, start_of_line(text, lines, at))?;
    Ok((table, next.line))
}

/// Reads the V3000 table whose counts line is the line of the index `at`, as its twin, and gives the
/// index of the line behind its `M  END`. Indexes count from 0, and the lines that a fault names
/// from 1. No line is named V3000.
pub fn read_v3000(
    alloc: Global,
    text: &[u8],
    lines: &[Span],
    at: usize,
) -> Result<(RawTable, usize), TableFault>
    requires lines { parts text.now lines.now ≡ lines_of text.now }
    requires starts { BeginLines text.now lines.now }
    requires there { at ≤ length lines.now }

    ensures table { IfOk result (λ r. IsV3000TableFrom at (lines_of text.now) r.1 r.0) }
    ensures bad { IfBad result (IsBadV3000From at (lines_of text.now)) }
    ensures unnamed { IfV3000 result (λ k. ⊥) }

    ensures keeps { IfOk result (λ r. IsRawTable r.0) }
    ensures few { IfOk result (λ r. length r.0.props ≤ 2997) }

    // The same, computed from the left.
    ensures value { Answers (lines_of text.now) result (v3000_at (drop at (lines_of text.now))) }
{
    v3000_of_line(alloc, text, lines, at)
}
