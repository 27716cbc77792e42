// Molfiles of either kind in a text: the table is of the format V2000, or of the format V3000.
ghost use Rattle.std.specs.Prelude.{drop};
ghost use Rattle.mk_form.specs.Rows.{any_lines};
ghost use Rattle.mk_text.specs.LineStart.{IsLineStart};
ghost use Rattle.mk_text.specs.Lines.{lines_of};
ghost use Rattle.mk_tables.specs.TableWalk.{AnswersAt, AnswersPast};
ghost use Rattle.mk_sdfile.specs.MoleculeFile.{molecule_at, v3000_molfile};

use mk_tables::{RawTable, TableFault, molfile_from};
use mk_text::{LineStart, line_from};
use mk_v3000::v3000_from;
use std::alloc::Global;

// Where the line behind so many header lines begins.
fn headers_from(text: &[u8], from: LineStart, count: usize) -> Result<LineStart, TableFault>
    requires { IsLineStart text.now from }
    ensures { AnswersPast text.now result ((any_lines count).read (drop from.line (lines_of text.now))) }
{
    let mut at = from;
    for i in 0..count {
        let Some((_line, next)) = line_from(text, at) else {
            return Err(TableFault::Bad { line: at.line + 1 });
        };
        at = next;
    }
    Ok(at)
}

// Three header lines, and behind them a V3000 table.
fn v3000_molfile_from(
    alloc: Global,
    text: &[u8],
    at: LineStart,
) -> Result<(RawTable, LineStart), TableFault>
    requires { IsLineStart text.now at }
    ensures { AnswersAt text.now result (v3000_molfile.read (drop at.line (lines_of text.now))) }
{
    let behind = headers_from(text, at, 3)?;
    v3000_from(alloc, text, behind)
}

/// Reads the molfile that begins there, whose table is of either kind, and gives where the line
/// behind its `M  END` begins. The lines that a fault names count from 1, in the whole text.
pub fn molecule_from(
    alloc: Global,
    text: &[u8],
    at: LineStart,
) -> Result<(RawTable, LineStart), TableFault>
    requires { IsLineStart text.now at }
    ensures { AnswersAt text.now result (molecule_at (drop at.line (lines_of text.now))) }
{
    match molfile_from(alloc, text, at) {
        Ok((table, next)) => Ok((table, next)),
        Err(TableFault::Bad { line }) => Err(TableFault::Bad { line }),
        Err(TableFault::V3000 { line: _ }) => v3000_molfile_from(alloc, text, at),
        Err(TableFault::Memory) => Err(TableFault::Memory),
    }
}
