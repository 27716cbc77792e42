// The query of the drill, from its file.
ghost use Rattle.std.specs.Prelude.{◌≡◌, IfOk, length};
ghost use Rattle.mk_text.specs.Lines.{lines_of};
ghost use Rattle.mk_tables.specs.declared.fault.TableFault.TheVariants as table_fault;
ghost use Rattle.mk_query.specs.declared.compile_fault.CompileFault.TheVariants as compile_fault;
ghost use Rattle.mk_rgfile.specs.QueryFacts.{FitsIn, IsRawQuery};
ghost use Rattle.mk_rgfile.specs.QueryFile.{IsQueryFile};
ghost use Rattle.mk_drill.specs.DrillQuery.{IsDrillQuery, query_text};

use mk_model::Query;
use mk_query::{CompileFault, compile};
use mk_rgfile::{RawQuery, read_rgfile};
use mk_tables::TableFault;
use mk_text::Memory;
use std::alloc::Global;

/// The query of the drill.
pub fn drill_query(alloc: Global) -> Result<Query, Memory>
    ensures { IfOk result IsDrillQuery }
{
    let text = query_text();
    match read_rgfile(alloc, text) {
        Ok(raw) => compiled(alloc, &raw),
        Err(fault) => Err(unread(fault)),
    }
}

// The text is a query file, so no other fault comes.
fn unread(fault: TableFault) -> Memory
    requires { fault ≡ table_fault.Memory }
{
    match fault {
        TableFault::Memory => Memory,
        _ => unreachable!(),
    }
}

fn compiled(alloc: Global, raw: &RawQuery) -> Result<Query, Memory>
    requires read { IsQueryFile (lines_of query_text) raw.now }
    requires keeps { IsRawQuery raw.now }
    requires fits { FitsIn (length (lines_of query_text)) raw.now }
    ensures { IfOk result IsDrillQuery }
{
    match compile(alloc, raw) {
        Ok(query) => Ok(query),
        Err(fault) => Err(failed(fault)),
    }
}

// It passes every check, so no other fault comes.
fn failed(fault: CompileFault) -> Memory
    requires { fault ≡ compile_fault.Memory }
{
    match fault {
        CompileFault::Memory => Memory,
        _ => unreachable!(),
    }
}

fn query_text() -> &'static [u8]
    ensures { result.now ≡ query_text }
{
    b"$MDL  REV  1
$MOL
$HDR
substituted benzene
  example

$END HDR
$CTAB
  7  7  0  0  0  0            999 V2000
    0.0000    1.4000    0.0000 C   0  0
    1.2124    0.7000    0.0000 C   0  0
    1.2124   -0.7000    0.0000 C   0  0
    0.0000   -1.4000    0.0000 C   0  0
   -1.2124   -0.7000    0.0000 C   0  0
   -1.2124    0.7000    0.0000 C   0  0
    0.0000    2.8000    0.0000 R#  0  0
  1  2  2  0
  2  3  1  0
  3  4  2  0
  4  5  1  0
  5  6  2  0
  1  6  1  0
  1  7  1  0
M  LOG  1   1   0   1
M  RGP  1   7   1
M  END
$END CTAB
$RGP
  1
$CTAB
  1  0  0  0  0  0            999 V2000
    0.0000    0.0000    0.0000 Cl  0  0
M  APO  1   1   1
M  END
$END CTAB
$CTAB
  1  0  0  0  0  0            999 V2000
    0.0000    0.0000    0.0000 Br  0  0
M  APO  1   1   1
M  END
$END CTAB
$CTAB
  2  1  0  0  0  0            999 V2000
    0.0000    0.0000    0.0000 O   0  0
    1.4000    0.0000    0.0000 C   0  0
  1  2  1  0
M  APO  1   1   1
M  END
$END CTAB
$END RGP
$END MOL
"
}
