// The command `drill`.
ghost use Rattle.std.specs.Prelude.{IfOk};
ghost use Rattle.mk_drill.specs.Answer.{IsDrillAnswer};
ghost use Rattle.mk_found.specs.Findings.{effect_of};
ghost use Rattle.mk_kept.specs.Asked.{IsLimit};

use crate::drilling::drill;
use mk_found::{Found, SessionEdit};
use mk_outside::{Bytes, Memory};
use std::alloc::Global;

/// What `drill` comes to.
pub fn drill_found(alloc: Global, start: u32, count: u32) -> Result<Found, Memory>
    requires count { IsLimit count }
    ensures { IfOk result (λ found. IsDrillAnswer start count (effect_of found)) }
{
    let mut line = Vec::new(alloc);
    drill(alloc, start, count, &mut line)?;
    Ok(Found::Answered(SessionEdit::Unchanged, Bytes::of(line)))
}
