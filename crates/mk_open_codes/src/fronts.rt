// Open codes of fronts, and of one choice alone.
ghost use Rattle.std.specs.Prelude.{◌≤◌, ◌<◌, IfOk, length};
ghost use Rattle.mk_model.specs.Nodes.{BeginsCode};
ghost use Rattle.mk_model.specs.OpenSlots.{most_at};
ghost use Rattle.mk_model.specs.Queries.{slots_of};
ghost use Rattle.mk_open_codes.specs.Alone.{IsAloneCode, root_slot};
ghost use Rattle.mk_open_codes.specs.Fronts.{IsFrontCode};
ghost use Rattle.mk_open_codes.specs.Passing.{HasOpenCode};

use crate::slots::behind_template;
use mk_model::{Memory, Query};
use std::alloc::Global;

/// The open code of a front with which a code begins: all slots behind it are left open.
pub fn front_code(alloc: Global, query: &Query, front: &[u32]) -> Result<Vec<u32>, Memory>
    requires { BeginsCode query.now front.now }
    ensures { IfOk result (λ code. IsFrontCode query.now front.now code.items) }
{
    open_behind(alloc, query, front)
}

/// The open code that decides a number at a slot of the root alone.
pub fn alone_code(
    alloc: Global,
    query: &Query,
    slot: usize,
    number: u32,
) -> Result<Vec<u32>, Memory>
    requires slot { slot < length (slots_of query.now 0) }
    requires least { 1 ≤ number }
    requires most { number ≤ most_at query.now (root_slot query.now slot) }
    ensures { IfOk result (λ code. IsAloneCode query.now slot number code.items) }
{
    let mut front = vec![in alloc; 0u32; slot]?;
    front.push(number)?;
    open_behind(alloc, query, &front)
}

// The front, with 0 for each slot that it leaves open.
fn open_behind(alloc: Global, query: &Query, front: &[u32]) -> Result<Vec<u32>, Memory>
    requires { HasOpenCode query.now front.now }
    ensures { IfOk result (λ code. IsFrontCode query.now front.now code.items) }
{
    // The reader's clause says what every query keeps: it has a root.
    let _kept = query.templates();
    let end = behind_template(query, 0, front, 0)?;
    let others = vec![in alloc; 0u32; end - front.len()]?;
    let mut code = Vec::with_capacity(alloc, end)?;
    code.extend_from_slice(front)?;
    code.extend_from_slice(&others)?;
    Ok(code)
}
