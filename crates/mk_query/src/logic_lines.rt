// What is demanded of `M  LOG` lines.
ghost use Rattle.std.specs.Prelude.{◌≡◌, ◌≤◌, ◌<◌, ◌^◌, ◌==◌, ◌↔◌, ℕ, pos, true, IfOk, IsTrue, List, length, slice_index, if◌then◌else◌};
ghost use Rattle.mk_text.specs.Items.{FindsLeast};
ghost use Rattle.mk_model.specs.declared.group.Interval.{Interval};
ghost use Rattle.mk_demands.specs.Numbers.{IsWithin, natural};
ghost use Rattle.mk_logic.specs.RangeTexts.{IsRangeText};
ghost use Rattle.mk_query.specs.LogicSearch.{AreLastLogics, HasLogicIn, IsLogicalBy, IsMarkedBy, IsRightLogicBy, names_group};

use crate::draft::GROUPS;
use mk_demands::{is_within, natural};
use mk_logic::read_range;
use mk_props::{LogicLine, Property};
use mk_text::Memory;
use std::alloc::Global;

/// The first `M  LOG` that isn't in the root, that a later one of its group supersedes, or whose
/// numbers or range there aren't.
pub fn first_unknown_logic(
    alloc: Global,
    is_root: bool,
    props: &[Property],
) -> Result<Option<u32>, Memory>
    requires { length props.now < 2 ^ 32 }
    ensures { IfOk result (FindsLeast (HasLogicIn is_root props.now)) }
{
    let last = last_logics(alloc, props)?;
    for (i, property) in props.iter().enumerate() {
        let right = is_logical(alloc, is_root, &last, i as u32 + 1, property)?;
        if !right {
            return Ok(Some(i as u32 + 1));
        }
    }
    Ok(None)
}

// For each group the number of the last `M  LOG` that names it, and 0 where none does.
fn last_logics(alloc: Global, props: &[Property]) -> Result<Vec<u32>, Memory>
    requires { length props.now < 2 ^ 32 }
    ensures { IfOk result (λ last. AreLastLogics props.now (length props.now) last.items) }
{
    let mut last = vec![in alloc; 0u32; GROUPS as usize + 1]?;
    for (i, property) in props.iter().enumerate() {
        mark_logic(&mut last, i as u32 + 1, property);
    }
    Ok(last)
}

fn mark_logic(last: &mut Vec<u32>, item: u32, property: &Property)
    ensures { IsMarkedBy property.now item last.old.items last.new.items }
{
    if let Property::Logic(logic) = property {
        mark_group(last, item, natural(logic.group));
    }
}

fn mark_group(last: &mut Vec<u32>, item: u32, group: u32)
    ensures size { length last.new.items ≡ length last.old.items }
    ensures marked { (g : ℕ) → g < length last.old.items → slice_index last.new.items g ≡ (if group == g then item else slice_index last.old.items g) }
{
    let place = group as usize;
    if place < last.len() {
        last[place] = item;
    }
}

// Whether the property, which has this number, is right if it is an `M  LOG`.
fn is_logical(
    alloc: Global,
    is_root: bool,
    last: &[u32],
    item: u32,
    property: &Property,
) -> Result<bool, Memory>
    requires { 1 ≤ item }
    ensures { IfOk result (λ right. IsTrue right ↔ IsLogicalBy is_root last.now item property.now) }
{
    match property {
        Property::Logic(logic) => is_right_logic(alloc, is_root, is_last(last, item, logic), logic),
        _ => Ok(true),
    }
}

// Whether this is the number of the last `M  LOG` of the group.
fn is_last(last: &[u32], item: u32, logic: &LogicLine) -> bool
    requires { 1 ≤ item }
    ensures { result ≡ (slice_index last.now (natural logic.now.group) == item) }
{
    let place = natural(logic.group) as usize;
    place < last.len() && last[place] == item
}

fn is_right_logic(
    alloc: Global,
    is_root: bool,
    is_last: bool,
    logic: &LogicLine,
) -> Result<bool, Memory>
    ensures { IfOk result (λ right. IsTrue right ↔ IsRightLogicBy is_root is_last logic.now) }
{
    let range = has_range(alloc, logic)?;
    Ok(is_root && is_last && has_group(logic) && has_then_group(logic) && has_rest(logic) && range)
}

fn has_group(logic: &LogicLine) -> bool
    ensures { IsTrue result ↔ IsWithin (pos 1) (pos 32) logic.now.group }
{
    is_within(1, 32, logic.group)
}

fn has_then_group(logic: &LogicLine) -> bool
    ensures { IsTrue result ↔ IsWithin (pos 0) (pos 32) logic.now.then_group }
{
    is_within(0, 32, logic.then_group)
}

fn has_rest(logic: &LogicLine) -> bool
    ensures { IsTrue result ↔ IsWithin (pos 0) (pos 1) logic.now.rest }
{
    is_within(0, 1, logic.rest)
}

fn has_range(alloc: Global, logic: &LogicLine) -> Result<bool, Memory>
    ensures { IfOk result (λ has. IsTrue has ↔ ((range : List Interval) × IsRangeText logic.now.range range)) }
{
    let range = read_range(alloc, logic.range.as_slice())?;
    Ok(range.is_some())
}
