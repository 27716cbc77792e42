// How many numbers may stand for each slot of the root, and where what is told of them stands.
ghost use Rattle.std.specs.Prelude.{◌≡◌, IfOk};
ghost use Rattle.mk_fronts.specs.Told.{AreChoices};
ghost use Rattle.mk_open_codes.specs.Alone.{alone_code};

use mk_model::{Memory, Query};
use mk_open_codes::{choices_of, root_slots};
use std::alloc::Global;

/// For each slot of the root how many numbers may stand for it.
pub fn choices(alloc: Global, query: &Query) -> Result<Vec<u32>, Memory>
    ensures { IfOk result (λ most. AreChoices query.now most.items) }
{
    let mut most = Vec::new(alloc);
    for slot in 0..root_slots(query) {
        most.push(choices_of(query, slot))?;
    }
    Ok(most)
}

/// For each slot the place of what is told of its number 0, and behind them the place behind all.
pub fn starts(alloc: Global, most: &[u32]) -> Result<Vec<usize>, Memory> {
    let mut starts = Vec::with_capacity(alloc, most.len().saturating_add(1))?;
    let mut at = 0usize;
    for count in most {
        starts.push(at)?;
        at = at.saturating_add(*count as usize).saturating_add(1);
    }
    starts.push(at)?;
    Ok(starts)
}

/// The place of what is told of a number at a slot.
pub fn place_of(starts: &[usize], slot: usize, number: u32) -> usize {
    let start = starts.get(slot).copied().unwrap_or(usize::MAX);
    start.saturating_add(number as usize)
}

/// Writes the key of a number alone at a slot: its open code without the zeros behind it.
pub fn put_alone(key: &mut Vec<u32>, slot: usize, number: u32) -> Result<(), Memory>
    ensures { IfOk result (λ _. key.new.items ≡ alone_code slot number 0) }
{
    key.clear();
    key.resize(slot, 0)?;
    key.push(number)?;
    Ok(())
}
