// The slots of the root, and how far the numbers of a front go in a template.
ghost use Rattle.std.specs.Prelude.{◌≡◌, ◌≤◌, ◌<◌, ◌∷◌, [], IfOk, length, slice_index_or};
ghost use Rattle.mk_model.specs.Labels.{site_labels};
ghost use Rattle.mk_model.specs.OpenSlots.{most_at};
ghost use Rattle.mk_model.specs.Queries.{slots_of};
ghost use Rattle.mk_model.specs.QueryFits.{AreRisingLabels, QueryFits};
ghost use Rattle.mk_open_codes.specs.Alone.{root_slot};
ghost use Rattle.mk_open_codes.specs.Passing.{PassesBy};

use mk_model::{Memory, Query, Slot};

/// How many slots the root has.
pub fn root_slots(query: &Query) -> usize
    ensures { result ≡ length (slots_of query.now 0) }
{
    slots_of_root(query).len()
}

/// How many numbers may stand for a slot of the root, which counts from 0: 1 is the least of them.
pub fn choices_of(query: &Query, slot: usize) -> u32
    ensures { result ≡ most_at query.now (root_slot query.now slot) }
{
    match slots_of_root(query).get(slot) {
        None => 0,
        Some(Slot::Link { most, .. }) => *most,
        Some(site) => query.member_count(site) + 1,
    }
}

/// The slots of the root.
pub fn slots_of_root(query: &Query) -> &[Slot]
    ensures list { result.now ≡ slots_of query.now 0 }
    ensures kept { QueryFits query.now }
{
    query.templates()[0].slots()
}

/// The place behind what a front chooses at the slots of template t, from a place on. Slots for which
/// it has no number more are left open, with places behind it.
#[cycle(passing)]
pub fn behind_template(query: &Query, t: usize, front: &[u32], at: usize) -> Result<usize, Memory>
    requires there { t < length query.now.templates }
    ensures up { IfOk result (λ next. at ≤ next) }
    ensures passes { IfOk result (λ next. PassesBy query.now (slots_of query.now t) front.now at next) }
{
    let slots = query.templates()[t].slots();
    let mut next = at;
    for slot in slots {
        next = behind_slot(query, slot, front, next)?;
    }
    Ok(next)
}

/// The place behind what a front chooses at a slot.
#[cycle(passing)]
pub fn behind_slot(query: &Query, slot: &Slot, front: &[u32], at: usize) -> Result<usize, Memory>
    requires labels { AreRisingLabels (site_labels slot.now) }
    ensures up { IfOk result (λ next. at ≤ next) }
    ensures passes { IfOk result (λ next. PassesBy query.now (slot.now ∷ []) front.now at next) }
{
    // More places than a number holds never come: a query has fewer slots.
    let Some(behind) = at.checked_add(1) else {
        return Err(Memory);
    };
    let number = number_in(front, at);
    if number == 0 {
        return Ok(behind);
    }
    let count = query.member_count(slot);
    if number > count {
        return Ok(behind);
    }
    let member = query.member_at(slot, number);
    let next = behind_template(query, member, front, behind)?;
    Ok(next)
}

// The number at a place, and 0 behind the last.
fn number_in(front: &[u32], at: usize) -> u32
    ensures { result ≡ slice_index_or front.now at 0 }
{
    front.get(at).copied().unwrap_or(0)
}
