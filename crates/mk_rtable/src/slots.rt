// The slots of a query, and those that a number opens.
ghost use Rattle.std.specs.Prelude.{◌≡◌, ◌≤◌, All};
ghost use Rattle.mk_model.specs.Queries.{slots_of};
ghost use Rattle.mk_model.specs.QueryFits.{QueryFits};
ghost use Rattle.mk_model.specs.OpenSlots.{opened};
ghost use Rattle.mk_rtable.specs.Members.{BearsRisingLabels};

use mk_model::{Query, Slot};

/// The slots of a template.
pub fn slots_of(query: &Query, t: usize) -> &[Slot]
    ensures slots { result.now ≡ slots_of query.now t }
    ensures kept { QueryFits query.now }
{
    match query.templates().get(t) {
        Some(template) => template.slots(),
        None => &[],
    }
}

/// The slots that a number opens at a slot: those of the member that it puts in.
pub fn opened<'a>(query: &'a Query, slot: &Slot, number: u32) -> &'a [Slot]
    requires labels { BearsRisingLabels slot.now }
    requires least { 1 ≤ number }
    ensures slots { result.now ≡ opened query.now slot.now number }
    ensures labels { All BearsRisingLabels result.now }
{
    if number > query.member_count(slot) {
        return &[];
    }
    slots_of(query, query.member_at(slot, number))
}
