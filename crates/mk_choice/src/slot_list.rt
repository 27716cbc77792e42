// Slots of a query in a list of fixed length: each is lent, so that none is copied.
ghost use Rattle.std.specs.Prelude.{◌≡◌, ◌≤◌, ◌<◌, ◌++◌, Some, drop, IfOk, IfSome, length, slice_get, slice_set};
ghost use Rattle.mk_choice.specs.Search.{IsKnown};

use mk_model::{Memory, Slot};
use std::alloc::Global;
use std::marker::Model;

/// Slots of a query, which the query owns. Where nothing was put yet stands a link that may not
/// stand.
#[derive(Debug, Drop)]
pub struct SlotList<'a> {
    items: Vec<Option<&'a Slot>>,
}

impl<'a> Model for SlotList<'a> {
    ghost use Rattle.std.specs.Prelude.{List, map};
    ghost use Rattle.mk_model.specs.declared.template.Slot.{Slot};
    ghost use Rattle.mk_choice.specs.SlotLists.{slot_put};

    ghost Value = { List Slot };

    ghost view = { λ list. map slot_put list.items.items };
}

impl<'a> SlotList<'a> {
    /// A list of so many places.
    pub fn with_places(alloc: Global, len: usize) -> Result<SlotList<'a>, Memory>
        ensures { IfOk result (λ list. length list ≡ len) }
    {
        let items = vec![in alloc; None; len]?;
        Ok(SlotList { items })
    }

    pub fn len(&self) -> usize
        ensures { result ≡ length self.now }
    {
        self.items.len()
    }

    /// Gives the slot at a place.
    pub fn at(&self, place: usize) -> &'a Slot
        requires within { place < length self.now }
        requires known { IfSome (slice_get self.now place) IsKnown }
        ensures { slice_get self.now place ≡ Some result.now }
    {
        self.items[place].unwrap()
    }

    /// Puts a slot at a place.
    pub fn put(&mut self, place: usize, slot: &'a Slot)
        requires { place < length self.old }
        ensures { self.new ≡ slice_set self.old place slot.now }
    {
        self.items[place] = Some(slot);
    }

    /// Puts slots in front of those from a place on, and gives the place of the first.
    pub fn put_in_front(&mut self, first: usize, slots: &'a [Slot]) -> usize
        requires room { length slots.now ≤ first }
        requires within { first ≤ length self.old }
        ensures size { length self.new ≡ length self.old }
        ensures within { result ≤ length self.new }
        ensures put { drop result self.new ≡ slots.now ++ drop first self.old }
    {
        let mut left = slots.len();
        let mut at = first;
        while left > 0 {
            left -= 1;
            at -= 1;
            self.put(at, &slots[left]);
        }
        at
    }
}
