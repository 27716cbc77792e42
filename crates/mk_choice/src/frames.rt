// The frames of a search for codes: the numbers chosen so far, the slot of each, what is open
// behind them, and what is counted. They are reserved once, and a number is put on or taken off in
// place.
ghost use Rattle.std.specs.Prelude.{◌≡◌, ◌≤◌, ◌<◌, ◌+◌, ◌-◌, ◌∷◌, ◌++◌, [], ℕ, List, All, IfNone, IfOk, IfSome, IsTrue, None, false, length, drop, take};
ghost use Rattle.mk_text.specs.Rising.{IsBelow, IsLeast, IsLeastFrom};
ghost use Rattle.mk_model.specs.Logic.{IsValid};
ghost use Rattle.mk_model.specs.Nodes.{BeginsCode, SameFrom};
ghost use Rattle.mk_choice.specs.Bounds.{AreBounds};
ghost use Rattle.mk_choice.specs.Frames.{AreFrames, IsOnward, from_of, most_first, numbers_of, open_of};
ghost use Rattle.mk_choice.specs.Search.{CantComplete, IsKnown};

use crate::numbers::{counted, most_at, no_counts, opened, slots_of, uncounted};
use crate::outlook::{nothing_ahead, with_slot, with_slots, without_first, without_slots};
use crate::pending::Ahead;
use crate::pruning::cant_complete;
use crate::slot_list::SlotList;
use crate::together::{cant_together, has_together};
use mk_logic::allowed;
use mk_model::{Count, Memory, Query};
use std::alloc::Global;

/// The frames of the first `depth` numbers. The slots that are open behind them stand in `waiting`
/// from `first` on. What is still to come goes on with a number above `above`; but where `once`
/// says so, the numbers themselves come first. Where groups can bear on each other, `together` says
/// that they are looked at together, but only where no code was found at the last `idle` nodes; that
/// bears on time alone.
#[derive(Debug, Drop)]
pub struct Frames<'a> {
    pub counts: [Count; 32],
    pub ahead: Ahead,
    pub numbers: Vec<u32>,
    pub slots: SlotList<'a>,
    pub waiting: SlotList<'a>,
    pub first: usize,
    pub depth: usize,
    pub above: u32,
    pub once: bool,
    together: bool,
    idle: u32,
}

// So many nodes are gone through without a code before groups are looked at together: it takes as long
// as to go through twenty.
const PATIENCE: u32 = 16;

impl<'a> Frames<'a> {
    /// The frames of no numbers. Only numbers behind them are still to come.
    pub fn of(alloc: Global, query: &'a Query, most: &[u32]) -> Result<Frames<'a>, Memory>
        requires { AreBounds query.now most.now }
        ensures kept { IfOk result (AreFrames query.now most.now) }
        ensures none { IfOk result (λ frames. (frames.depth ≡ 0) × (frames.above ≡ 0) × (frames.once ≡ false)) }
    {
        let slots = slots_of(query, 0);
        let ahead = with_slots(most, nothing_ahead(), slots);
        let numbers = vec![in alloc; 0u32; 512]?;
        let chosen = SlotList::with_places(alloc, 512)?;
        let mut waiting = SlotList::with_places(alloc, 512)?;
        let first = waiting.put_in_front(512, slots);
        let together = has_together(query, most);
        Ok(Frames {
            counts: no_counts(),
            ahead,
            numbers,
            slots: chosen,
            waiting,
            first,
            depth: 0,
            above: 0,
            once: false,
            together,
            idle: PATIENCE,
        })
    }

    /// Takes all numbers off. Only numbers behind them are still to come.
    pub fn restart(&mut self, query: &'a Query, most: &[u32])
        requires { AreFrames query.now most.now self.old }
        ensures frames { AreFrames query.now most.now self.new }
        ensures none { (self.new.depth ≡ 0) × (self.new.above ≡ 0) × (self.new.once ≡ false) }
    {
        while self.depth > 0 {
            self.up(query, most);
        }
        self.above = 0;
        self.once = false;
    }

    /// Goes to the numbers of the front, as far as they fit.
    pub fn seek(&mut self, query: &'a Query, most: &[u32], front: &[u32])
        requires frames { AreFrames query.now most.now self.old }
        requires start { (self.old.depth ≡ 0) × (self.old.once ≡ false) }
        ensures frames { AreFrames query.now most.now self.new }
        ensures same { SameFrom (BeginsCode query.now) front.now (from_of self.new) }
        ensures up { IsBelow (from_of self.new) front.now → ⊥ }
        ensures begins { IsTrue self.new.once → BeginsCode query.now front.now }
        ensures over { self.new.once ≡ false → IsBelow front.now (from_of self.new) }
    {
        for i in 0..front.len() {
            let number = front[i];
            if number == 0 {
                self.above = number;
                return;
            }
            if !self.has_above(query, number - 1) {
                self.above = number;
                return;
            }
            self.down(query, most, number);
        }
        self.once = true;
    }

    /// Goes on to the next numbers with which a structural code begins, where there are some.
    pub fn next_node(&mut self, query: &'a Query, most: &[u32]) -> bool
        requires { AreFrames query.now most.now self.old }
        ensures frames { AreFrames query.now most.now self.new }
        ensures found { IsTrue result → IsLeast (from_of self.old) (BeginsCode query.now) (numbers_of self.new) }
        ensures passed { IsTrue result → self.new.once ≡ false }
        ensures none { result ≡ false → IsLeastFrom (from_of self.old) (BeginsCode query.now) None }
        ensures same { result ≡ false → SameFrom (BeginsCode query.now) (from_of self.old) (from_of self.new) }
        ensures up { result ≡ false → IsBelow (from_of self.new) (from_of self.old) → ⊥ }
    {
        if self.once {
            self.once = false;
            return true;
        }
        'back: loop {
            if self.has_above(query, self.above) {
                self.down(query, most, self.above + 1);
                return true;
            }
            if self.depth == 0 {
                return false;
            }
            if self.onward(query, most) {
                return true;
            }
            self.above = self.up(query, most);
        }
    }

    /// Tells whether the numbers are a valid code, and passes all that goes on behind numbers with
    /// which no valid code can begin.
    pub fn settle(&mut self, query: &'a Query, most: &[u32]) -> bool
        requires frames { AreFrames query.now most.now self.old }
        requires passed { self.old.once ≡ false }
        ensures frames { AreFrames query.now most.now self.new }
        ensures depth { self.new.depth ≡ self.old.depth }
        ensures same { self.new.numbers.items ≡ self.old.numbers.items }
        ensures on { IsBelow (numbers_of self.old) (from_of self.new) }
        ensures valid { IsTrue result → IsValid query.now (numbers_of self.old) }
        ensures over { IsTrue result → IsBelow (numbers_of self.old ++ 0 ∷ []) (from_of self.new) }
        ensures behind { IsTrue result → SameFrom (IsValid query.now) (numbers_of self.old ++ 0 ∷ []) (from_of self.new) }
        ensures moved { result ≡ false → SameFrom (IsValid query.now) (numbers_of self.old) (from_of self.new) }
    {
        if self.is_dead(query, most) {
            self.above = u32::MAX;
            return false;
        }
        self.above = 0;
        if self.first < self.waiting.len() {
            self.idle = self.idle.saturating_add(1);
            return false;
        }
        let found = allowed(query, &self.counts);
        self.idle = if found {
            0
        } else {
            self.idle.saturating_add(1)
        };
        found
    }

    /// Nothing that is chosen behind the numbers makes the counts allowed. Where it answers false,
    /// nothing is said.
    pub fn is_dead(&self, query: &Query, most: &[u32]) -> bool
        requires frames { AreFrames query.now most.now self.now }
        ensures { IsTrue result → CantComplete query.now self.now.counts (open_of self.now) }
    {
        if cant_complete(query, &self.counts, &self.ahead) {
            return true;
        }
        if !self.together || self.idle < PATIENCE {
            return false;
        }
        cant_together(
            query,
            most,
            &self.counts,
            &self.ahead,
            &self.waiting,
            self.first,
        )
    }

    /// Goes on to the next valid code, where there is one.
    pub fn next_code(&mut self, query: &'a Query, most: &[u32]) -> bool
        requires { AreFrames query.now most.now self.old }
        ensures frames { AreFrames query.now most.now self.new }
        ensures found { IsTrue result → IsLeast (from_of self.old) (IsValid query.now) (numbers_of self.new) }
        ensures over { IsTrue result → IsBelow (numbers_of self.new ++ 0 ∷ []) (from_of self.new) }
        ensures behind { IsTrue result → SameFrom (IsValid query.now) (numbers_of self.new ++ 0 ∷ []) (from_of self.new) }
        ensures none { result ≡ false → IsLeastFrom (from_of self.old) (IsValid query.now) None }
        ensures same { result ≡ false → SameFrom (IsValid query.now) (from_of self.old) (from_of self.new) }
        ensures up { result ≡ false → IsBelow (from_of self.new) (from_of self.old) → ⊥ }
    {
        'nodes: loop {
            if !self.next_node(query, most) {
                return false;
            }
            if self.settle(query, most) {
                return true;
            }
        }
    }

    // Tells whether a number above this one can be chosen behind those chosen so far.
    fn has_above(&self, query: &Query, above: u32) -> bool
        requires { All IsKnown (open_of self.now) }
        ensures yes { IsTrue result → above + 1 ≤ most_first query.now (open_of self.now) }
        ensures none { result ≡ false → most_first query.now (open_of self.now) ≤ above }
        ensures within { IsTrue result → above < 4294967295 }
    {
        if self.first >= self.waiting.len() {
            return false;
        }
        above < most_at(query, self.waiting.at(self.first))
    }

    // Raises the last number by one, where it isn't the greatest at its slot: it is as if it were taken
    // off, and the next one put on.
    fn onward(&mut self, query: &'a Query, most: &[u32]) -> bool
        requires frames { AreFrames query.now most.now self.old }
        requires some { 1 ≤ self.old.depth }
        ensures frames { AreFrames query.now most.now self.new }
        ensures numbers { IsTrue result → IsOnward (numbers_of self.old) (numbers_of self.new) }
        ensures once { self.new.once ≡ self.old.once }
        ensures still { result ≡ false → self.new ≡ self.old }
    {
        let depth = self.depth - 1;
        let number = self.numbers[depth];
        let slot = self.slots.at(depth);
        if number >= most_at(query, slot) {
            return false;
        }
        let closed = opened(query, slot, number);
        let slots = opened(query, slot, number + 1);
        let before = uncounted(query, slot, number, self.counts);
        self.counts = counted(query, slot, number + 1, before);
        let left = without_slots(most, self.ahead, closed);
        self.ahead = with_slots(most, left, slots);
        self.numbers[depth] = number + 1;
        self.first = self.waiting.put_in_front(self.first + closed.len(), slots);
        true
    }

    // Puts a number on.
    fn down(&mut self, query: &'a Query, most: &[u32], number: u32)
        requires frames { AreFrames query.now most.now self.old }
        requires least { 1 ≤ number }
        requires most { number ≤ most_first query.now (open_of self.old) }
        ensures frames { AreFrames query.now most.now self.new }
        ensures numbers { numbers_of self.new ≡ numbers_of self.old ++ number ∷ [] }
        ensures depth { self.new.depth ≡ self.old.depth + 1 }
        ensures once { self.new.once ≡ self.old.once }
    {
        let slot = self.waiting.at(self.first);
        let slots = opened(query, slot, number);
        self.counts = counted(query, slot, number, self.counts);
        let left = without_first(most, self.ahead, slot);
        self.ahead = with_slots(most, left, slots);
        self.numbers[self.depth] = number;
        self.slots.put(self.depth, slot);
        self.depth += 1;
        self.first = self.waiting.put_in_front(self.first + 1, slots);
    }

    // Takes the last number off, and gives it.
    fn up(&mut self, query: &'a Query, most: &[u32]) -> u32
        requires frames { AreFrames query.now most.now self.old }
        requires some { 1 ≤ self.old.depth }
        ensures frames { AreFrames query.now most.now self.new }
        ensures numbers { numbers_of self.old ≡ numbers_of self.new ++ result ∷ [] }
        ensures depth { self.old.depth ≡ self.new.depth + 1 }
        ensures once { self.new.once ≡ self.old.once }
    {
        let depth = self.depth - 1;
        let number = self.numbers[depth];
        let slot = self.slots.at(depth);
        let slots = opened(query, slot, number);
        self.counts = uncounted(query, slot, number, self.counts);
        let left = without_slots(most, self.ahead, slots);
        self.ahead = with_slot(most, left, slot);
        let first = self.first + slots.len() - 1;
        self.waiting.put(first, slot);
        self.first = first;
        self.depth = depth;
        number
    }
}
