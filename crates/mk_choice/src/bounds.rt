// How often each group can be filled at most by what fills a site of each other.
ghost use Rattle.std.specs.Prelude.{◌≡◌, ◌≤◌, ◌<◌, ◌+◌, ◌*◌, ◌==◌, ℕ, All, Contains, IfOk, IsTrue, length, min, slice_index, if◌then◌else◌};
ghost use Rattle.mk_model.specs.Queries.{members_of, slots_of};
ghost use Rattle.mk_model.specs.QueryFits.{AreRisingLabels};
ghost use Rattle.mk_model.specs.Sizes.{greatest};
ghost use Rattle.mk_choice.specs.Bounds.{AreBounds, IsBound, IsRowOfBounds, bound_in, most_filled};
ghost use Rattle.mk_choice.specs.Search.{IsKnown};

use crate::numbers::slots_of;
use mk_model::{Memory, Query, Slot};
use std::alloc::Global;

/// The bounds of a query, 32 rows of 32 numbers. They are found by rounds, each from those of the
/// round before, and then tested: where they fail, all are 513, which says nothing.
pub fn bounds_of(alloc: Global, query: &Query) -> Result<Vec<u32>, Memory>
    ensures { IfOk result (λ most. AreBounds query.now most.items) }
{
    let mut most = vec![in alloc; 0u32; 1024]?;
    raise_all(query, &mut most);
    if are_bounds(query, &most) {
        return Ok(most);
    }
    say_nothing(&mut most);
    Ok(most)
}

// Raises bounds round by round until none rises: groups are nested at most 32 deep.
fn raise_all(query: &Query, most: &mut Vec<u32>)
    requires size { length most.old.items ≡ 1024 }
    requires capped { (i : ℕ) → slice_index most.old.items i ≤ 513 }
    ensures size { length most.new.items ≡ 1024 }
    ensures capped { (i : ℕ) → slice_index most.new.items i ≤ 513 }
{
    for _ in 0..33 {
        if !raise(query, most) {
            return;
        }
    }
}

// Puts 513 for each bound.
fn say_nothing(most: &mut Vec<u32>)
    requires { length most.old.items ≡ 1024 }
    ensures size { length most.new.items ≡ 1024 }
    ensures none { (i : ℕ) → i < 1024 → slice_index most.new.items i ≡ 513 }
{
    for i in 0..most.len() {
        most[i] = 513;
    }
}

// Puts for each bound what the others ask for, and tells whether any rose.
fn raise(query: &Query, most: &mut Vec<u32>) -> bool
    requires size { length most.old.items ≡ 1024 }
    requires capped { (i : ℕ) → slice_index most.old.items i ≤ 513 }
    ensures size { length most.new.items ≡ 1024 }
    ensures capped { (i : ℕ) → slice_index most.new.items i ≤ 513 }
{
    let mut rose = false;
    for h in 0..32 {
        for g in 0..32 {
            let n = needed(query, most.as_slice(), h, g);
            rose = rose || n > most[h * 32 + g];
            most[h * 32 + g] = n;
        }
    }
    rose
}

// Each bound is as great as the others ask for, or says nothing.
fn are_bounds(query: &Query, most: &[u32]) -> bool
    requires { length most.now ≡ 1024 }
    ensures bounds { IsTrue result → IsBound query.now (bound_in most.now) }
    ensures groups { length query.now.groups ≡ 32 }
{
    for h in 0..query.groups().len() {
        if !is_row_of_bounds(query, most, h) {
            return false;
        }
    }
    true
}

// Those of one group are.
fn is_row_of_bounds(query: &Query, most: &[u32], h: usize) -> bool
    requires size { length most.now ≡ 1024 }
    requires row { h < 32 }
    ensures { IsTrue result → IsRowOfBounds query.now most.now h }
{
    for g in 0..32 {
        let most_here = most[h * 32 + g];
        if most_here <= 512 && needed(query, most, h, g) > most_here {
            return false;
        }
    }
    true
}

// How often group g + 1 can be filled by a member of group h + 1, where the bounds hold; at most
// 513.
fn needed(query: &Query, most: &[u32], h: usize, g: usize) -> u32
    requires size { length most.now ≡ 1024 }
    requires row { h < 32 }
    requires column { g < 32 }
    ensures enough { (u : ℕ) → Contains (members_of query.now (h + 1)) u
        → min 513 ((if h + 1 == g + 1 then 1 else 0) + most_filled (bound_in most.now) (slots_of query.now u) (g + 1)) ≤ result }
    ensures capped { result ≤ 513 }
{
    let own = if h == g { 1u32 } else { 0 };
    let mut greatest = 0u32;
    for u in query.members_of(h as u32 + 1) {
        let here = (own + most_at_slots(slots_of(query, *u as usize), most, g)).min(513);
        greatest = greatest.max(here);
    }
    greatest
}

// How often group g + 1 can be filled at some slots; at most 513.
fn most_at_slots(slots: &[Slot], most: &[u32], g: usize) -> u32
    requires size { length most.now ≡ 1024 }
    requires column { g < 32 }
    requires known { All IsKnown slots.now }
    ensures { result ≡ min 513 (most_filled (bound_in most.now) slots.now (g + 1)) }
{
    let mut sum = 0u32;
    for slot in slots {
        sum = sum
            .saturating_add(most_at_labels(slot.labels(), most, g))
            .min(513);
    }
    sum
}

/// How often it can be filled at a site of some labels.
pub fn most_at_labels(labels: &[u32], most: &[u32], g: usize) -> u32
    requires size { length most.now ≡ 1024 }
    requires column { g < 32 }
    requires labels { AreRisingLabels labels.now }
    ensures { result ≡ greatest (λ h. bound_in most.now h (g + 1)) labels.now }
{
    let mut greatest = 0u32;
    for h in labels {
        greatest = greatest.max(most[(*h as usize - 1) * 32 + g]);
    }
    greatest
}
