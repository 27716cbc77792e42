// How what the open slots can still add changes, slot by slot.
ghost use Rattle.std.specs.Prelude.{◌≡◌, ◌≤◌, ◌<◌, ◌+◌, ◌-◌, ◌*◌, ◌==◌, ◌∷◌, ◌++◌, [], ℕ, All, List, length, slice_index, if◌then◌else◌};
ghost use Rattle.mk_model.specs.declared.template.Slot.{Slot};
ghost use Rattle.mk_model.specs.QueryFits.{AreRisingLabels};
ghost use Rattle.mk_model.specs.Sizes.{greatest};
ghost use Rattle.mk_choice.specs.Ahead.{HasRows, IsAhead};
ghost use Rattle.mk_choice.specs.Bounds.{bound_in};
ghost use Rattle.mk_choice.specs.Search.{IsKnown, borne};

use crate::bounds::most_at_labels;
use crate::pending::Ahead;
use mk_model::Slot;

/// What no slots add.
pub fn nothing_ahead() -> Ahead
    ensures rows { HasRows result }
    ensures none { (most : List ℕ) → IsAhead most [] result }
{
    Ahead {
        sites: [0; 32],
        filled: [0; 32],
    }
}

/// What is ahead with some slots in front.
pub fn with_slots(most: &[u32], ahead: Ahead, slots: &[Slot]) -> Ahead
    requires size { length most.now ≡ 1024 }
    requires capped { (i : ℕ) → slice_index most.now i ≤ 513 }
    requires known { All IsKnown slots.now }
    requires rows { HasRows ahead }
    ensures rows { HasRows result }
    ensures ahead { (behind : List Slot) → length (slots.now ++ behind) ≤ 512
        → IsAhead most.now behind ahead → IsAhead most.now (slots.now ++ behind) result }
{
    let mut ahead = ahead;
    for slot in slots {
        ahead = with_slot(most, ahead, slot);
    }
    ahead
}

/// What is ahead with one slot more.
pub fn with_slot(most: &[u32], ahead: Ahead, slot: &Slot) -> Ahead
    requires size { length most.now ≡ 1024 }
    requires capped { (i : ℕ) → slice_index most.now i ≤ 513 }
    requires known { IsKnown slot.now }
    requires rows { HasRows ahead }
    ensures rows { HasRows result }
    ensures ahead { (slots : List Slot) → length slots ≤ 511
        → IsAhead most.now slots ahead → IsAhead most.now (slot.now ∷ slots) result }
{
    let labels = slot.labels();
    if labels.is_empty() {
        return ahead;
    }
    Ahead {
        sites: more_each(ahead.sites, labels),
        filled: raised(ahead.filled, most, labels),
    }
}

/// What is ahead without the first slot.
pub fn without_first(most: &[u32], ahead: Ahead, slot: &Slot) -> Ahead
    requires size { length most.now ≡ 1024 }
    requires known { IsKnown slot.now }
    requires rows { HasRows ahead }
    ensures rows { HasRows result }
    ensures ahead { (slots : List Slot) → IsAhead most.now (slot.now ∷ slots) ahead → IsAhead most.now slots result }
{
    let labels = slot.labels();
    if labels.is_empty() {
        return ahead;
    }
    Ahead {
        sites: less_each(ahead.sites, labels),
        filled: lowered(ahead.filled, most, labels),
    }
}

/// What is ahead without the first slots.
pub fn without_slots(most: &[u32], ahead: Ahead, slots: &[Slot]) -> Ahead
    requires size { length most.now ≡ 1024 }
    requires known { All IsKnown slots.now }
    requires rows { HasRows ahead }
    ensures rows { HasRows result }
    ensures ahead { (behind : List Slot) → IsAhead most.now (slots.now ++ behind) ahead → IsAhead most.now behind result }
{
    let mut ahead = ahead;
    for slot in slots {
        ahead = without_first(most, ahead, slot);
    }
    ahead
}

// One site more of each of some groups.
fn more_each(sites: [u32; 32], labels: &[u32]) -> [u32; 32]
    requires size { length sites ≡ 32 }
    requires labels { AreRisingLabels labels.now }
    ensures size { length result ≡ 32 }
    ensures more { (i : ℕ) → i < 32 → slice_index sites i ≤ 511
        → slice_index result i ≡ slice_index sites i + borne labels.now (i + 1) }
{
    let mut sites = sites;
    for g in labels {
        let i = *g as usize - 1;
        sites[i] = sites[i].saturating_add(1);
    }
    sites
}

// One site less of each of some groups.
fn less_each(sites: [u32; 32], labels: &[u32]) -> [u32; 32]
    requires size { length sites ≡ 32 }
    requires labels { AreRisingLabels labels.now }
    ensures size { length result ≡ 32 }
    ensures less { (i : ℕ) → i < 32 → slice_index result i ≡ slice_index sites i - borne labels.now (i + 1) }
{
    let mut sites = sites;
    for g in labels {
        let i = *g as usize - 1;
        sites[i] = sites[i].saturating_sub(1);
    }
    sites
}

// More by the bounds of some labels, of each group the greatest.
fn raised(filled: [u32; 32], most: &[u32], labels: &[u32]) -> [u32; 32]
    requires size { length filled ≡ 32 }
    requires rows { length most.now ≡ 1024 }
    requires labels { AreRisingLabels labels.now }
    ensures size { length result ≡ 32 }
    ensures more { (i : ℕ) → i < 32 → slice_index filled i + greatest (λ h. bound_in most.now h (i + 1)) labels.now ≤ 1000000
        → slice_index result i ≡ slice_index filled i + greatest (λ h. bound_in most.now h (i + 1)) labels.now }
{
    match labels {
        [g] => raised_by(filled, most, *g as usize - 1),
        labels => raised_by_each(filled, most, labels),
    }
}

// Less by them.
fn lowered(filled: [u32; 32], most: &[u32], labels: &[u32]) -> [u32; 32]
    requires size { length filled ≡ 32 }
    requires rows { length most.now ≡ 1024 }
    requires labels { AreRisingLabels labels.now }
    ensures size { length result ≡ 32 }
    ensures less { (i : ℕ) → i < 32
        → slice_index result i ≡ slice_index filled i - greatest (λ h. bound_in most.now h (i + 1)) labels.now }
{
    match labels {
        [g] => lowered_by(filled, most, *g as usize - 1),
        labels => lowered_by_each(filled, most, labels),
    }
}

// More by a row of bounds.
fn raised_by(filled: [u32; 32], most: &[u32], h: usize) -> [u32; 32]
    requires size { length filled ≡ 32 }
    requires rows { length most.now ≡ 1024 }
    requires within { h < 32 }
    ensures size { length result ≡ 32 }
    ensures more { (i : ℕ) → i < 32 → slice_index filled i + slice_index most.now (h * 32 + i) ≤ 1000000
        → slice_index result i ≡ slice_index filled i + slice_index most.now (h * 32 + i) }
{
    let mut sums = filled;
    for i in 0..32 {
        sums[i] = filled[i].saturating_add(most[h * 32 + i]);
    }
    sums
}

// Less by a row of bounds.
fn lowered_by(filled: [u32; 32], most: &[u32], h: usize) -> [u32; 32]
    requires size { length filled ≡ 32 }
    requires rows { length most.now ≡ 1024 }
    requires within { h < 32 }
    ensures size { length result ≡ 32 }
    ensures less { (i : ℕ) → i < 32 → slice_index result i ≡ slice_index filled i - slice_index most.now (h * 32 + i) }
{
    let mut left = filled;
    for i in 0..32 {
        left[i] = filled[i].saturating_sub(most[h * 32 + i]);
    }
    left
}

// More by the greatest of several rows.
fn raised_by_each(filled: [u32; 32], most: &[u32], labels: &[u32]) -> [u32; 32]
    requires size { length filled ≡ 32 }
    requires rows { length most.now ≡ 1024 }
    requires labels { AreRisingLabels labels.now }
    ensures size { length result ≡ 32 }
    ensures more { (i : ℕ) → i < 32 → slice_index filled i + greatest (λ h. bound_in most.now h (i + 1)) labels.now ≤ 1000000
        → slice_index result i ≡ slice_index filled i + greatest (λ h. bound_in most.now h (i + 1)) labels.now }
{
    let mut sums = filled;
    for i in 0..32 {
        sums[i] = filled[i].saturating_add(most_at_labels(labels, most, i));
    }
    sums
}

// Less by the greatest of several rows.
fn lowered_by_each(filled: [u32; 32], most: &[u32], labels: &[u32]) -> [u32; 32]
    requires size { length filled ≡ 32 }
    requires rows { length most.now ≡ 1024 }
    requires labels { AreRisingLabels labels.now }
    ensures size { length result ≡ 32 }
    ensures less { (i : ℕ) → i < 32
        → slice_index result i ≡ slice_index filled i - greatest (λ h. bound_in most.now h (i + 1)) labels.now }
{
    let mut left = filled;
    for i in 0..32 {
        left[i] = filled[i].saturating_sub(most_at_labels(labels, most, i));
    }
    left
}
