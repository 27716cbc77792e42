// Whether several groups together need more than the open sites can serve.
ghost use Rattle.std.specs.Prelude.{◌≡◌, ◌≤◌, ◌<◌, ◌+◌, ◌*◌, nat_le, nat_lt, ℕ, All, IsTrue, drop, length, slice_index, if◌then◌else◌};
ghost use Rattle.mk_model.specs.QueryFits.{AreRisingLabels};
ghost use Rattle.mk_model.specs.Sizes.{greatest};
ghost use Rattle.mk_choice.specs.Ahead.{HasRows, IsAhead};
ghost use Rattle.mk_choice.specs.Bounds.{AreBounds, bound_in};
ghost use Rattle.mk_choice.specs.Search.{AreCounts, CantComplete, IsKnown};
ghost use Rattle.mk_choice.specs.Together.{HasLimits, MissAmong, MissTogether, free_in, is_capped, served_at, served_by, total};

use crate::limits::limits_of;
use crate::numbers::slots_of;
use crate::pending::{Ahead, Limits};
use crate::slot_list::SlotList;
use mk_model::{Count, Group, Query, Slot};

/// Some groups together can't be filled as often as their ranges say, whatever is chosen further.
/// Where it answers false, nothing is said.
pub fn cant_together(
    query: &Query,
    most: &[u32],
    counts: &[Count],
    ahead: &Ahead,
    waiting: &SlotList<'_>,
    first: usize,
) -> bool
    requires bounds { AreBounds query.now most.now }
    requires counts { AreCounts 512 counts.now }
    requires rows { HasRows ahead.now }
    requires known { All IsKnown (drop first waiting.now) }
    requires ahead { IsAhead most.now (drop first waiting.now) ahead.now }
    ensures { IsTrue result → CantComplete query.now counts.now (drop first waiting.now) }
{
    let _kept = slots_of(query, 0);
    let limits = limits_of(query, counts, ahead);
    let ends = short_ends(limits.caps, ahead.sites);
    let mut left = hard_to_meet(limits.wants, ahead.filled, ends);
    if left == 0 {
        return false;
    }
    let near = near_each(most, left, waiting, first);
    for i in 0..32 {
        if has(left, i) {
            let set = all_near(near, i);
            if miss_among(most, limits, set, ends, waiting, first) {
                return true;
            }
            left = without(left, set);
        }
    }
    false
}

/// Groups can bear on each other: one names another, a site bears several labels, or a member holds
/// sites of another group.
pub fn has_together(query: &Query, most: &[u32]) -> bool
    requires { length most.now ≡ 1024 }
{
    if names_some(query.groups()) {
        return true;
    }
    for h in 0..32 {
        if set_served_by(most, !bit(h), h) != 0 {
            return true;
        }
    }
    for template in query.templates() {
        if has_joint_site(template.slots()) {
            return true;
        }
    }
    false
}

fn names_some(groups: &[Group]) -> bool {
    groups.iter().any(|group| group.then_group > 0)
}

fn has_joint_site(slots: &[Slot]) -> bool {
    slots.iter().any(|slot| slot.labels().len() > 1)
}

// ---- a set of groups

// The groups of a set together want more than the open slots can serve, by the ends of some groups
// or by none.
fn miss_among(
    most: &[u32],
    limits: Limits,
    set: u32,
    ends: u32,
    waiting: &SlotList<'_>,
    first: usize,
) -> bool
    requires rows { length most.now ≡ 1024 }
    requires capped { (i : ℕ) → slice_index most.now i ≤ 513 }
    requires limits { HasLimits limits }
    requires known { All IsKnown (drop first waiting.now) }
    ensures { IsTrue result → MissAmong (bound_in most.now) limits.wants limits.caps (drop first waiting.now) }
{
    let wants = some_wants(limits.wants, set);
    if miss_together(most, wants, some_ends(limits.caps, 0), waiting, first) {
        return true;
    }
    if ends == 0 {
        return false;
    }
    miss_together(most, wants, some_ends(limits.caps, ends), waiting, first)
}

// What the groups of a set want; the others want nothing.
fn some_wants(wants: [u32; 32], set: u32) -> [u32; 32]
    requires size { length wants ≡ 32 }
    ensures size { length result ≡ 32 }
    ensures less { (i : ℕ) → i < 32 → slice_index result i ≤ slice_index wants i }
{
    let mut some = [0u32; 32];
    for i in 0..32 {
        some[i] = want_if(wants[i], has(set, i));
    }
    some
}

fn want_if(want: u32, wanting: bool) -> u32
    ensures { result ≤ want }
{
    if wanting {
        return want;
    }
    0
}

// Where the groups of a set end; of the others no end is known.
fn some_ends(caps: [u32; 32], set: u32) -> [u32; 32]
    requires size { length caps ≡ 32 }
    ensures size { length result ≡ 32 }
    ensures same { (i : ℕ) → i < 32 → slice_index result i ≤ 512 → slice_index result i ≡ slice_index caps i }
{
    let mut some = [513u32; 32];
    for i in 0..32 {
        some[i] = end_if(caps[i], has(set, i));
    }
    some
}

fn end_if(cap: u32, ends: bool) -> u32
    ensures { result ≤ 512 → result ≡ cap }
{
    if ends {
        return cap;
    }
    513
}

// These together want more than the open slots can serve.
fn miss_together(
    most: &[u32],
    wants: [u32; 32],
    caps: [u32; 32],
    waiting: &SlotList<'_>,
    first: usize,
) -> bool
    requires rows { length most.now ≡ 1024 }
    requires capped { (i : ℕ) → slice_index most.now i ≤ 513 }
    requires wants { length wants ≡ 32 }
    requires caps { length caps ≡ 32 }
    requires known { All IsKnown (drop first waiting.now) }
    ensures { IsTrue result → MissTogether (bound_in most.now) wants caps (drop first waiting.now) }
{
    let served = served_each(most, wants);
    let ends = served_to_ends(caps, served);
    let all = ends.saturating_add(served_at(free_each(caps, served), waiting, first));
    if all > 512 {
        return false;
    }
    all < sum_of(wants)
}

// How often a filled site of each group serves those that want more.
fn served_each(most: &[u32], wants: [u32; 32]) -> [u32; 32]
    requires rows { length most.now ≡ 1024 }
    requires capped { (i : ℕ) → slice_index most.now i ≤ 513 }
    requires wants { length wants ≡ 32 }
    ensures size { length result ≡ 32 }
    ensures each { (i : ℕ) → i < 32 → slice_index result i ≡ served_by (bound_in most.now) wants (i + 1) }
{
    let mut served = [0u32; 32];
    for h in 0..32 {
        served[h] = served_by(most, wants, h);
    }
    served
}

#[tactic(auto, unfolding(crate::specs::Together::total))]
fn served_by(most: &[u32], wants: [u32; 32], h: usize) -> u32
    requires rows { length most.now ≡ 1024 }
    requires capped { (i : ℕ) → slice_index most.now i ≤ 513 }
    requires wants { length wants ≡ 32 }
    requires within { h < 32 }
    ensures { result ≡ served_by (bound_in most.now) wants (h + 1) }
{
    let mut sum = 0u32;
    for g in 0..32 {
        sum = sum.saturating_add(bound_if(wants[g], most[h * 32 + g]));
    }
    sum
}

fn bound_if(want: u32, bound: u32) -> u32
    ensures { result ≡ (if nat_lt 0 want then bound else 0) }
{
    if want > 0 {
        return bound;
    }
    0
}

// How often the groups with an end serve, where that is at most 512.
#[tactic(auto, unfolding(crate::specs::Together::total))]
fn served_to_ends(caps: [u32; 32], served: [u32; 32]) -> u32
    requires caps { length caps ≡ 32 }
    requires served { length served ≡ 32 }
    ensures { result ≤ 512 → total (λ i. if is_capped caps i then slice_index caps i * slice_index served i else 0) 32 ≤ result }
{
    let mut sum = 0u32;
    for i in 0..32 {
        sum = sum.saturating_add(served_to_end(caps[i], served[i]));
    }
    sum
}

fn served_to_end(cap: u32, served: u32) -> u32
    ensures { result ≤ 512 → (if nat_le cap 512 then cap * served else 0) ≤ result }
{
    if cap > 512 {
        return 0;
    }
    cap.saturating_mul(served)
}

// How often an open site of each label serves by itself: not at all where the group has an end.
fn free_each(caps: [u32; 32], served: [u32; 32]) -> [u32; 32]
    requires caps { length caps ≡ 32 }
    requires served { length served ≡ 32 }
    ensures size { length result ≡ 32 }
    ensures each { (i : ℕ) → i < 32 → slice_index result i ≡ (if is_capped caps i then 0 else slice_index served i) }
{
    let mut free = [0u32; 32];
    for i in 0..32 {
        free[i] = served_freely(caps[i], served[i]);
    }
    free
}

fn served_freely(cap: u32, served: u32) -> u32
    ensures { result ≡ (if nat_le cap 512 then 0 else served) }
{
    if cap <= 512 {
        return 0;
    }
    served
}

// How often the open slots serve, where that is at most 512.
fn served_at(free: [u32; 32], waiting: &SlotList<'_>, first: usize) -> u32
    requires size { length free ≡ 32 }
    requires known { All IsKnown (drop first waiting.now) }
    ensures { result ≤ 512 → served_at (free_in free) (drop first waiting.now) ≤ result }
{
    let mut sum = 0u32;
    for place in first..waiting.len() {
        sum = sum.saturating_add(served_by_one(free, waiting.at(place).labels()));
    }
    sum
}

// How often a site of some labels does: one of them is taken.
fn served_by_one(free: [u32; 32], labels: &[u32]) -> u32
    requires size { length free ≡ 32 }
    requires labels { AreRisingLabels labels.now }
    ensures { result ≡ greatest (free_in free) labels.now }
{
    let mut greatest = 0u32;
    for h in labels {
        greatest = greatest.max(free[*h as usize - 1]);
    }
    greatest
}

// All of some numbers together, or less.
#[tactic(auto, unfolding(crate::specs::Together::total))]
fn sum_of(numbers: [u32; 32]) -> u32
    requires { length numbers ≡ 32 }
    ensures { result ≤ total (slice_index numbers) 32 }
{
    let mut sum = 0u32;
    for i in 0..32 {
        sum = sum.saturating_add(numbers[i]);
    }
    sum
}

// ---- which groups are looked at together: what is found of any set is proved, so it bears on time alone

// Group i + 1 is in the set.
fn has(set: u32, i: usize) -> bool {
    set & bit(i) != 0
}

fn bit(i: usize) -> u32 {
    if i < 32 {
        return 1u32 << i;
    }
    0
}

fn without(set: u32, others: u32) -> u32 {
    set & !others
}

// The groups that end before all of their open sites are filled.
fn short_ends(caps: [u32; 32], sites: [u32; 32]) -> u32
    requires caps { length caps ≡ 32 }
    requires sites { length sites ≡ 32 }
{
    let mut set = 0u32;
    for i in 0..32 {
        if caps[i] < sites[i] {
            set |= bit(i);
        }
    }
    set
}

// The groups that want more, without those that the open sites can serve as often as all together
// want. By ends they may be served less.
fn hard_to_meet(wants: [u32; 32], filled: [u32; 32], ends: u32) -> u32
    requires wants { length wants ≡ 32 }
    requires filled { length filled ≡ 32 }
{
    let mut set = 0u32;
    for i in 0..32 {
        if wants[i] > 0 {
            set |= bit(i);
        }
    }
    if ends != 0 {
        return set;
    }
    for _ in 0..32 {
        let all = sum_of(some_wants(wants, set));
        let mut hard = set;
        for i in 0..32 {
            if filled[i] >= all {
                hard = without(hard, bit(i));
            }
        }
        if hard == set {
            return set;
        }
        set = hard;
    }
    set
}

// Each group of the set with those that are served at the same open slots.
fn near_each(most: &[u32], set: u32, waiting: &SlotList<'_>, first: usize) -> [u32; 32]
    requires rows { length most.now ≡ 1024 }
    requires known { All IsKnown (drop first waiting.now) }
    ensures { length result ≡ 32 }
{
    let served = sets_served(most, set);
    let mut near = [0u32; 32];
    for place in first..waiting.len() {
        let set = set_served(served, waiting.at(place).labels());
        for i in 0..32 {
            near[i] |= if_has(set, i);
        }
    }
    near
}

// The set, where group i + 1 is in it.
fn if_has(set: u32, i: usize) -> u32 {
    if has(set, i) {
        return set;
    }
    0
}

// The groups of the set that a filled site of each group serves.
fn sets_served(most: &[u32], set: u32) -> [u32; 32]
    requires { length most.now ≡ 1024 }
    ensures { length result ≡ 32 }
{
    let mut served = [0u32; 32];
    for h in 0..32 {
        served[h] = set_served_by(most, set, h);
    }
    served
}

fn set_served_by(most: &[u32], set: u32, h: usize) -> u32
    requires rows { length most.now ≡ 1024 }
    requires within { h < 32 }
{
    let mut served = 0u32;
    for g in 0..32 {
        if most[h * 32 + g] > 0 {
            served |= bit(g);
        }
    }
    served & set
}

// The groups that a site of some labels serves.
fn set_served(served: [u32; 32], labels: &[u32]) -> u32
    requires size { length served ≡ 32 }
    requires labels { AreRisingLabels labels.now }
{
    let mut set = 0u32;
    for h in labels {
        set |= served[*h as usize - 1];
    }
    set
}

// The groups near group i + 1, and all near those.
fn all_near(near: [u32; 32], i: usize) -> u32
    requires { length near ≡ 32 }
{
    let mut set = bit(i);
    for _ in 0..32 {
        let more = set | near_one(near, set);
        if more == set {
            return set;
        }
        set = more;
    }
    set
}

fn near_one(near: [u32; 32], set: u32) -> u32
    requires { length near ≡ 32 }
{
    let mut all = 0u32;
    for i in 0..32 {
        if has(set, i) {
            all |= near[i];
        }
    }
    all
}
