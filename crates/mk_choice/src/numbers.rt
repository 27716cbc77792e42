// What a number means at a slot.
ghost use Rattle.std.specs.Prelude.{◌≡◌, ◌≤◌, ◌<◌, ◌+◌, ◌-◌, ◌==◌, ◌∷◌, [], ℕ, All, IfNone, IfSome, length, if◌then◌else◌};
ghost use Rattle.mk_model.specs.Logic.{filled_of, sites_of};
ghost use Rattle.mk_model.specs.Queries.{slots_of};
ghost use Rattle.mk_model.specs.QueryFits.{AreRisingLabels, QueryFits};
ghost use Rattle.mk_model.specs.OpenSlots.{most_at, opened, standing_at};
ghost use Rattle.mk_choice.specs.Pending.{open_slots};
ghost use Rattle.mk_choice.specs.Search.{AreCounts, AreNone, IsKnown, borne, filled_with, sites_with};
ghost use Rattle.mk_logic.specs.Counts.{filled_at, sites_at};

use crate::pending::Pending;
use mk_model::{Count, Query, Slot};

/// The first open slot, and what is open behind it.
pub fn first<'a>(pending: &Pending<'a>) -> Option<(&'a Slot, Pending<'a>)>
    ensures none { IfNone result (open_slots pending.now ≡ []) }
    ensures some { IfSome result (λ r. open_slots pending.now ≡ r.0.now ∷ open_slots r.1) }
{
    match pending {
        Pending::Nothing => None,
        Pending::Slots(slots, behind) => match slots.split_first() {
            None => first(behind),
            Some((slot, others)) => Some((slot, Pending::Slots(others, behind))),
        },
    }
}

/// The greatest number at a slot.
pub fn most_at(query: &Query, slot: &Slot) -> u32
    requires { IsKnown slot.now }
    ensures { result ≡ most_at query.now slot.now }
{
    match slot {
        Slot::Link { most, .. } => *most,
        Slot::Site { .. } => query.member_count(slot) + 1,
    }
}

/// The slots that a number opens at a slot.
pub fn opened<'a>(query: &'a Query, slot: &Slot, number: u32) -> &'a [Slot]
    requires known { IsKnown slot.now }
    requires least { 1 ≤ number }
    ensures slots { result.now ≡ opened query.now slot.now number }
    ensures known { All IsKnown result.now }
{
    if number > query.member_count(slot) {
        return &[];
    }
    slots_of(query, query.member_at(slot, number))
}

/// The counts with the site of a slot, where it is one, as a site of each of its labels, and as a
/// filled one of the group of which the number puts a member in.
pub fn counted(query: &Query, slot: &Slot, number: u32, counts: [Count; 32]) -> [Count; 32]
    requires known { IsKnown slot.now }
    requires least { 1 ≤ number }
    requires few { AreCounts 511 counts }
    ensures size { length result ≡ 32 }
    ensures sites { (g : ℕ) → 1 ≤ g → sites_at result g ≡ sites_with counts (standing_at slot.now number) g }
    ensures filled { (g : ℕ) → 1 ≤ g → filled_at result g ≡ filled_with query.now counts (standing_at slot.now number) g }
{
    let counts = with_sites(slot.labels(), counts);
    with_filled(query.group_held(slot, number), counts)
}

/// The counts without the site of a slot, where it is one.
pub fn uncounted(query: &Query, slot: &Slot, number: u32, counts: [Count; 32]) -> [Count; 32]
    requires known { IsKnown slot.now }
    requires least { 1 ≤ number }
    requires size { length counts ≡ 32 }
    ensures size { length result ≡ 32 }
    ensures sites { (g : ℕ) → 1 ≤ g → sites_at result g ≡ sites_at counts g - sites_of (standing_at slot.now number) g }
    ensures filled { (g : ℕ) → 1 ≤ g → filled_at result g ≡ filled_at counts g - filled_of query.now (standing_at slot.now number) g }
{
    let counts = without_sites(slot.labels(), counts);
    without_filled(query.group_held(slot, number), counts)
}

// The counts with one site more of each of some groups.
fn with_sites(labels: &[u32], counts: [Count; 32]) -> [Count; 32]
    requires labels { AreRisingLabels labels.now }
    requires few { AreCounts 511 counts }
    ensures size { length result ≡ 32 }
    ensures sites { (g : ℕ) → 1 ≤ g → sites_at result g ≡ sites_at counts g + borne labels.now g }
    ensures filled { (g : ℕ) → 1 ≤ g → filled_at result g ≡ filled_at counts g }
{
    let mut counts = counts;
    for g in labels {
        counts[*g as usize - 1].sites += 1;
    }
    counts
}

// The counts with one site less of each of some groups.
fn without_sites(labels: &[u32], counts: [Count; 32]) -> [Count; 32]
    requires labels { AreRisingLabels labels.now }
    requires size { length counts ≡ 32 }
    ensures size { length result ≡ 32 }
    ensures sites { (g : ℕ) → 1 ≤ g → sites_at result g ≡ sites_at counts g - borne labels.now g }
    ensures filled { (g : ℕ) → 1 ≤ g → filled_at result g ≡ filled_at counts g }
{
    let mut counts = counts;
    for g in labels {
        let i = *g as usize - 1;
        counts[i].sites = counts[i].sites.saturating_sub(1);
    }
    counts
}

// The counts with one filled site more of group h, and as they are where that is 0.
fn with_filled(h: u32, counts: [Count; 32]) -> [Count; 32]
    requires within { h ≤ 32 }
    requires size { length counts ≡ 32 }
    requires few { (g : ℕ) → 1 ≤ g → filled_at counts g ≤ 511 }
    ensures size { length result ≡ 32 }
    ensures sites { (g : ℕ) → 1 ≤ g → sites_at result g ≡ sites_at counts g }
    ensures filled { (g : ℕ) → 1 ≤ g → filled_at result g ≡ filled_at counts g + (if g == h then 1 else 0) }
{
    let mut counts = counts;
    if h == 0 {
        return counts;
    }
    counts[h as usize - 1].filled += 1;
    counts
}

// The counts with one filled site less of group h, and as they are where that is 0.
fn without_filled(h: u32, counts: [Count; 32]) -> [Count; 32]
    requires within { h ≤ 32 }
    requires size { length counts ≡ 32 }
    ensures size { length result ≡ 32 }
    ensures sites { (g : ℕ) → 1 ≤ g → sites_at result g ≡ sites_at counts g }
    ensures filled { (g : ℕ) → 1 ≤ g → filled_at result g ≡ filled_at counts g - (if g == h then 1 else 0) }
{
    let mut counts = counts;
    if h == 0 {
        return counts;
    }
    let i = h as usize - 1;
    counts[i].filled = counts[i].filled.saturating_sub(1);
    counts
}

/// The counts where nothing is chosen.
pub fn no_counts() -> [Count; 32]
    ensures none { AreNone result }
    ensures counts { AreCounts 0 result }
{
    [Count {
        sites: 0,
        filled: 0,
    }; 32]
}

/// The slots of a template.
pub fn slots_of(query: &Query, t: usize) -> &[Slot]
    ensures slots { result.now ≡ slots_of query.now t }
    ensures kept { QueryFits query.now }
    ensures known { All IsKnown result.now }
{
    let templates = query.templates();
    if t >= templates.len() {
        return &[];
    }
    templates[t].slots()
}
