// What each group still needs, and may get: where its range is surely asked for.
ghost use Rattle.std.specs.Prelude.{◌≡◌, ◌≤◌, ◌<◌, ◌+◌, ℕ, IsTrue, length, slice_set};
ghost use Rattle.mk_model.specs.Logic.{is_in_range};
ghost use Rattle.mk_choice.specs.Ahead.{HasRows};
ghost use Rattle.mk_choice.specs.Search.{AreCounts};
ghost use Rattle.mk_choice.specs.Together.{AsksFor, HasLimits, InEach, KeepsTo};

use crate::pending::{Ahead, Limits};
use crate::pruning::stands;
use mk_logic::is_asked;
use mk_model::{Count, Interval, Query};

/// What each group still needs, and may get, whatever is chosen further.
pub fn limits_of(query: &Query, counts: &[Count], ahead: &Ahead) -> Limits
    requires counts { AreCounts 512 counts.now }
    requires rows { HasRows ahead.now }
    ensures rows { HasLimits result }
    ensures each { InEach query.now counts.now ahead.now (KeepsTo result.wants result.caps) }
{
    let mut limits = asked_limits(query, counts, ahead);
    for _ in 0..32 {
        let before = known_ends(limits.caps);
        limits = named_limits(query, counts, ahead, limits);
        if known_ends(limits.caps) == before {
            return limits;
        }
    }
    limits
}

// Those of the groups that no group names, and of those that a filled one names.
fn asked_limits(query: &Query, counts: &[Count], ahead: &Ahead) -> Limits
    requires counts { AreCounts 512 counts.now }
    requires rows { HasRows ahead.now }
    ensures rows { HasLimits result }
    ensures each { InEach query.now counts.now ahead.now (KeepsTo result.wants result.caps) }
{
    let mut limits = no_limits();
    for i in 0..32 {
        limits = with_asked(query, counts, ahead, limits, i);
    }
    limits
}

// And those of the groups that one names that needs to be filled.
fn named_limits(query: &Query, counts: &[Count], ahead: &Ahead, limits: Limits) -> Limits
    requires counts { AreCounts 512 counts.now }
    requires rows { HasRows ahead.now }
    requires limits { HasLimits limits }
    requires each { InEach query.now counts.now ahead.now (KeepsTo limits.wants limits.caps) }
    ensures rows { HasLimits result }
    ensures each { InEach query.now counts.now ahead.now (KeepsTo result.wants result.caps) }
{
    let mut all = limits;
    for h in 0..32 {
        all = with_named(query, counts, ahead, all, h);
    }
    all
}

// Nothing is needed, and no end is known.
fn no_limits() -> Limits
    ensures rows { HasLimits result }
    ensures none { (more : ℕ → ℕ) → KeepsTo result.wants result.caps more }
{
    Limits {
        wants: [0; 32],
        caps: [513; 32],
    }
}

// Of how many groups an end is known.
fn known_ends(caps: [u32; 32]) -> u32 {
    let mut known = 0u32;
    for cap in caps {
        if cap <= 512 {
            known = known.saturating_add(1);
        }
    }
    known
}

// With the limits of group i + 1, where its range is asked for now.
fn with_asked(query: &Query, counts: &[Count], ahead: &Ahead, limits: Limits, i: usize) -> Limits
    requires within { i < 32 }
    requires counts { AreCounts 512 counts.now }
    requires rows { HasRows ahead.now }
    requires limits { HasLimits limits }
    requires each { InEach query.now counts.now ahead.now (KeepsTo limits.wants limits.caps) }
    ensures rows { HasLimits result }
    ensures each { InEach query.now counts.now ahead.now (KeepsTo result.wants result.caps) }
{
    let groups = query.groups();
    if !is_asked(groups, counts, i as u8 + 1) {
        return limits;
    }
    with_limit(query, counts, ahead, limits, i)
}

// With the limits of the group that group h + 1 names, where that one needs to be filled.
fn with_named(query: &Query, counts: &[Count], ahead: &Ahead, limits: Limits, h: usize) -> Limits
    requires within { h < 32 }
    requires counts { AreCounts 512 counts.now }
    requires rows { HasRows ahead.now }
    requires limits { HasLimits limits }
    requires each { InEach query.now counts.now ahead.now (KeepsTo limits.wants limits.caps) }
    ensures rows { HasLimits result }
    ensures each { InEach query.now counts.now ahead.now (KeepsTo result.wants result.caps) }
{
    if limits.wants[h] == 0 {
        return limits;
    }
    let groups = query.groups();
    let named = groups[h].then_group;
    if named == 0 {
        return limits;
    }
    if named > 32 {
        return limits;
    }
    let i = named as usize - 1;
    if limits.caps[i] <= 512 {
        return limits;
    }
    with_limit(query, counts, ahead, limits, i)
}

// With the limits of group i + 1, whose range is asked for where a site of it stands.
fn with_limit(query: &Query, counts: &[Count], ahead: &Ahead, limits: Limits, i: usize) -> Limits
    requires within { i < 32 }
    requires counts { AreCounts 512 counts.now }
    requires rows { HasRows ahead.now }
    requires limits { HasLimits limits }
    requires each { InEach query.now counts.now ahead.now (KeepsTo limits.wants limits.caps) }
    requires asked { InEach query.now counts.now ahead.now (AsksFor query.now counts.now (i + 1)) }
    ensures rows { HasLimits result }
    ensures each { InEach query.now counts.now ahead.now (KeepsTo result.wants result.caps) }
{
    let count = counts[i];
    if !stands(count.sites, ahead.sites[i]) {
        return limits;
    }
    let groups = query.groups();
    let range = groups[i].range.as_slice();
    let least = least_more(range, count.filled);
    let most = most_more(range, count.filled);
    let wants = with_number(limits.wants, i, least);
    let caps = with_number(limits.caps, i, most);
    Limits { wants, caps }
}

// The numbers with another at a place.
fn with_number(numbers: [u32; 32], i: usize, number: u32) -> [u32; 32]
    requires size { length numbers ≡ 32 }
    requires within { i < 32 }
    ensures { result ≡ slice_set numbers i number }
{
    let mut numbers = numbers;
    numbers[i] = number;
    numbers
}

// From what is filled to the least number of the range that isn't below it; 513 where there is none.
fn least_more(range: &[Interval], filled: u32) -> u32
    ensures { (n : ℕ) → filled ≤ n → IsTrue (is_in_range range.now n) → filled + result ≤ n }
{
    let Some((first, others)) = range.split_first() else {
        return 513;
    };
    let more = least_more(others, filled);
    if first.most < filled {
        return more;
    }
    more.min(first.least.saturating_sub(filled))
}

// From what is filled to the greatest number of the range that isn't below it; 0 where there is none.
fn most_more(range: &[Interval], filled: u32) -> u32
    ensures { (n : ℕ) → filled ≤ n → IsTrue (is_in_range range.now n) → n ≤ filled + result }
{
    let Some((first, others)) = range.split_first() else {
        return 0;
    };
    let more = most_more(others, filled);
    if first.most < filled {
        return more;
    }
    more.max(first.most - filled)
}
