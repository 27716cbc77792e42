// Whether nothing that is chosen further is allowed.
ghost use Rattle.std.specs.Prelude.{◌≡◌, ◌≤◌, ◌<◌, ◌+◌, nat_lt, IsTrue};
ghost use Rattle.std.specs.List.{list_all};
ghost use Rattle.mk_choice.specs.Ahead.{HasRows, IsLost};
ghost use Rattle.mk_choice.specs.Bounds.{Misses, lies_apart};
ghost use Rattle.mk_choice.specs.Search.{AreCounts};

use crate::pending::Ahead;
use mk_logic::{ends_below, is_asked};
use mk_model::{Count, Query, Range};

/// Some group can't be filled as often as its range says, whatever is chosen further. Where it
/// answers false, nothing is said.
pub fn cant_complete(query: &Query, counts: &[Count], ahead: &Ahead) -> bool
    requires counts { AreCounts 512 counts.now }
    requires rows { HasRows ahead.now }
    ensures { IsTrue result → IsLost query.now counts.now ahead.now }
{
    for i in 0..32 {
        if is_lost(query, counts, ahead, i) {
            return true;
        }
    }
    false
}

// The group of number i + 1 can't.
fn is_lost(query: &Query, counts: &[Count], ahead: &Ahead, i: usize) -> bool
    requires within { i < 32 }
    requires counts { AreCounts 512 counts.now }
    requires rows { HasRows ahead.now }
    ensures { IsTrue result → IsLost query.now counts.now ahead.now }
{
    let count = counts[i];
    if !stands(count.sites, ahead.sites[i]) {
        return false;
    }
    let groups = query.groups();
    if !misses(&groups[i].range, count.filled, ahead.filled[i]) {
        return false;
    }
    is_asked(groups, counts, i as u8 + 1)
}

/// A site of a group stands, or is open and will stand.
pub fn stands(standing: u32, ahead: u32) -> bool
    ensures { result ≡ nat_lt 0 (standing + ahead) }
{
    standing > 0 || ahead > 0
}

// Each interval ends below the first number, or begins above it and the second together; where the
// second is above 512, nothing is known of it.
fn misses(range: &Range, filled: u32, more: u32) -> bool
    requires { filled ≤ 512 }
    ensures { IsTrue result → Misses range.now filled more }
{
    if more > 512 {
        return ends_below(range, filled);
    }
    lie_apart(range, filled, filled + more)
}

fn lie_apart(range: &Range, low: u32, high: u32) -> bool
    ensures { result ≡ list_all (lies_apart low high) range.now }
{
    range
        .as_slice()
        .iter()
        .all(|interval| interval.most < low || high < interval.least)
}
