// The structural code with which numbers begin.
ghost use Rattle.std.specs.Prelude.{All};
ghost use Rattle.mk_choice.specs.Pending.{open_slots};
ghost use Rattle.mk_choice.specs.Search.{IsKnown};
ghost use Rattle.mk_choice.specs.Within.{AreChosenWithin, IsCodeWithin};

use crate::numbers::{first, most_at, opened, slots_of};
use crate::pending::Pending;
use mk_model::Query;

/// How many of the first numbers are a structural code of the root. None exactly where the numbers
/// begin with no structural code.
pub fn code_within(query: &Query, numbers: &[u32]) -> Option<usize>
    ensures code { IsCodeWithin query.now numbers.now result }
{
    let root = Pending::Slots(slots_of(query, 0), &Pending::Nothing);
    chosen_within(query, &root, numbers)
}

// How many of the first numbers choose at the open slots.
fn chosen_within(query: &Query, pending: &Pending<'_>, numbers: &[u32]) -> Option<usize>
    requires { All IsKnown (open_slots pending.now) }
    ensures { AreChosenWithin query.now (open_slots pending.now) numbers.now result }
{
    let Some((slot, behind)) = first(pending) else {
        return Some(0);
    };
    let Some((number, others)) = numbers.split_first() else {
        return None;
    };
    if *number == 0 || *number > most_at(query, slot) {
        return None;
    }
    let inside = Pending::Slots(opened(query, slot, *number), &behind);
    let Some(n) = chosen_within(query, &inside, others) else {
        return None;
    };
    Some(n + 1)
}
