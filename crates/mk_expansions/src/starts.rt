// Where a search starts: what a place leaves to a record and to a code.
ghost use Rattle.std.specs.Prelude.{◌≡◌, ◌==◌, ◌↔◌, IsTrue, length, not};
ghost use Rattle.mk_text.specs.Rising.{IsBelow};
ghost use Rattle.mk_model.specs.Queries.{slots_of};
ghost use Rattle.mk_expansions.specs.Starts.{IsBehind, IsStart, first_number, rest_in};

use mk_choice::code_within;
use mk_model::Query;

/// The place from which codes are needed: the code with which the rest begins, or the rest itself
/// where it begins with none.
pub fn start<'a>(query: &Query, rest: &'a [u32]) -> &'a [u32]
    ensures { IsStart query.now rest.now result.now }
{
    match code_within(query, rest) {
        Some(n) => &rest[..n],
        None => rest,
    }
}

/// The place from which hits of this code are needed: what stands behind the code where the rest
/// begins with it.
pub fn behind<'a>(code: &[u32], rest: &'a [u32]) -> &'a [u32]
    ensures { IsBehind code.now rest.now result.now }
{
    match rest.strip_prefix(code) {
        Some(back) => back,
        None => &[],
    }
}

/// The number from which on records are needed.
pub fn first_number(place: &[u32]) -> u32
    ensures { result ≡ first_number place.now }
{
    match place.first() {
        Some(first) => *first,
        None => 0,
    }
}

/// What a place leaves to the record of this number.
pub fn rest_in(place: &[u32], number: u32) -> &[u32]
    ensures { result.now ≡ rest_in place.now number }
{
    match place.split_first() {
        Some((first, rest)) if *first == number => rest,
        _ => &[],
    }
}

/// Tells that the root has a slot.
pub fn has_slots(query: &Query) -> bool
    ensures { result ≡ not (length (slots_of query.now 0) == 0) }
{
    let templates = query.templates();
    if templates.is_empty() {
        return false;
    }
    !templates[0].slots().is_empty()
}

/// Tells that a list is below another: number by number, and below those that it begins.
pub fn is_below(list: &[u32], other: &[u32]) -> bool
    ensures { IsTrue result ↔ IsBelow list.now other.now }
{
    let Some((second, others)) = other.split_first() else {
        return false;
    };
    let Some((first, rest)) = list.split_first() else {
        return true;
    };
    if *first == *second {
        return is_below(rest, others);
    }
    *first < *second
}
