// The lines of hits.
ghost use Rattle.std.specs.Prelude.{◌≡◌, ◌∷◌, ◌++◌, IfOk, OnOk};
ghost use Rattle.mk_effects.specs.Hits.{AreHitLines, HasParts, HaveParts, IsHitsText, PutsLine, hit_line, stop_line, stop_of, stop_of_paced};

use mk_choice::code_within;
use mk_enum::put_numbers;
use mk_found::put_numbered;
use mk_model::{Key, Query};
use mk_search::{Page, Stop as PacedStop};
use mk_text::{Memory, put_number};
use std::alloc::Global;

/// Where a list of hits stops.
#[derive(Clone, Copy)]
pub enum Stop {
    /// It is whole.
    Ended,
    /// There may be more, which are listed under this number.
    More(u32),
    /// The budget is spent, and the search goes on under this number.
    Paused(u32),
}

/// Where the list of a page stops; the number is that under which there may be more.
pub fn stop_of(listed: &Page, cursor: u32) -> Stop
    ensures { result ≡ stop_of listed.now.ended cursor }
{
    if listed.ended {
        Stop::Ended
    } else {
        Stop::More(cursor)
    }
}

/// Where a list stops that may pause; the number is that under which it goes on.
pub fn stop_of_paced(stop: PacedStop, cursor: u32) -> Stop
    ensures { result ≡ stop_of_paced stop cursor }
{
    match stop {
        PacedStop::Full => Stop::More(cursor),
        PacedStop::Ended => Stop::Ended,
        PacedStop::Paused => Stop::Paused(cursor),
    }
}

/// The answer that lists these keys, and says where they stop.
pub fn hits_answer(
    alloc: Global,
    query: &Query,
    keys: &[Key],
    stop: Stop,
) -> Result<Vec<u8>, Memory>
    requires { HaveParts query.now keys.now }
    ensures { IfOk result (λ answer. IsHitsText query.now keys.now stop answer.items) }
{
    let mut answer = lines_of(alloc, query, keys)?;
    put_stop(alloc, &mut answer, stop)?;
    Ok(answer)
}

// The last line.
fn put_stop(alloc: Global, answer: &mut Vec<u8>, stop: Stop) -> Result<(), Memory>
    ensures { OnOk result (answer.new.items ≡ answer.old.items ++ stop_line stop) }
{
    match stop {
        Stop::Ended => answer.extend_from_slice(b"end\n"),
        Stop::More(cursor) => put_numbered(alloc, answer, b"more ", u64::from(cursor)),
        Stop::Paused(cursor) => put_numbered(alloc, answer, b"paused ", u64::from(cursor)),
    }
}

// The lines of these keys, in order.
fn lines_of(alloc: Global, query: &Query, keys: &[Key]) -> Result<Vec<u8>, Memory>
    requires { HaveParts query.now keys.now }
    ensures { IfOk result (λ lines. AreHitLines query.now keys.now lines.items) }
{
    let mut lines = Vec::new(alloc);
    for key in keys {
        put_hit(alloc, &mut lines, query, key.as_slice())?;
    }
    Ok(lines)
}

// The line of a key.
fn put_hit(alloc: Global, lines: &mut Vec<u8>, query: &Query, key: &[u32]) -> Result<(), Memory>
    requires { HasParts query.now key.now }
    ensures { OnOk result (PutsLine query.now key.now lines.old.items lines.new.items) }
{
    match key {
        [] => unreachable!(),
        [number, numbers @ ..] => put_occurrence(alloc, lines, query, *number, numbers),
    }
}

// The same of a record's number, and of the numbers behind it. Those of the choice are the
// structural code with which they begin.
fn put_occurrence(
    alloc: Global,
    lines: &mut Vec<u8>,
    query: &Query,
    number: u32,
    numbers: &[u32],
) -> Result<(), Memory>
    requires { HasParts query.now (number ∷ numbers.now) }
    ensures { OnOk result (PutsLine query.now (number ∷ numbers.now) lines.old.items lines.new.items) }
{
    match code_within(query, numbers) {
        None => unreachable!(),
        Some(size) => {
            let (code, hit) = numbers.split_at(size);
            put_line(alloc, lines, number, code, hit)
        }
    }
}

fn put_line(
    alloc: Global,
    lines: &mut Vec<u8>,
    number: u32,
    code: &[u32],
    hit: &[u32],
) -> Result<(), Memory>
    ensures { OnOk result (lines.new.items ≡ lines.old.items ++ hit_line number code.now hit.now) }
{
    lines.extend_from_slice(b"hit ")?;
    put_number(alloc, lines, u64::from(number))?;
    lines.extend_from_slice(b" choice")?;
    put_numbers(alloc, lines, code)?;
    lines.extend_from_slice(b" map")?;
    put_numbers(alloc, lines, hit)?;
    lines.extend_from_slice(b"\n")
}
