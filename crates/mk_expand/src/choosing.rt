// What a code makes of templates and their slots.
ghost use Rattle.std.specs.Prelude.{◌≡◌, ◌&&◌, ◌≤◌, ◌<◌, ◌∷◌, [], true, IfOk, length, drop};
ghost use Rattle.mk_model.specs.Queries.{slots_of};
ghost use Rattle.mk_model.specs.QueryFits.{QueryFits};
ghost use Rattle.mk_layout.specs.Sites.{MayBeFilledSmall};
ghost use Rattle.mk_pieces.specs.Rooms.{IsSmallTemplate};
ghost use Rattle.mk_expand.specs.OpenGraphs.{is_one_ended};
ghost use Rattle.mk_expand.specs.Opening.{AreOpenChosen, IsOpened, OpenBegins};

use crate::joining::opened;
use mk_layout::part::{Part, Shape};
use mk_layout::piece::Piece;
use mk_layout::sites::{draws_rest_hydrogens, left_open};
use mk_model::{Memory, Query, Slot};
use std::alloc::Global;

/// What is known of an open choice once it is read: the place behind it, and whether each slot that
/// it leaves open has one neighbour.
#[derive(Clone, Copy)]
pub struct Read {
    pub behind: usize,
    pub one_ended: bool,
}

/// What template t becomes by the open choice with which the code goes on at a place, and what is
/// known of the choice.
#[cycle(opening)]
pub fn opened_by(
    alloc: Global,
    query: &Query,
    t: usize,
    code: &[u32],
    at: usize,
) -> Result<(Part, Read), Memory>
    requires kept { QueryFits query.now }
    requires small { IsSmallTemplate query.now t }
    requires at { at ≤ length code.now }
    requires begins { OpenBegins query.now (slots_of query.now t) (drop at code.now) }
    ensures within { IfOk result (λ r. (at ≤ r.1.behind) × (r.1.behind ≤ length code.now)) }
    ensures is { IfOk result (λ r. IsOpened query.now t (drop at code.now) (drop r.1.behind code.now) r.0 r.1.one_ended) }
{
    let (pieces, read) = open_chosen(alloc, query, t, code, at)?;
    let part = opened(alloc, &query.templates()[t], &pieces)?;
    Ok((part, read))
}

// What the slots of template t become.
#[cycle(opening)]
fn open_chosen(
    alloc: Global,
    query: &Query,
    t: usize,
    code: &[u32],
    at: usize,
) -> Result<(Vec<Piece>, Read), Memory>
    requires kept { QueryFits query.now }
    requires small { IsSmallTemplate query.now t }
    requires at { at ≤ length code.now }
    requires begins { OpenBegins query.now (slots_of query.now t) (drop at code.now) }
    ensures within { IfOk result (λ r. (at ≤ r.1.behind) × (r.1.behind ≤ length code.now)) }
    ensures are { IfOk result (λ r. AreOpenChosen query.now (slots_of query.now t) (drop at code.now) (drop r.1.behind code.now) r.0.items r.1.one_ended) }
{
    let slots = query.templates()[t].slots();
    let mut pieces = Vec::with_capacity(alloc, slots.len())?;
    let mut next = at;
    let mut one_ended = true;
    for slot in slots {
        let (piece, read) = open_chosen_at(alloc, query, slot, code, next)?;
        pieces.push(piece)?;
        next = read.behind;
        one_ended = both(one_ended, read.one_ended);
    }
    Ok((
        pieces,
        Read {
            behind: next,
            one_ended,
        },
    ))
}

// What a slot becomes.
#[cycle(opening)]
fn open_chosen_at(
    alloc: Global,
    query: &Query,
    slot: &Slot,
    code: &[u32],
    at: usize,
) -> Result<(Piece, Read), Memory>
    requires kept { QueryFits query.now }
    requires small { MayBeFilledSmall query.now slot.now }
    requires at { at ≤ length code.now }
    requires begins { OpenBegins query.now (slot.now ∷ []) (drop at code.now) }
    ensures within { IfOk result (λ r. (at ≤ r.1.behind) × (r.1.behind ≤ length code.now)) }
    ensures are { IfOk result (λ r. AreOpenChosen query.now (slot.now ∷ []) (drop at code.now) (drop r.1.behind code.now) (r.0 ∷ []) r.1.one_ended) }
{
    let number = code[at];
    if number == 0 {
        return Ok((
            Piece::of(Shape::Nothing),
            Read {
                behind: at + 1,
                one_ended: has_one_end(slot),
            },
        ));
    }
    match slot {
        Slot::Link { .. } => Ok((Piece::of(Shape::Copies(number)), decided(at + 1))),
        Slot::Site { second, .. } => {
            let count = query.member_count(slot);
            if number <= count {
                let member = query.member_at(slot, number);
                let (part, read) = opened_by(alloc, query, member, code, at + 1)?;
                return Ok((Piece::of(Shape::Member(part)), read));
            }
            let rest = draws_rest_hydrogens(query, slot);
            Ok((left_open(rest, *second), decided(at + 1)))
        }
    }
}

// A slot that isn't left open.
fn decided(behind: usize) -> Read
    ensures behind { result.behind ≡ behind }
    ensures one_ended { result.one_ended ≡ true }
{
    Read {
        behind,
        one_ended: true,
    }
}

// The slot has one neighbour.
fn has_one_end(slot: &Slot) -> bool
    ensures { result ≡ is_one_ended slot.now }
{
    match slot {
        Slot::Link { .. } => false,
        Slot::Site { second, .. } => *second == 0,
    }
}

fn both(one: bool, other: bool) -> bool
    ensures { result ≡ (one && other) }
{
    one && other
}
