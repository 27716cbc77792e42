// The members that a code puts in at the root's sites.
ghost use Rattle.std.specs.Prelude.{◌≡◌, ◌≤◌, ◌++◌, All, IfOk, OnOk, length};
ghost use Rattle.mk_model.specs.Codes.{IsCode};
ghost use Rattle.mk_rtable.specs.Members.{AreMembers, AreMembersOfFront, BearsRisingLabels, IsBehindChoice, PutsMembers, member_at};

use crate::slots::{opened, slots_of};
use mk_model::{Memory, Numbers, Query, Slot};
use std::alloc::Global;

/// The members at the root's sites by rising atom: the number that the code gives there, and 0 where
/// the site is unfilled. A link has no member, and sites inside members aren't the root's.
pub fn members_of(alloc: Global, query: &Query, code: &[u32]) -> Result<Numbers, Memory>
    requires code { IsCode query.now 0 code.now }
    ensures members { IfOk result (AreMembers query.now code.now) }
{
    members_of_front(alloc, query, code)
}

/// The same of the structural code with which the numbers begin.
pub fn members_of_front(alloc: Global, query: &Query, numbers: &[u32]) -> Result<Numbers, Memory>
    ensures members { IfOk result (AreMembersOfFront query.now numbers.now) }
{
    let slots = slots_of(query, 0);
    let mut members = Vec::with_capacity(alloc, slots.len())?;
    put_members(query, slots, numbers, &mut members)?;
    Ok(Numbers::of(members))
}

// Appends the members of the choice at these slots with which the numbers begin.
fn put_members(
    query: &Query,
    slots: &[Slot],
    numbers: &[u32],
    members: &mut Vec<u32>,
) -> Result<(), Memory>
    requires { All BearsRisingLabels slots.now }
    ensures put { OnOk result (PutsMembers query.now slots.now numbers.now members.old.items members.new.items) }
{
    let Some((slot, others)) = slots.split_first() else {
        return Ok(());
    };
    let Some((number, rest)) = numbers.split_first() else {
        return Ok(());
    };
    if *number == 0 {
        return Ok(());
    }
    put_member(query, slot, *number, members)?;
    let behind = behind_choice(query, opened(query, slot, *number), rest);
    put_members(query, others, behind, members)
}

// Appends the member of a number at a site, and nothing at a link.
fn put_member(query: &Query, slot: &Slot, number: u32, members: &mut Vec<u32>) -> Result<(), Memory>
    requires { BearsRisingLabels slot.now }
    ensures put { OnOk result (members.new.items ≡ members.old.items ++ member_at query.now slot.now number) }
{
    let Slot::Site { .. } = slot else {
        return Ok(());
    };
    if number <= query.member_count(slot) {
        members.push(number)?;
        return Ok(());
    }
    members.push(0)?;
    Ok(())
}

// What stands behind the choice at these slots with which the numbers begin.
fn behind_choice<'a>(query: &Query, slots: &[Slot], numbers: &'a [u32]) -> &'a [u32]
    requires { All BearsRisingLabels slots.now }
    ensures behind { IsBehindChoice query.now slots.now numbers.now result.now }
    ensures within { length result.now ≤ length numbers.now }
{
    let Some((slot, others)) = slots.split_first() else {
        return numbers;
    };
    let Some((number, rest)) = numbers.split_first() else {
        return numbers;
    };
    if *number == 0 {
        return numbers;
    }
    let inside = behind_choice(query, opened(query, slot, *number), rest);
    behind_choice(query, others, inside)
}
