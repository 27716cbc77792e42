// The groups of a raw query.
ghost use Rattle.std.specs.Prelude.{◌≡◌, ◌<◌, ◌+◌, ◌++◌, ◌^◌, pos, All, IfOk, None, OnOk, Some, length};
ghost use Rattle.std.specs.Ordering.{int_eq};
ghost use Rattle.mk_demands.specs.Numbers.{IsWithin};
ghost use Rattle.mk_rgfile.specs.QueryFacts.{member_count, members_in};
ghost use Rattle.mk_query.specs.Compiled.{AreGroupsOf, IsLogicOf, logic_for, members_from};
ghost use Rattle.mk_query.specs.GroupMarks.{HasKnownLogic, IsKnownLogic, logic_by, part_members};
ghost use Rattle.mk_query.specs.LogicSearch.{names_group};
ghost use Rattle.mk_query.specs.Passed.{HasPassed};

use crate::draft::GROUPS;
use mk_demands::natural;
use mk_logic::read_range;
use mk_model::Group;
use mk_props::{LogicLine, Property};
use mk_rgfile::{RawGroup, RawQuery};
use mk_text::{Memory, Numbers};
use std::alloc::Global;

/// The 32 groups, each with the members of all parts of its number and with what the root says of
/// it.
pub fn groups_of(alloc: Global, raw: &RawQuery) -> Result<Vec<Group>, Memory>
    requires few { member_count raw.now < 2 ^ 32 }
    requires root { HasPassed raw.now.root }
    ensures { IfOk result (λ groups. AreGroupsOf raw.now groups.items) }
{
    let mut groups = Vec::with_capacity(alloc, GROUPS as usize)?;
    for i in 0..GROUPS {
        let members = members_of(alloc, raw.groups.as_slice(), i + 1)?;
        let group = group_of(alloc, members, raw.root.props.as_slice(), i + 1)?;
        groups.push(group)?;
    }
    Ok(groups)
}

// The members of group g, of which the numbers count from 1 over all parts.
fn members_of(alloc: Global, parts: &[RawGroup], g: u32) -> Result<Numbers, Memory>
    requires { members_in parts.now < 2 ^ 32 }
    ensures { IfOk result (λ members. members ≡ members_from 1 g parts.now) }
{
    let mut members = Vec::new(alloc);
    let mut before = 0;
    for i in 0..parts.len() {
        let part = &parts[i];
        put_part(&mut members, before, g, part)?;
        before += part.members.as_slice().len() as u32;
    }
    Ok(Numbers::of(members))
}

// Puts the numbers of a part's members behind the others, where it is a part of group g.
fn put_part(members: &mut Vec<u32>, before: u32, g: u32, part: &RawGroup) -> Result<(), Memory>
    requires { before + length part.now.members < 2 ^ 32 }
    ensures { OnOk result (members.new.items ≡ members.old.items ++ part_members (before + 1) g part.now) }
{
    if part.number as u32 != g {
        return Ok(());
    }
    for k in 0..part.members.as_slice().len() {
        members.push(before + k as u32 + 1)?;
    }
    Ok(())
}

// The group of these members, with what the first `M  LOG` of group g says.
fn group_of(alloc: Global, members: Numbers, props: &[Property], g: u32) -> Result<Group, Memory>
    requires { All HasKnownLogic props.now }
    ensures members { IfOk result (λ group. group.members ≡ members) }
    ensures logic { IfOk result (IsLogicOf (logic_for g props.now)) }
{
    for i in 0..props.len() {
        let property = &props[i];
        if names_group(g, property) {
            return group_by(alloc, members, property);
        }
    }
    plain_group(alloc, members)
}

fn names_group(g: u32, property: &Property) -> bool
    ensures { result ≡ names_group g property.now }
{
    match property {
        Property::Logic(logic) => natural(logic.group) == g,
        _ => false,
    }
}

// The group of these members, with what the property says where it is an `M  LOG`.
fn group_by(alloc: Global, members: Numbers, property: &Property) -> Result<Group, Memory>
    requires { HasKnownLogic property.now }
    ensures members { IfOk result (λ group. group.members ≡ members) }
    ensures logic { IfOk result (IsLogicOf (logic_by property.now)) }
{
    if let Property::Logic(logic) = property {
        return spoken_group(alloc, members, logic);
    }
    plain_group(alloc, members)
}

fn spoken_group(alloc: Global, members: Numbers, logic: &LogicLine) -> Result<Group, Memory>
    requires { IsKnownLogic logic.now }
    ensures members { IfOk result (λ group. group.members ≡ members) }
    ensures logic { IfOk result (IsLogicOf (Some logic.now)) }
{
    let range = read_range(alloc, logic.range.as_slice())?.unwrap();
    Ok(Group {
        members,
        then_group: then_group_of(logic),
        rest_hydrogen: leaves_hydrogen(logic),
        range,
    })
}

fn then_group_of(logic: &LogicLine) -> u8
    requires { IsWithin (pos 0) (pos 32) logic.now.then_group }
    ensures { pos result ≡ logic.now.then_group }
{
    let group = logic.then_group;
    group as u8
}

fn leaves_hydrogen(logic: &LogicLine) -> bool
    ensures { result ≡ int_eq logic.now.rest (pos 1) }
{
    logic.rest == 1
}

// A group of which no `M  LOG` speaks.
fn plain_group(alloc: Global, members: Numbers) -> Result<Group, Memory>
    ensures members { IfOk result (λ group. group.members ≡ members) }
    ensures logic { IfOk result (IsLogicOf None) }
{
    let range = read_range(alloc, b"")?.unwrap();
    Ok(Group {
        members,
        then_group: 0,
        rest_hydrogen: false,
        range,
    })
}
