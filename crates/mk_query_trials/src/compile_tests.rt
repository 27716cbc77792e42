// Queries over a group without a member, which no file can say, and a query with its structure. The
// shorthand is that of docs/TESTING.md, "Tables of tests".
ghost use Rattle.std.specs.Prelude.{◌+◌, ◌<◌, ◌≤◌, ◌^◌, All, length};
ghost use Rattle.mk_rgfile.specs.QueryFacts.{member_count};
ghost use Rattle.mk_query.specs.InRange.{HasFewProperties, HaveFewProperties, IsGroupInRange, IsQueryInRange};

use mk_enum::structures;
use mk_fixtures::rgfile_of_sketches;
use mk_model::Query;
use mk_query::{CompileFault, compile};
use mk_rgfile::{RawGroup, RawQuery, RawTables, read_rgfile};
use std::alloc::Global;
use std::test::Fail;

#[test]
fn names_the_first_fault_without_a_member(rt: HostRuntime) -> Result<(), Fail> {
    assert!(rt; is_named(rt.alloc())?);
    Ok(())
}

// Whether a root that doesn't use the group passes, and in one with a site of it the site is named.
fn is_named(alloc: Global) -> Result<bool, Fail> {
    let unused = fault_of(alloc, "C |")?;
    let used = fault_of(alloc, "C R# | 1-2 {M  RGP  1   2   1}")?;
    Ok(unused == (0, 0, 0) && used == (5, 0, 2))
}

// The fault of a root over a group 1 without a member.
fn fault_of(alloc: Global, root: &str) -> Result<(u8, u32, u32), Fail> {
    let group = RawGroup {
        number: 1,
        members: RawTables::new(alloc),
    };
    let text = rgfile_of_sketches(alloc, root, &[])?;
    fault_with(alloc, &text, group)
}

// What fails where a query file has this group, too.
fn fault_with(alloc: Global, text: &[u8], group: RawGroup) -> Result<(u8, u32, u32), Fail>
    requires in_range { IsGroupInRange group }
    requires few_members { length group.members ≤ 1000000 }
    requires few_properties { All HasFewProperties group.members }
{
    if text.len() > 1_000_000 {
        return Err(Fail::from("a long text"));
    }
    match read_rgfile(alloc, text) {
        Ok(raw) => {
            let root = raw.root;
            let mut groups = raw.groups;
            groups.push(group)?;
            fault_of_raw(alloc, &RawQuery { root, groups })
        }
        Err(_) => Err(Fail::from("no query file")),
    }
}

// The check, the table and the item that are named, and zeros where the query passes.
fn fault_of_raw(alloc: Global, raw: &RawQuery) -> Result<(u8, u32, u32), Fail>
    requires in_range { IsQueryInRange raw.now }
    requires few_members { member_count raw.now + 1 < 2 ^ 32 }
    requires few_properties { HaveFewProperties raw.now }
{
    fault_in(compile(alloc, raw))
}

fn fault_in(found: Result<Query, CompileFault>) -> Result<(u8, u32, u32), Fail> {
    match found {
        Ok(_) => Ok((0, 0, 0)),
        Err(CompileFault::Check { check, table, item }) => Ok((check, table, item)),
        Err(CompileFault::Memory) => Err(Fail::from("no memory")),
    }
}

// The one structure of a carbon and an oxygen.
const STRUCTURE: &str =
    "choice\n\n\n  2  1  0  0  0  0            999 V2000\n    0.0000    0.0000    0.0000 C   0  0  0  0  0  0\n    0.0000    0.0000    0.0000 O   0  0  0  0  0  0\n  1  2  1  0  0  0\nM  END\n$$$$\n";

#[test]
fn structures_are_written(rt: HostRuntime) -> Result<(), Fail> {
    assert!(rt; is_written(rt.alloc())?);
    Ok(())
}

// Whether the structure is written, and the place behind it is known, which a run says of a full page
// alone.
fn is_written(alloc: Global) -> Result<bool, Fail> {
    let text = rgfile_of_sketches(alloc, "C O | 1-2", &[])?;
    let Ok(query) = query_of(alloc, &text)? else {
        return Ok(false);
    };
    let found = structures(alloc, &query, &[], 5)?;
    let written = found.text.as_slice() == STRUCTURE.as_bytes();
    Ok(written && found.ended && found.place.as_slice() == [0u32].as_slice())
}

// The query of a text, or its fault.
fn query_of(alloc: Global, text: &[u8]) -> Result<Result<Query, CompileFault>, Fail> {
    if text.len() > 1_000_000 {
        return Err(Fail::from("a long text"));
    }
    match read_rgfile(alloc, text) {
        Ok(raw) => Ok(compile(alloc, &raw)),
        Err(_) => Err(Fail::from("no query file")),
    }
}
