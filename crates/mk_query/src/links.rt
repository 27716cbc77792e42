// What is demanded of links.
ghost use Rattle.std.specs.Prelude.{◌≡◌, ◌≢◌, ◌≤◌, ◌≤ℤ◌, ◌↔◌, ℕ, pos, IfOk, IsTrue, length};
ghost use Rattle.mk_text.specs.Items.{FindsLeast};
ghost use Rattle.mk_model.specs.Templates.{joins};
ghost use Rattle.mk_demands.specs.Numbers.{IsAtom, natural};
ghost use Rattle.mk_query.specs.BlockSearch.{AreNumbersOf};
ghost use Rattle.mk_query.specs.Checks.{IsQueryBond};
ghost use Rattle.mk_query.specs.LinkChecks.{HasLink};
ghost use Rattle.mk_query.specs.LinkSearch.{AreAlikeBonds, AreRightBy, HasLike, IsLike, IsLinkable, IsRightLink};

use crate::atom_marks::{Standing, is_marked_site, links_at};
use crate::blocks::{LinkEnds, has_plain_block};
use crate::bonded::Bonded;
use crate::drawn_bonds::{joins, query_bonds_of};
use crate::linked_atoms::Linked;
use crate::notes::Notes;
use mk_demands::{is_atom, natural};
use mk_model::QueryBond;
use mk_props::LinkEntry;
use mk_text::Memory;
use std::alloc::Global;

/// The first atom that two links name, or whose link can't stand there.
pub fn first_unknown_link(alloc: Global, notes: &Notes<'_>) -> Result<Option<u32>, Memory>
    requires few_bonds { length notes.now.table.now.bonds ≤ 999 }
    requires bonds { (item : ℕ) → IsQueryBond (length notes.now.table.now.atoms) notes.now.table.now.bonds item }
    ensures { IfOk result (FindsLeast (HasLink notes.now.table.now)) }
{
    let atoms = notes.table.atoms.as_slice().len() as u32;
    let bonds = query_bonds_of(alloc, notes.table.bonds.as_slice())?;
    let bonded = Bonded::of(alloc, atoms, &bonds)?;
    for i in 0..atoms {
        let right = are_right(alloc, &bonded, &notes.standing, i + 1)?;
        if !right {
            return Ok(Some(i + 1));
        }
    }
    Ok(None)
}

// Whether no link names atom x, or one that can stand there.
fn are_right(
    alloc: Global,
    bonded: &Bonded<'_>,
    standing: &Standing,
    x: u32,
) -> Result<bool, Memory>
    requires least { 1 ≤ x }
    requires most { x ≤ bonded.now.atoms }
    ensures { IfOk result (λ right. IsTrue right ↔ AreRightBy bonded.now.atoms bonded.now.bonds.now standing.now x) }
{
    match links_at(standing, x) {
        Linked::Nothing => Ok(true),
        Linked::One(link) => is_right_link(alloc, bonded, standing, x, &link),
        Linked::More => Ok(false),
    }
}

// Whether the link can stand at atom x.
fn is_right_link(
    alloc: Global,
    bonded: &Bonded<'_>,
    standing: &Standing,
    x: u32,
    link: &LinkEntry,
) -> Result<bool, Memory>
    requires least { 1 ≤ x }
    requires most { x ≤ bonded.now.atoms }
    ensures { IfOk result (λ right. IsTrue right ↔ IsRightLink bonded.now.atoms bonded.now.bonds.now standing.now x link.now) }
{
    let linkable = is_linkable(bonded.atoms, standing, x, link);
    if !linkable {
        return Ok(false);
    }
    let ends = ends_of(x, link);
    let alike = are_alike(bonded.bonds, bonded.numbers_of(x), ends);
    if !alike {
        return Ok(false);
    }
    has_plain_block(alloc, bonded, standing, ends)
}

fn ends_of(x: u32, link: &LinkEntry) -> LinkEnds
    ensures { result ≡ record { atom = x; from = natural link.now.from; to = natural link.now.to } }
{
    LinkEnds {
        atom: x,
        from: natural(link.from),
        to: natural(link.to),
    }
}

// Whether the atom is no site, and the numbers of the link are such as there are.
fn is_linkable(atoms: u32, standing: &Standing, x: u32, link: &LinkEntry) -> bool
    ensures { IsTrue result ↔ IsLinkable atoms standing.now x link.now }
{
    !is_marked_site(standing, x)
        && is_twice(link)
        && has_from(atoms, link)
        && has_to(atoms, link)
        && has_two(link)
}

fn is_twice(link: &LinkEntry) -> bool
    ensures { IsTrue result ↔ pos 2 ≤ℤ link.now.most }
{
    link.most >= 2
}

fn has_from(atoms: u32, link: &LinkEntry) -> bool
    ensures { IsTrue result ↔ IsAtom atoms link.now.from }
{
    is_atom(atoms, link.from)
}

fn has_to(atoms: u32, link: &LinkEntry) -> bool
    ensures { IsTrue result ↔ IsAtom atoms link.now.to }
{
    is_atom(atoms, link.to)
}

fn has_two(link: &LinkEntry) -> bool
    ensures { IsTrue result ↔ link.now.from ≢ link.now.to }
{
    link.from != link.to
}

// Whether two bonds that are alike lead from the link to the two neighbours.
fn are_alike(bonds: &[QueryBond], numbers: &[u32], link: LinkEnds) -> bool
    requires { AreNumbersOf bonds.now link.atom numbers.now }
    ensures { IsTrue result ↔ AreAlikeBonds bonds.now link }
{
    for number in numbers {
        let one = bonds[*number as usize - 1];
        let found = joins(link.atom, link.from, one) && has_like(bonds, numbers, link, one);
        if found {
            return true;
        }
    }
    false
}

// Whether a bond to the second neighbour is like this one.
fn has_like(bonds: &[QueryBond], numbers: &[u32], link: LinkEnds, one: QueryBond) -> bool
    requires { AreNumbersOf bonds.now link.atom numbers.now }
    ensures { IsTrue result ↔ HasLike bonds.now link one }
{
    for number in numbers {
        let other = bonds[*number as usize - 1];
        if is_like(link, one, other) {
            return true;
        }
    }
    false
}

fn is_like(link: LinkEnds, one: QueryBond, other: QueryBond) -> bool
    ensures { IsTrue result ↔ IsLike link one other }
{
    joins(link.atom, link.to, other) && one.kind == other.kind && one.topology == other.topology
}
