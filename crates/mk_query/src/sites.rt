// What is demanded of the labels and the neighbours of sites.
ghost use Rattle.std.specs.Prelude.{◌≡◌, ◌≤◌, ◌↔◌, ◌&&◌, ◌||◌, not, ℤ, pos, All, List, IfOk, IsTrue, length};
ghost use Rattle.mk_text.specs.Items.{FindsLeast};
ghost use Rattle.mk_rgfile.specs.declared.raw_query.RawGroup.{RawGroup};
ghost use Rattle.mk_query.specs.Drawn.{is_site};
ghost use Rattle.mk_query.specs.Marks.{are_apart, AreAllServed, AreServed, HasKnownLabels, IsKnownLabel, IsLabels, has_group, is_served, site_mark};
ghost use Rattle.mk_query.specs.SiteChecks.{HasLabel, HasSitePlace, IsLabelled};

use crate::draft::GROUPS;
use crate::drawn::{Labels, Near, has_group, is_site};
use crate::notes::Notes;
use mk_rgfile::RawGroup;
use mk_tables::RawAtom;
use mk_text::Memory;
use std::alloc::Global;

// How many numbers a byte tells.
const NUMBERS: usize = 256;

/// For each number whether a group that bears it has a member.
pub fn served_numbers(alloc: Global, groups: &[RawGroup]) -> Result<Vec<bool>, Memory>
    ensures { IfOk result (λ served. AreServed groups.now served.items) }
{
    let mut served = vec![in alloc; false; NUMBERS]?;
    for group in groups {
        if group.members.as_slice().is_empty() {
            continue;
        }
        served[group.number as usize] = true;
    }
    Ok(served)
}

/// The first atom that is a site without a label, has a label and is none, has a label twice, or
/// one that names no members.
pub fn first_unlabelled_atom(served: &[bool], notes: &Notes<'_>) -> Option<u32>
    requires { All HasKnownLabels notes.now.table.now.props }
    ensures { (groups : List RawGroup) → AreServed groups served.now → FindsLeast (HasLabel groups notes.now.table.now) result }
{
    let atoms = notes.table.atoms.as_slice();
    for (i, atom) in atoms.iter().enumerate() {
        if !is_labelled(served, atom, notes.standing.labels[i]) {
            return Some(i as u32 + 1);
        }
    }
    None
}

fn is_labelled(served: &[bool], atom: &RawAtom, labels: Labels) -> bool
    ensures { (groups : List RawGroup) (those : List ℤ) → AreServed groups served.now → All IsKnownLabel those → IsLabels those labels
        → (IsTrue result ↔ IsLabelled groups those atom.now) }
{
    if !labels.some {
        return !is_site(atom);
    }
    all_three(
        is_site(atom),
        labels.once,
        are_served(served, labels.groups),
    )
}

fn all_three(site: bool, once: bool, served: bool) -> bool
    ensures { result ≡ (site && (once && served)) }
{
    site && once && served
}

// What is noted of each group of which the bit is set.
fn are_served(served: &[bool], groups: u32) -> bool
    ensures { IsTrue result ↔ AreAllServed served.now groups }
{
    for i in 0..GROUPS {
        if !serves(served, groups, i + 1) {
            return false;
        }
    }
    true
}

// The bit of group g isn't set, or it is noted that the group has a member.
fn serves(served: &[bool], groups: u32, g: u32) -> bool
    requires { (1 ≤ g) × (g ≤ 32) }
    ensures { result ≡ (not (has_group groups g) || is_served served.now (pos g)) }
{
    !has_group(groups, g) || served.get(g as usize).copied().unwrap_or(false)
}

/// The first site that hasn't one or two neighbours, or has one that is a site.
pub fn first_misplaced_site(notes: &Notes<'_>) -> Option<u32>
    ensures { FindsLeast (HasSitePlace notes.now.table.now) result }
{
    let atoms = notes.table.atoms.as_slice();
    for (i, atom) in atoms.iter().enumerate() {
        if !is_placed(&notes.standing.sites, atom, notes.standing.near[i]) {
            return Some(i as u32 + 1);
        }
    }
    None
}

fn is_placed(sites: &[bool], atom: &RawAtom, near: Near) -> bool
    ensures { result ≡ (not (is_site atom.now) || are_apart sites.now near) }
{
    !is_site(atom) || are_apart(sites, near)
}

// Whether there are one or two neighbours, and none is a site.
#[tactic(auto, unfolding(crate::specs::Marks::are_apart))]
fn are_apart(sites: &[bool], near: Near) -> bool
    ensures { result ≡ are_apart sites.now near }
{
    match near {
        Near::One(y) => !site_mark(sites, y),
        Near::Two(y, z) => !site_mark(sites, y) && !site_mark(sites, z),
        _ => false,
    }
}

/// What is noted of atom x, or of group x, in a list that counts from 1.
pub fn site_mark(sites: &[bool], x: u32) -> bool
    ensures { result ≡ site_mark sites.now x }
{
    sites
        .get((x as usize).saturating_sub(1))
        .copied()
        .unwrap_or(false)
}
