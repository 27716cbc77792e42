// The checks in their order.
ghost use Rattle.std.specs.Prelude.{◌≤◌, ◌<◌, ◌^◌, ℕ, All, Bool, List, IfOk, length};
ghost use Rattle.mk_rgfile.specs.declared.raw_query.RawGroup.{RawGroup};
ghost use Rattle.mk_query.specs.Checks.{IsQueryBond};
ghost use Rattle.mk_query.specs.FirstFault.{FindsBelow, FindsFirst, PassesBelow};
ghost use Rattle.mk_query.specs.Marks.{AreServed, HasKnownLabels};

use crate::atom_checks::first_unknown_atom;
use crate::bond_checks::first_unknown_bond;
use crate::links::first_unknown_link;
use crate::lists::first_unlisted_atom;
use crate::logic_lines::first_unknown_logic;
use crate::notes::Notes;
use crate::orders::first_disordered_site;
use crate::points::first_misplaced_point;
use crate::property_checks::first_unknown_property;
use crate::sites::{first_misplaced_site, first_unlabelled_atom};
use mk_tables::RawTable;
use mk_text::Memory;
use std::alloc::Global;

/// A check that fails, by its number, and the least atom, bond or property at which it does.
#[derive(Clone, Copy)]
pub struct Fault {
    pub check: u8,
    pub item: u32,
}

/// The first of the checks Q1 to Q10 that a table fails, or None where it passes them. `served`
/// tells which numbers of groups have members.
pub fn fault_by(
    alloc: Global,
    served: &[bool],
    is_root: bool,
    notes: &Notes<'_>,
) -> Result<Option<Fault>, Memory>
    requires few_bonds { length notes.now.table.now.bonds ≤ 999 }
    requires few_properties { length notes.now.table.now.props < 2 ^ 32 }
    ensures { IfOk result (λ found. (groups : List RawGroup) → AreServed groups served.now → FindsFirst groups is_root notes.now.table.now found) }
{
    if let Some(fault) = fault_of_lines(alloc, notes.table)? {
        return Ok(Some(fault));
    }
    if let Some(fault) = fault_of_sites(alloc, served, notes)? {
        return Ok(Some(fault));
    }
    fault_of_slots(alloc, is_root, notes)
}

// The first of the checks of lines alone, Q1 to Q3.
fn fault_of_lines(alloc: Global, table: &RawTable) -> Result<Option<Fault>, Memory>
    requires few_atoms { length table.now.atoms ≤ 999 }
    requires few_bonds { length table.now.bonds ≤ 999 }
    requires few_properties { length table.now.props < 2 ^ 32 }
    ensures { IfOk result (λ found. (groups : List RawGroup) (is_root : Bool) → FindsBelow groups is_root table.now 4 found) }
{
    let atoms = table.atoms.as_slice();
    let count = atoms.len() as u32;
    let props = table.props.as_slice();
    if let Some(item) = first_unknown_atom(atoms) {
        return Ok(Some(Fault { check: 1, item }));
    }
    if let Some(item) = first_unknown_bond(alloc, count, table.bonds.as_slice())? {
        return Ok(Some(Fault { check: 2, item }));
    }
    if let Some(item) = first_unknown_property(count, props) {
        return Ok(Some(Fault { check: 3, item }));
    }
    Ok(None)
}

// The first of the checks of lists, labels and sites, Q4 to Q7.
fn fault_of_sites(
    alloc: Global,
    served: &[bool],
    notes: &Notes<'_>,
) -> Result<Option<Fault>, Memory>
    requires few_properties { length notes.now.table.now.props < 2 ^ 32 }
    requires labels { All HasKnownLabels notes.now.table.now.props }
    ensures { IfOk result (λ found. (groups : List RawGroup) (is_root : Bool) → AreServed groups served.now
        → PassesBelow groups is_root notes.now.table.now 4 → FindsBelow groups is_root notes.now.table.now 8 found) }
{
    if let Some(item) = first_unlisted_atom(alloc, notes.table)? {
        return Ok(Some(Fault { check: 4, item }));
    }
    if let Some(item) = first_unlabelled_atom(served, notes) {
        return Ok(Some(Fault { check: 5, item }));
    }
    if let Some(item) = first_misplaced_site(notes) {
        return Ok(Some(Fault { check: 6, item }));
    }
    if let Some(item) = first_disordered_site(alloc, notes)? {
        return Ok(Some(Fault { check: 7, item }));
    }
    Ok(None)
}

// The first of the checks of points, links and logic, Q8 to Q10.
fn fault_of_slots(alloc: Global, is_root: bool, notes: &Notes<'_>) -> Result<Option<Fault>, Memory>
    requires few_bonds { length notes.now.table.now.bonds ≤ 999 }
    requires few_properties { length notes.now.table.now.props < 2 ^ 32 }
    requires bonds { (item : ℕ) → IsQueryBond (length notes.now.table.now.atoms) notes.now.table.now.bonds item }
    ensures { IfOk result (λ found. (groups : List RawGroup) → PassesBelow groups is_root notes.now.table.now 8 → FindsFirst groups is_root notes.now.table.now found) }
{
    if let Some(item) = first_misplaced_point(is_root, notes) {
        return Ok(Some(Fault { check: 8, item }));
    }
    if let Some(item) = first_unknown_link(alloc, notes)? {
        return Ok(Some(Fault { check: 9, item }));
    }
    if let Some(item) = first_unknown_logic(alloc, is_root, notes.table.props.as_slice())? {
        return Ok(Some(Fault { check: 10, item }));
    }
    Ok(None)
}
