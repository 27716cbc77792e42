// The slots of a template, in one pass over the atoms.
ghost use Rattle.std.specs.Prelude.{◌≡◌, ◌++◌, IfOk, OnOk};
ghost use Rattle.mk_query.specs.Compiled.{slots_in, table_slots};
ghost use Rattle.mk_query.specs.Passed.{HasPassed};
ghost use Rattle.mk_query.specs.SlotMarks.{groups_in, slot_by};

use crate::draft::GROUPS;
use crate::drawn::has_group;
use crate::linked_atoms::Linked;
use crate::notes::Notes;
use crate::site_orders::{SiteEnds, ordered_ends};
use mk_demands::natural;
use mk_model::Slot;
use mk_text::{Memory, Numbers};
use std::alloc::Global;

/// The sites and links of a table, by rising atom.
pub fn table_slots(alloc: Global, notes: &Notes<'_>) -> Result<Vec<Slot>, Memory>
    requires { HasPassed notes.now.table.now }
    ensures { IfOk result (λ slots. slots.items ≡ table_slots notes.now.table.now) }
{
    let lines = notes.table.atoms.as_slice();
    let noted = &notes.standing;
    let ends = ordered_ends(alloc, notes)?;
    let mut slots = Vec::new(alloc);
    for i in 0..lines.len() {
        let x = i as u32 + 1;
        let groups = noted.labels[i].groups;
        let slot = slot_by(alloc, x, noted.links[i], noted.sites[i], groups, ends[i])?;
        put_slot(&mut slots, slot)?;
    }
    Ok(slots)
}

// The slot of atom x by what is noted of it.
fn slot_by(
    alloc: Global,
    x: u32,
    linked: Linked,
    site: bool,
    groups: u32,
    pair: SiteEnds,
) -> Result<Option<Slot>, Memory>
    ensures { IfOk result (λ slot. slot ≡ slot_by x linked site groups pair) }
{
    match linked {
        Linked::One(link) => Ok(Some(Slot::Link {
            atom: x,
            most: natural(link.most),
            from: natural(link.from),
            to: natural(link.to),
        })),
        Linked::Nothing => {
            if !site {
                return Ok(None);
            }
            Ok(Some(Slot::Site {
                atom: x,
                groups: groups_in(alloc, groups)?,
                first: pair.first,
                second: pair.second,
            }))
        }
        Linked::More => Ok(None),
    }
}

// The groups of which the bits are set.
fn groups_in(alloc: Global, groups: u32) -> Result<Numbers, Memory>
    ensures { IfOk result (λ numbers. numbers ≡ groups_in groups) }
{
    let mut numbers = Vec::new(alloc);
    for i in 0..GROUPS {
        if !has_group(groups, i + 1) {
            continue;
        }
        numbers.push(i + 1)?;
    }
    Ok(Numbers::of(numbers))
}

fn put_slot(slots: &mut Vec<Slot>, slot: Option<Slot>) -> Result<(), Memory>
    ensures { OnOk result (slots.new.items ≡ slots.old.items ++ slots_in slot) }
{
    if let Some(found) = slot {
        slots.push(found)?;
    }
    Ok(())
}
