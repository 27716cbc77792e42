// The free ends of what a template becomes, where slots may be left open.
ghost use Rattle.std.specs.Prelude.{◌≡◌, ◌<◌, ◌+◌, ◌==◌, ℕ, All, IfOk, OnOk, length, slice_index, if◌then◌else◌};
ghost use Rattle.mk_pieces.specs.Rooms.{IsWithin};
ghost use Rattle.mk_expand.specs.OpenGraphs.{is_loose};
ghost use Rattle.mk_expand.specs.Opening.{AreLoose};

use mk_layout::bonds::is_nothing;
use mk_layout::places::Layout;
use mk_model::{Memory, QueryBond};
use std::alloc::Global;

/// For each place how many bonds end there and lead to nothing.
pub fn loose_of(alloc: Global, layout: &Layout) -> Result<Vec<u32>, Memory>
    requires { All (IsWithin layout.now.template) layout.now.template.bonds }
    ensures { IfOk result (λ loose. AreLoose layout.now.template layout.now.pieces loose.items) }
{
    let mut loose = vec![in alloc; 0u32; layout.room() as usize]?;
    for bond in layout.template().bonds() {
        add_loose(&mut loose, layout, *bond)?;
    }
    Ok(loose)
}

// The end that a bond leaves where nothing stands at the other.
fn add_loose(loose: &mut Vec<u32>, layout: &Layout, bond: QueryBond) -> Result<(), Memory>
    requires { IsWithin layout.now.template bond }
    ensures size { length loose.new.items ≡ length loose.old.items }
    ensures each { OnOk result ((p : ℕ) → p < length loose.old.items → slice_index loose.new.items p ≡ slice_index loose.old.items p + (if is_loose layout.now.template layout.now.pieces (p + 1) bond then 1 else 0)) }
{
    let pieces = layout.pieces();
    let first = is_nothing(pieces, layout.taker(bond.first));
    let second = is_nothing(pieces, layout.taker(bond.second));
    if first == second {
        return Ok(());
    }
    if second {
        return add_one(loose, layout.ending(bond.first, bond.second));
    }
    add_one(loose, layout.ending(bond.second, bond.first))
}

// One more at a place; nothing where there is no such place. More than a number holds never come:
// a template has fewer bonds.
fn add_one(loose: &mut Vec<u32>, place: u32) -> Result<(), Memory>
    ensures size { length loose.new.items ≡ length loose.old.items }
    ensures each { OnOk result ((p : ℕ) → p < length loose.old.items → slice_index loose.new.items p ≡ slice_index loose.old.items p + (if place == p + 1 then 1 else 0)) }
{
    if place == 0 || place as usize > loose.len() {
        return Ok(());
    }
    let at = place as usize - 1;
    let Some(more) = loose[at].checked_add(1) else {
        return Err(Memory);
    };
    loose[at] = more;
    Ok(())
}
