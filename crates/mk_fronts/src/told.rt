// What was told of numbers alone at slots of the root, in one molecule.
ghost use Rattle.std.specs.Prelude.{◌≡◌, false, All, IfSome};
ghost use Rattle.mk_model.specs.Molecules.{Molecule};
ghost use Rattle.mk_model.specs.Queries.{QueryView};
ghost use Rattle.mk_open_codes.specs.Alone.{HoldsNoneAlone};
ghost use Rattle.mk_fronts.specs.Told.{IsSo};

use mk_model::Memory;

// How many answers are kept at most. No root has so many numbers at its slots.
const MOST_TOLD: usize = 4_194_304;

/// Whether the molecule may hold a number at a slot of the root, where all other slots are left open.
#[derive(Clone, Copy)]
pub struct Told {
    pub slot: usize,
    pub number: u32,
    pub may: bool,
}

/// What was told of a number at a slot. The index says for each number at which place it stands.
pub fn told_at(told: &[Told], index: &[u32], at: usize, slot: usize, number: u32) -> Option<bool>
    ensures { (query : QueryView) (mol : Molecule) → All (IsSo query mol) told.now
        → IfSome result (λ may. may ≡ false → HoldsNoneAlone query mol slot number) }
{
    let Some(place) = index.get(at) else {
        return None;
    };
    let Some(one) = told.get(*place as usize) else {
        return None;
    };
    if one.slot != slot || one.number != number {
        return None;
    }
    Some(one.may)
}

/// Puts what is told behind the others, and its place into the index.
pub fn put(told: &mut Vec<Told>, index: &mut Vec<u32>, at: usize, one: Told) -> Result<(), Memory>
    ensures { (query : QueryView) (mol : Molecule) → All (IsSo query mol) told.old.items → IsSo query mol one → All (IsSo query mol) told.new.items }
{
    let place = told.len();
    if place >= MOST_TOLD || at >= index.len() {
        return Ok(());
    }
    index[at] = place as u32;
    told.push(one)?;
    Ok(())
}

/// Forgets all that was told. What the index says of it is found at no place then, or at that of
/// another number.
pub fn forget(told: &mut Vec<Told>)
    ensures { (query : QueryView) (mol : Molecule) → All (IsSo query mol) told.new.items }
{
    told.clear();
}
