// The atoms of the molecule on which the next atom of the graph may lie, one after another.
ghost use Rattle.std.specs.Prelude.{◌≡◌, ◌<◌, ◌≤◌, ◌+◌, ◌-◌, ◌↔◌, ℕ, Contains, Some, IfNone, IfSome, IsTrue, length, slice_get, slice_index};
ghost use Rattle.std.specs.Option.{ForSome};
ghost use Rattle.mk_model.specs.declared.molecule.MolBond.{MolBond as Bond};
ghost use Rattle.mk_model.specs.Edges.{numbers_at};
ghost use Rattle.mk_model.specs.Molecules.{edges};
ghost use Rattle.mk_walk.specs.Candidates.{AreBonded, IsCandidate, IsLeastEnd, end_numbered, lesser_end};

use mk_model::Mol;

/// The least candidate above a number.
pub fn next_atom(mol: &Mol, anchor: Option<u32>, above: u32) -> Option<u32>
    requires { ForSome anchor (λ a. (1 ≤ a) × (a ≤ length mol.now.atoms)) }
    ensures found { IfSome result (λ a. (above < a) × (a ≤ length mol.now.atoms)) }
    ensures candidate { IfSome result (IsCandidate mol.now anchor) }
    ensures between { IfSome result (λ a. (b : ℕ) → above < b → b < a → IsCandidate mol.now anchor b → b ≤ length mol.now.atoms → ⊥) }
    ensures none { IfNone result ((b : ℕ) → above < b → IsCandidate mol.now anchor b → b ≤ length mol.now.atoms → ⊥) }
{
    match anchor {
        Some(atom) => least_end_above(mol, atom, above),
        None => {
            if above < mol.atom_count() {
                Some(above + 1)
            } else {
                None
            }
        }
    }
}

// The least atom above a number that is bonded to this one.
fn least_end_above(mol: &Mol, atom: u32, above: u32) -> Option<u32>
    requires least { 1 ≤ atom }
    requires most { atom ≤ length mol.now.atoms }
    ensures within { IfSome result (λ a. a ≤ length mol.now.atoms) }
    ensures bonded { IfSome result (AreBonded mol.now atom) }
    ensures ends { IsLeastEnd mol.now.bonds atom (numbers_at (edges mol.now.bonds) atom) above result }
{
    let mut least = None;
    for number in mol.bonds_at(atom) {
        least = lesser_end(least, above, end_at(mol, *number, atom));
    }
    least
}

// An end takes the place of the least one so far where it is above the number and lower.
fn lesser_end(least: Option<u32>, above: u32, end: u32) -> Option<u32>
    ensures { result ≡ lesser_end least above end }
{
    if end <= above {
        return least;
    }
    match least {
        Some(a) => Some(a.min(end)),
        None => Some(end),
    }
}

/// The other end of a bond.
pub fn end_at(mol: &Mol, number: u32, atom: u32) -> u32
    requires least { 1 ≤ number }
    requires most { number ≤ length mol.now.bonds }
    ensures end { result ≡ end_numbered mol.now.bonds number atom }
    ensures some { 1 ≤ result }
    ensures within { result ≤ length mol.now.atoms }
{
    let bond = mol.bond(number);
    if bond.first == atom {
        return bond.second;
    }
    bond.first
}

/// Tells whether an atom is among the first images, whose levels say where each of them stands.
pub fn is_among(first: &[u32], levels: &[u32], a: u32) -> bool
    requires sized { a ≤ length levels.now }
    requires least { 1 ≤ a }
    requires stand { (j : ℕ) → j < length first.now → slice_index levels.now (slice_index first.now j - 1) ≡ j }
    ensures { IsTrue result ↔ Contains first.now a }
{
    let level = levels[a as usize - 1] as usize;
    if level >= first.len() {
        return false;
    }
    first[level] == a
}
