// Whether plain hydrogens are taken in order where an atom is put behind the first ones: those of the
// graph rise on each atom, and those of the molecule that are left free are above them.
ghost use Rattle.std.specs.Prelude.{◌≡◌, ◌<◌, ◌≤◌, ◌+◌, ◌-◌, ◌++◌, ◌∷◌, ◌↔◌, [], ℕ, All, Contains, IfNone, IfSome, IsTrue, length, slice_index};
ghost use Rattle.mk_model.specs.Hits.{image, IsPlainAt};
ghost use Rattle.mk_walk.specs.Hydrogens.{AreLowerTaken, HasNumbers, IsEndTaken, IsInOrder};

use crate::candidates::{end_at, is_among};
use crate::hydrogens::PlainHydrogen;
use mk_model::Mol;

/// Tells whether all that the plain hydrogens of the graph ask where atom a is put is met.
pub fn are_in_order(
    mol: &Mol,
    hydrogens: &[PlainHydrogen],
    first: &[u32],
    levels: &[u32],
    a: u32,
) -> bool
    requires numbers { All HasNumbers hydrogens.now }
    requires within { All (λ b. (1 ≤ b) × (b ≤ length mol.now.atoms)) first.now }
    requires least { 1 ≤ a }
    requires most { a ≤ length mol.now.atoms }
    requires sized { length levels.now ≡ length mol.now.atoms }
    requires stand { (j : ℕ) → j < length first.now → slice_index levels.now (slice_index first.now j - 1) ≡ j }
    ensures { IsTrue result ↔ All (IsInOrder mol.now first.now a) hydrogens.now }
{
    for one in hydrogens {
        if !is_in_order(mol, *one, first, levels, a) {
            return false;
        }
    }
    true
}

// Tells whether what this one asks is met.
fn is_in_order(mol: &Mol, one: PlainHydrogen, first: &[u32], levels: &[u32], a: u32) -> bool
    requires numbers { HasNumbers one }
    requires within { All (λ b. (1 ≤ b) × (b ≤ length mol.now.atoms)) first.now }
    requires least { 1 ≤ a }
    requires most { a ≤ length mol.now.atoms }
    requires sized { length levels.now ≡ length mol.now.atoms }
    requires stand { (j : ℕ) → j < length first.now → slice_index levels.now (slice_index first.now j - 1) ≡ j }
    ensures { IsTrue result ↔ IsInOrder mol.now first.now a one }
{
    if !is_above(one, first, a) {
        return false;
    }
    is_due_met(mol, one, first, levels, a)
}

// Tells whether the image of a plain hydrogen, where it is put, is above that of the one before it.
fn is_above(one: PlainHydrogen, first: &[u32], a: u32) -> bool
    requires { HasNumbers one }
    ensures { IsTrue result ↔ (one.atom ≡ length first.now + 1 → 1 ≤ one.before → image first.now one.before < a) }
{
    if one.atom as usize != first.len() + 1 || one.before == 0 {
        return true;
    }
    first[one.before as usize - 1] < a
}

// Tells whether the hydrogens below the image of this one are taken, where that is due.
fn is_due_met(mol: &Mol, one: PlainHydrogen, first: &[u32], levels: &[u32], a: u32) -> bool
    requires numbers { HasNumbers one }
    requires within { All (λ b. (1 ≤ b) × (b ≤ length mol.now.atoms)) first.now }
    requires least { 1 ≤ a }
    requires most { a ≤ length mol.now.atoms }
    requires sized { length levels.now ≡ length mol.now.atoms }
    requires stand { (j : ℕ) → j < length first.now → slice_index levels.now (slice_index first.now j - 1) ≡ j }
    ensures { IsTrue result ↔ (one.due ≡ length first.now + 1 → AreLowerTaken mol.now (first.now ++ a ∷ []) (image (first.now ++ a ∷ []) one.atom)) }
{
    if one.due as usize != first.len() + 1 {
        return true;
    }
    are_lower_taken(mol, first, levels, a, image_with(first, a, one.atom))
}

// The image of an atom, where a is put behind the first ones.
fn image_with(first: &[u32], a: u32, x: u32) -> u32
    requires least { 1 ≤ x }
    requires most { x ≤ length first.now + 1 }
    ensures { result ≡ image (first.now ++ a ∷ []) x }
{
    if x as usize > first.len() {
        return a;
    }
    first[x as usize - 1]
}

// Tells whether y is no plain hydrogen, or those below it on its atom are taken.
fn are_lower_taken(mol: &Mol, first: &[u32], levels: &[u32], a: u32, y: u32) -> bool
    requires lower_least { 1 ≤ y }
    requires lower_most { y ≤ length mol.now.atoms }
    requires sized { length levels.now ≡ length mol.now.atoms }
    requires stand { (j : ℕ) → j < length first.now → slice_index levels.now (slice_index first.now j - 1) ≡ j }
    ensures { IsTrue result ↔ AreLowerTaken mol.now (first.now ++ a ∷ []) y }
{
    let Some(m) = host_at(mol, y) else {
        return true;
    };
    for number in mol.bonds_at(m) {
        if !is_end_taken(mol, first, levels, a, m, y, *number) {
            return false;
        }
    }
    true
}

// Tells whether the other end of a bond of atom m is taken, or is no plain hydrogen below y.
fn is_end_taken(
    mol: &Mol,
    first: &[u32],
    levels: &[u32],
    a: u32,
    m: u32,
    y: u32,
    number: u32,
) -> bool
    requires least { 1 ≤ number }
    requires most { number ≤ length mol.now.bonds }
    requires sized { length levels.now ≡ length mol.now.atoms }
    requires stand { (j : ℕ) → j < length first.now → slice_index levels.now (slice_index first.now j - 1) ≡ j }
    ensures { IsTrue result ↔ IsEndTaken mol.now (first.now ++ a ∷ []) m y number }
{
    let z = end_at(mol, number, m);
    if z >= y || z == a {
        return true;
    }
    if is_among(first, levels, z) {
        return true;
    }
    !is_plain_at(mol, m, z)
}

// Tells whether z is a plain hydrogen on atom m.
fn is_plain_at(mol: &Mol, m: u32, z: u32) -> bool
    requires least { 1 ≤ z }
    requires most { z ≤ length mol.now.atoms }
    ensures { IsTrue result ↔ IsPlainAt mol.now m z }
{
    match host_at(mol, z) {
        Some(host) => host == m,
        None => false,
    }
}

// The atom on which y is a plain hydrogen, where it is one.
fn host_at(mol: &Mol, y: u32) -> Option<u32>
    requires least { 1 ≤ y }
    requires most { y ≤ length mol.now.atoms }
    ensures within { IfSome result (λ m. (1 ≤ m) × (m ≤ length mol.now.atoms)) }
    ensures some { IfSome result (λ m. IsPlainAt mol.now m y) }
    ensures none { IfNone result ((m : ℕ) → IsPlainAt mol.now m y → ⊥) }
{
    if mol.atom(y).element != 1 {
        return None;
    }
    let numbers = mol.bonds_at(y);
    if numbers.len() != 1 {
        return None;
    }
    let bond = mol.bond(numbers[0]);
    if bond.kind != 1 {
        return None;
    }
    Some(bond.edge().other_end(y))
}
