// The atoms of a graph by their numbers, and the elements that their kinds take.
ghost use Rattle.std.specs.Prelude.{◌≡◌, ◌≤◌, ◌-◌, Some, length, slice_get};
ghost use Rattle.mk_model.specs.Tests.{accepts};
ghost use Rattle.mk_model.specs.Fitting.{is_hydrogen_kind};

use mk_model::{GraphAtom, Kind};

/// The kind takes the element.
pub fn accepts_element(kind: &Kind, element: u8) -> bool
    ensures { result ≡ accepts kind.now element }
{
    match kind {
        Kind::Element(z) => *z == element,
        Kind::OneOf(list) => list.as_slice().contains(&element),
        Kind::NoneOf(list) => element != 1 && !list.as_slice().contains(&element),
        Kind::NotHydrogen => element != 1,
        Kind::Hetero => element != 1 && element != 6,
        Kind::Anything => true,
    }
}

/// The kind is hydrogen and nothing else.
pub fn is_drawn_as_hydrogen(kind: &Kind) -> bool
    ensures { result ≡ is_hydrogen_kind kind.now }
{
    match kind {
        Kind::Element(z) => *z == 1,
        _ => false,
    }
}

/// The atom of this number.
pub fn atom_numbered(atoms: &[GraphAtom], number: u32) -> &GraphAtom
    requires least { 1 ≤ number }
    requires most { number ≤ length atoms.now }
    ensures { slice_get atoms.now (number - 1) ≡ Some result.now }
{
    &atoms[number as usize - 1]
}
