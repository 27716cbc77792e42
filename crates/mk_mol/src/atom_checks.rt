// What is demanded of atoms.
ghost use Rattle.std.specs.Prelude.{◌≤◌, ◌↔◌, IsTrue, length};
ghost use Rattle.mk_text.specs.Items.{FindsLeast, OfItem};
ghost use Rattle.mk_mol.specs.Checks.{IsKnownAtom, IsElementSymbol};

use mk_demands::is_within;
use mk_elements::number_of;
use mk_tables::RawAtom;

/// The first atom that has an unknown symbol, charge or valence.
pub fn first_unknown_atom(atoms: &[RawAtom]) -> Option<u32>
    requires { length atoms.now ≤ 999 }
    ensures { FindsLeast (OfItem IsKnownAtom atoms.now) result }
{
    for (i, atom) in atoms.iter().enumerate() {
        if !is_known(atom) {
            return Some(i as u32 + 1);
        }
    }
    None
}

fn is_known(atom: &RawAtom) -> bool
    ensures { IsTrue result ↔ IsKnownAtom atom.now }
{
    is_named(atom.symbol.as_slice())
        && is_within(0, 7, atom.charge)
        && is_within(0, 15, atom.valence)
}

fn is_named(symbol: &[u8]) -> bool
    ensures { IsTrue result ↔ IsElementSymbol symbol.now }
{
    number_of(symbol).is_some()
}
