// A table with its filled molecule. The shorthand is that of docs/TESTING.md, "Tables of tests".
use mk_fixtures::{mol_of_sketch, table_of_sketch};
use mk_model::Mol;
use mk_mol::{PrepareFault, prepare};
use mk_tables::{TableFault, read_table};
use mk_text::lines;
use std::alloc::Global;
use std::test::Fail;

// A doublet, an isotope, and hydrogens that are added by rising atom.
const DRAWN: &str = "O C(c4) D | 2-1 3-2 {M  ISO  1   2  13}";

const FILLED: &str = "O C H H H | 2-1 3-2 1-4 2-5";

#[test]
fn fills(rt: HostRuntime) -> Result<(), Fail> {
    assert!(rt; is_filled(rt.alloc())?);
    Ok(())
}

// Whether the bonds stand in this order, and three atoms are those that were written, which no run
// shows.
fn is_filled(alloc: Global) -> Result<bool, Fail> {
    let mol = prepared(alloc, &table_of_sketch(alloc, DRAWN)?)?;
    let want = mol_of_sketch(alloc, FILLED)?;
    Ok(mol.written() == 3 && mol.bonds() == want.bonds() && has_atoms(&mol, &want))
}

// The elements are those of the other molecule, and the second atom alone has a doublet.
fn has_atoms(mol: &Mol, want: &Mol) -> bool {
    for (i, (atom, other)) in mol.atoms().iter().zip(want.atoms()).enumerate() {
        let radical = if i == 1 { 2 } else { 0 };
        if atom.element != other.element || (atom.charge, atom.radical) != (0, radical) {
            return false;
        }
    }
    mol.atom_count() == want.atom_count()
}

// The molecule of a table. Check 0 stands for a text that is no table.
fn prepared(alloc: Global, text: &[u8]) -> Result<Mol, PrepareFault> {
    let spans = lines(alloc, text)?;
    match read_table(alloc, text, &spans, 0) {
        Ok((table, _)) if table.props.as_slice().len() < 100 => prepare(alloc, &table),
        Err(TableFault::Memory) => Err(PrepareFault::Memory),
        _ => Err(PrepareFault::Check { check: 0, item: 0 }),
    }
}
