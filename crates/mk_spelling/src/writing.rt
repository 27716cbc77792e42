// Tables, written.
ghost use Rattle.std.specs.Prelude.{◌≡◌, ◌++◌, All, OnOk, OnErr};
ghost use Rattle.std.specs.List.{flat_map};
ghost use Rattle.mk_tables.specs.Table.{IsKept};
ghost use Rattle.mk_text.specs.Lines.{ended};
ghost use Rattle.mk_spelling.specs.TableSpelling.{atom_line, bond_line, numbers_line, property_line, table_spelling, AtomFits, BondFits, ListFits, PropertyFits, CanBeSpelt};

use crate::writing_lines::{put_atom, put_bond, put_counts, put_list};
use crate::writing_properties::put_property;
use mk_props::Property;
use mk_tables::{RawAtom, RawBond, RawList, RawTable};
use mk_text::Memory;
use std::alloc::Global;

fn put_atoms(alloc: Global, out: &mut Vec<u8>, atoms: &[RawAtom]) -> Result<(), Memory>
    requires { All AtomFits atoms.now }
    ensures { OnOk result (out.new.items ≡ out.old.items ++ flat_map (λ atom. ended (atom_line atom)) atoms.now) }
{
    for atom in atoms {
        put_atom(alloc, out, atom)?;
    }
    Ok(())
}

fn put_bonds(alloc: Global, out: &mut Vec<u8>, bonds: &[RawBond]) -> Result<(), Memory>
    requires { All BondFits bonds.now }
    ensures { OnOk result (out.new.items ≡ out.old.items ++ flat_map (λ bond. ended (bond_line bond)) bonds.now) }
{
    for bond in bonds {
        put_bond(alloc, out, bond)?;
    }
    Ok(())
}

fn put_lists(alloc: Global, out: &mut Vec<u8>, lists: &[RawList]) -> Result<(), Memory>
    requires { All ListFits lists.now }
    ensures { OnOk result (out.new.items ≡ out.old.items ++ flat_map (λ list. ended (numbers_line list)) lists.now) }
{
    for list in lists {
        put_list(alloc, out, list)?;
    }
    Ok(())
}

fn put_properties(alloc: Global, out: &mut Vec<u8>, properties: &[Property]) -> Result<(), Memory>
    requires fit { All PropertyFits properties.now }
    requires kept { All IsKept properties.now }
    ensures { OnOk result (out.new.items ≡ out.old.items ++ flat_map (λ property. ended (property_line property)) properties.now) }
{
    for property in properties {
        put_property(alloc, out, property)?;
    }
    Ok(())
}

// All lines in order.
fn put_table(alloc: Global, out: &mut Vec<u8>, table: &RawTable) -> Result<(), Memory>
    requires { CanBeSpelt table.now }
    ensures { OnOk result (out.new.items ≡ out.old.items ++ table_spelling table.now) }
{
    put_counts(alloc, out, table)?;
    put_atoms(alloc, out, table.atoms.as_slice())?;
    put_bonds(alloc, out, table.bonds.as_slice())?;
    put_lists(alloc, out, table.lists.as_slice())?;
    put_properties(alloc, out, table.props.as_slice())?;
    out.extend_from_slice(b"M  END\n")
}

/// Appends the text of a table. Where there is no memory for it, nothing is appended.
pub fn write_table(alloc: Global, out: &mut Vec<u8>, table: &RawTable) -> Result<(), Memory>
    requires { CanBeSpelt table.now }
    ensures ok { OnOk result (out.new.items ≡ out.old.items ++ table_spelling table.now) }
    ensures err { OnErr result (out.new.items ≡ out.old.items) }
{
    let mut text = Vec::new(alloc);
    put_table(alloc, &mut text, table)?;
    out.extend_from_slice(&text)
}
