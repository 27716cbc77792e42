// The texts of sketches, as files hold them. The shorthand is that of docs/TESTING.md, "Tables of
// tests".
use crate::words::{DrawnAtom, drawn_atom, drawn_bond, parts_of};
use mk_model::GraphBond;
use mk_text::put_number;
use std::alloc::Global;
use std::test::Fail;

/// The molfile of a sketch: three empty header lines, and its table.
pub fn molfile_of_sketch(alloc: Global, sketch: &str) -> Result<Vec<u8>, Fail> {
    let mut out = Vec::from_slice(alloc, b"\n\n\n")?;
    put_table(alloc, &mut out, sketch)?;
    Ok(out)
}

/// The table of a sketch, without header lines.
pub fn table_of_sketch(alloc: Global, sketch: &str) -> Result<Vec<u8>, Fail> {
    let mut out = Vec::new(alloc);
    put_table(alloc, &mut out, sketch)?;
    Ok(out)
}

/// The RGfile of a sketch and of groups, each a number and the sketches of its members.
pub fn rgfile_of_sketches(
    alloc: Global,
    root: &str,
    groups: &[(u64, &[&str])],
) -> Result<Vec<u8>, Fail> {
    let mut out = Vec::from_slice(alloc, b"$MDL\n$MOL\n$HDR\n\n\n\n$END HDR\n")?;
    put_block(alloc, &mut out, root)?;
    for (number, members) in groups {
        out.extend_from_slice(b"$RGP\n")?;
        put_number(alloc, &mut out, *number)?;
        out.push(b'\n')?;
        for member in *members {
            put_block(alloc, &mut out, member)?;
        }
        out.extend_from_slice(b"$END RGP\n")?;
    }
    out.extend_from_slice(b"$END MOL\n")?;
    Ok(out)
}

/// A table between its keywords, as RGfiles hold it.
pub fn put_block(alloc: Global, out: &mut Vec<u8>, sketch: &str) -> Result<(), Fail> {
    out.extend_from_slice(b"$CTAB\n")?;
    put_table(alloc, out, sketch)?;
    out.extend_from_slice(b"$END CTAB\n")?;
    Ok(())
}

// Counts line, atom lines, bond lines, property lines, `M  END`.
fn put_table(alloc: Global, out: &mut Vec<u8>, sketch: &str) -> Result<(), Fail> {
    let parts = parts_of(sketch)?;
    put_three(alloc, out, parts.atoms.split_whitespace().count())?;
    put_three(alloc, out, parts.bonds.split_whitespace().count())?;
    out.extend_from_slice(b"  0  0  0  0            999 V2000\n")?;
    for word in parts.atoms.split_whitespace() {
        put_atom(alloc, out, &drawn_atom(word)?)?;
    }
    for word in parts.bonds.split_whitespace() {
        put_bond(alloc, out, drawn_bond(word)?)?;
    }
    if let Some(lines) = parts.lines {
        put_lines(out, lines)?;
    }
    out.extend_from_slice(b"M  END\n")?;
    Ok(())
}

fn put_atom(alloc: Global, out: &mut Vec<u8>, atom: &DrawnAtom<'_>) -> Result<(), Fail> {
    out.extend_from_slice(b"    0.0000    0.0000    0.0000 ")?;
    put_symbol(out, atom.symbol.as_bytes())?;
    out.extend_from_slice(b" 0")?;
    put_three(alloc, out, atom.charge as usize)?;
    out.extend_from_slice(b"  0")?;
    put_three(alloc, out, atom.hydrogens as usize)?;
    out.extend_from_slice(b"  0")?;
    put_three(alloc, out, atom.valence as usize)?;
    out.push(b'\n')?;
    Ok(())
}

fn put_bond(alloc: Global, out: &mut Vec<u8>, bond: GraphBond) -> Result<(), Fail> {
    put_three(alloc, out, bond.first as usize)?;
    put_three(alloc, out, bond.second as usize)?;
    put_three(alloc, out, usize::from(bond.kind))?;
    out.extend_from_slice(b"  0  0")?;
    put_three(alloc, out, usize::from(bond.topology))?;
    out.push(b'\n')?;
    Ok(())
}

// The lines that stand in braces, the first of which is behind us.
fn put_lines(out: &mut Vec<u8>, lines: &str) -> Result<(), Fail> {
    for line in lines.split('{') {
        let Some(text) = line.strip_suffix('}') else {
            return Err(Fail::from("a brace that stays open"));
        };
        out.extend_from_slice(text.as_bytes())?;
        out.push(b'\n')?;
    }
    Ok(())
}

// A symbol at the left of three columns.
fn put_symbol(out: &mut Vec<u8>, symbol: &[u8]) -> Result<(), Fail> {
    if symbol.len() > 3 {
        return Err(Fail::from("a symbol of four letters"));
    }
    out.extend_from_slice(symbol)?;
    for _ in symbol.len()..3 {
        out.push(b' ')?;
    }
    Ok(())
}

// A number at the right of three columns.
fn put_three(alloc: Global, out: &mut Vec<u8>, n: usize) -> Result<(), Fail> {
    if n > 999 {
        return Err(Fail::from("a number of four digits"));
    }
    for least in [10, 100] {
        if n < least {
            out.push(b' ')?;
        }
    }
    put_number(alloc, out, n as u64)?;
    Ok(())
}
