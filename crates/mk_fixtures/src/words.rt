// The words of a sketch: what it draws, one atom or one bond at a time.
ghost use Rattle.std.specs.Prelude.{◌≤◌, IfOk};

use mk_model::GraphBond;
use std::test::Fail;

/// The parts of a sketch. Its property lines stand behind their first brace.
#[derive(Clone, Copy)]
pub struct Parts<'a> {
    pub atoms: &'a str,
    pub bonds: &'a str,
    pub lines: Option<&'a str>,
}

/// Cuts a sketch into its parts.
pub fn parts_of(sketch: &str) -> Result<Parts<'_>, Fail> {
    let Some((atoms, rest)) = sketch.split_once('|') else {
        return Err(Fail::from("a sketch without its bar"));
    };
    match rest.split_once('{') {
        Some((bonds, lines)) => Ok(Parts {
            atoms,
            bonds,
            lines: Some(lines),
        }),
        None => Ok(Parts {
            atoms,
            bonds: rest,
            lines: None,
        }),
    }
}

/// An atom as it is drawn: its symbol, and the columns that a word in brackets behind it sets.
#[derive(Clone, Copy)]
pub struct DrawnAtom<'a> {
    pub symbol: &'a str,
    pub charge: u32,
    pub hydrogens: u32,
    pub valence: u32,
}

/// Reads an atom, as `C`, `N(c3)` or `C(c5)(v15)`.
pub fn drawn_atom(word: &str) -> Result<DrawnAtom<'_>, Fail> {
    let mut atom = DrawnAtom {
        symbol: word,
        charge: 0,
        hydrogens: 0,
        valence: 0,
    };
    let Some((symbol, columns)) = word.split_once('(') else {
        return Ok(atom);
    };
    atom.symbol = symbol;
    for column in columns.split('(') {
        let Some(text) = column.strip_suffix(')') else {
            return Err(Fail::from("a bracket that stays open"));
        };
        put_column(&mut atom, text)?;
    }
    Ok(atom)
}

// Sets the column that the text names, as `c3`.
fn put_column(atom: &mut DrawnAtom<'_>, text: &str) -> Result<(), Fail> {
    if let Some(number) = text.strip_prefix('c') {
        atom.charge = number_in(number)?;
    } else if let Some(number) = text.strip_prefix('h') {
        atom.hydrogens = number_in(number)?;
    } else if let Some(number) = text.strip_prefix('v') {
        atom.valence = number_in(number)?;
    } else {
        return Err(Fail::from("a column that no atom has"));
    }
    Ok(())
}

// What stands between the ends of a bond, and its type.
const SIGNS: [(char, u8); 4] = [('-', 1), ('=', 2), ('#', 3), (':', 4)];

/// Reads a bond, as `1-2` or `1=2/1`, whose last number is its topology. It has no marks.
pub fn drawn_bond(word: &str) -> Result<GraphBond, Fail> {
    let (ends, topology) = match word.split_once('/') {
        Some((ends, topology)) => (ends, topology.parse::<u8>()?),
        None => (word, 0),
    };
    for (sign, kind) in SIGNS {
        if let Some((first, second)) = ends.split_once(sign) {
            return Ok(GraphBond {
                first: number_in(first)?,
                second: number_in(second)?,
                kind,
                topology,
                ring: false,
                aromatic: false,
            });
        }
    }
    Err(Fail::from("a bond without its type"))
}

// A number of at most three digits.
fn number_in(text: &str) -> Result<u32, Fail>
    ensures { IfOk result (λ n. n ≤ 999) }
{
    let number = text.parse::<u32>()?;
    if number > 999 {
        return Err(Fail::from("a number of four digits"));
    }
    Ok(number)
}
