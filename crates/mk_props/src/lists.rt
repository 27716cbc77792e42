// Atom lists.
ghost use Rattle.std.specs.Prelude.{◌≡◌};
ghost use Rattle.mk_props.specs.Reading.{Gives, flag_of, symbols_of, list_of};

use crate::columns::{cell, is_blank_at};
use crate::entries::{count_at, number_at};
use crate::fault::LineFault;
use crate::property::{AtomList, Symbols};
use mk_text::{Bytes, trimmed_column};
use std::alloc::Global;

// M  ALS aaan16 t ssss..   columns 8-10 the atom, 11-13 the count, 15 T or F, from 17 on four
//                          columns for each symbol
#[tactic(auto, unfolding(crate::specs::Reading::list_of))]
pub fn list(alloc: Global, line: &[u8]) -> Result<AtomList, LineFault>
    ensures { Gives result (list_of line.now) }
{
    let Some(atom) = number_at(line, 7) else {
        return Err(LineFault::Bad);
    };
    let Some(not) = flag(line) else {
        return Err(LineFault::Bad);
    };
    let symbols = symbols(alloc, line)?;
    Ok(AtomList { atom, not, symbols })
}

// Columns 14-16: T where the atom has none of the symbols, F where it has one of them, between
// blanks.
#[tactic(auto, unfolding(crate::specs::Reading::flag_of))]
fn flag(line: &[u8]) -> Option<bool>
    ensures { result ≡ flag_of line.now }
{
    if !is_blank_at(line, 14) || !is_blank_at(line, 16) {
        return None;
    }
    match cell(line, 15) {
        b'T' => Some(true),
        b'F' => Some(false),
        _ => None,
    }
}

#[tactic(auto, unfolding(crate::specs::Reading::symbols_of))]
fn symbols(alloc: Global, line: &[u8]) -> Result<Symbols, LineFault>
    ensures { Gives result (symbols_of line.now) }
{
    let Some(count) = count_at(line, 11, 16) else {
        return Err(LineFault::Bad);
    };
    let mut symbols = Symbols::new(alloc);
    for i in 0..count {
        let symbol = trimmed_column(line, 17 + 4 * i, 20 + 4 * i);
        symbols.push(Bytes::of(Vec::from_slice(alloc, symbol)?))?;
    }
    Ok(symbols)
}
