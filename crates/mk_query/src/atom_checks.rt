// What is demanded of a query's atoms.
ghost use Rattle.std.specs.Prelude.{◌≡◌, ◌≤◌, ◌↔◌, ◌⊎◌, IsTrue, length};
ghost use Rattle.mk_text.specs.Items.{FindsLeast, OfItem};
ghost use Rattle.mk_query.specs.Checks.{IsElementName, IsQueryAtom, IsQueryWord};

use mk_demands::is_within;
use mk_elements::number_of;
use mk_tables::RawAtom;

/// The first atom that has an unknown symbol, charge or number of hydrogens.
pub fn first_unknown_atom(atoms: &[RawAtom]) -> Option<u32>
    requires { length atoms.now ≤ 999 }
    ensures { FindsLeast (OfItem IsQueryAtom atoms.now) result }
{
    for (i, atom) in atoms.iter().enumerate() {
        if !is_query_atom(atom) {
            return Some(i as u32 + 1);
        }
    }
    None
}

fn is_query_atom(atom: &RawAtom) -> bool
    ensures { IsTrue result ↔ IsQueryAtom atom.now }
{
    is_symbol(atom.symbol.as_slice())
        && is_within(0, 7, atom.charge)
        && is_within(0, 5, atom.hydrogens)
}

fn is_symbol(symbol: &[u8]) -> bool
    ensures { IsTrue result ↔ (IsElementName symbol.now ⊎ IsQueryWord symbol.now) }
{
    is_element_name(symbol) || is_query_word(symbol)
}

/// Whether the bytes name an element.
pub fn is_element_name(symbol: &[u8]) -> bool
    ensures { IsTrue result ↔ IsElementName symbol.now }
{
    number_of(symbol).is_some()
}

fn is_query_word(symbol: &[u8]) -> bool
    ensures { IsTrue result ↔ IsQueryWord symbol.now }
{
    is_word(symbol, b"L")
        || is_word(symbol, b"A")
        || is_word(symbol, b"Q")
        || is_word(symbol, b"*")
        || is_word(symbol, b"R#")
}

pub fn is_word(symbol: &[u8], word: &[u8]) -> bool
    ensures { IsTrue result ↔ symbol.now ≡ word.now }
{
    symbol == word
}
