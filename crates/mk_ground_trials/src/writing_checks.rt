// Whether a table of the tests can be spelt. What is answered with false is left to no test.
ghost use Rattle.std.specs.Prelude.{◌≡◌, ◌≤◌, ◌<◌, IsTrue, All, nat_lt, nat_le};
ghost use Rattle.std.specs.List.{list_all};
ghost use Rattle.mk_tables.specs.Table.{IsKept};
ghost use Rattle.mk_text.specs.Lines.{EndsWith};
ghost use Rattle.mk_spelling.specs.TableSpelling.{FitsThree, AtomFits, BondFits, ListFits, PairFits, PairsFit, LinkFits, LinksFit, AtomListFits, LogicFits, PropertyFits, IsSymbol, SymbolsFit, SymbolsEnd, IsRangeText, RangeFits, CanBeSpelt};

use mk_props::{AtomList, LinkEntry, LogicLine, Pair, Property};
use mk_tables::{RawAtom, RawBond, RawList, RawTable};
use mk_text::Bytes;

fn fits(number: i32) -> bool
    ensures { IsTrue result → FitsThree number }
{
    -99 <= number && number <= 999
}

fn pair_fits(pair: &Pair) -> bool
    ensures { IsTrue result → PairFits pair.now }
{
    fits(pair.atom) && fits(pair.value)
}

fn pairs_fit(pairs: &[Pair], most: usize) -> bool
    ensures { IsTrue result → PairsFit most pairs.now }
{
    if pairs.is_empty() || pairs.len() > most {
        return false;
    }
    for pair in pairs {
        if !pair_fits(pair) {
            return false;
        }
    }
    true
}

fn link_fits(link: &LinkEntry) -> bool
    ensures { IsTrue result → LinkFits link.now }
{
    fits(link.atom) && fits(link.most) && fits(link.from) && fits(link.to)
}

fn links_fit(links: &[LinkEntry]) -> bool
    ensures { IsTrue result → LinksFit links.now }
{
    if links.is_empty() || links.len() > 4 {
        return false;
    }
    for link in links {
        if !link_fits(link) {
            return false;
        }
    }
    true
}

fn number_fits(number: &i32) -> bool
    ensures { IsTrue result → FitsThree number.now }
{
    -99 <= *number && *number <= 999
}

fn numbers_fit(numbers: &[i32]) -> bool
    ensures { IsTrue result → All FitsThree numbers.now }
{
    for number in numbers {
        if !number_fits(number) {
            return false;
        }
    }
    true
}

fn list_fits(list: &RawList) -> bool
    ensures { IsTrue result → ListFits list.now }
{
    let numbers = list.numbers.as_slice();
    if numbers.is_empty() || numbers.len() > 5 {
        return false;
    }
    fits(list.atom) && numbers_fit(numbers)
}

fn lists_fit(lists: &[RawList]) -> bool
    ensures { IsTrue result → All ListFits lists.now }
{
    for list in lists {
        if !list_fits(list) {
            return false;
        }
    }
    true
}

fn bond_fits(bond: &RawBond) -> bool
    ensures { IsTrue result → BondFits bond.now }
{
    fits(bond.first) && fits(bond.second) && fits(bond.kind) && fits(bond.topology)
}

fn bonds_fit(bonds: &[RawBond]) -> bool
    ensures { IsTrue result → All BondFits bonds.now }
{
    for bond in bonds {
        if !bond_fits(bond) {
            return false;
        }
    }
    true
}

// Bytes above the blank alone.
fn is_graphic(text: &[u8]) -> bool
    ensures { result ≡ list_all (λ c. nat_lt 32 c) text.now }
{
    text.iter().all(|byte| *byte > b' ')
}

// A symbol of such bytes.
fn is_writable_symbol(symbol: &[u8], width: usize) -> bool
    ensures fits { IsTrue result → IsSymbol width symbol.now }
    ensures no_cr { IsTrue result → ¬ (EndsWith 13 symbol.now) }
{
    symbol.len() <= width && is_graphic(symbol)
}

fn atom_fits(atom: &RawAtom) -> bool
    ensures fits { IsTrue result → AtomFits atom.now }
    ensures symbol { IsTrue result → IsSymbol 3 atom.now.symbol }
{
    fits(atom.charge)
        && fits(atom.hydrogens)
        && fits(atom.valence)
        && is_writable_symbol(atom.symbol.as_slice(), 3)
}

fn atoms_fit(atoms: &[RawAtom]) -> bool
    ensures fit { IsTrue result → All AtomFits atoms.now }
    ensures symbols { IsTrue result → All (λ atom. IsSymbol 3 atom.symbol) atoms.now }
{
    for atom in atoms {
        if !atom_fits(atom) {
            return false;
        }
    }
    true
}

fn symbols_fit(symbols: &[Bytes]) -> bool
    ensures fit { IsTrue result → All (IsSymbol 4) symbols.now }
    ensures no_cr { IsTrue result → All (λ symbol. ¬ (EndsWith 13 symbol)) symbols.now }
{
    for symbol in symbols {
        if !is_writable_symbol(symbol.as_slice(), 4) {
            return false;
        }
    }
    true
}

// Bytes from the blank on alone.
fn is_printed(text: &[u8]) -> bool
    ensures { result ≡ list_all (λ c. nat_le 32 c) text.now }
{
    text.iter().all(|byte| *byte >= b' ')
}

// A range text of such bytes, with none of them a blank at its end.
fn is_range(range: &[u8]) -> bool
    ensures { IsTrue result → IsRangeText range.now }
{
    is_printed(range) && !range.ends_with(b" ")
}

fn atom_list_fits(list: &AtomList) -> bool
    ensures fits { IsTrue result → AtomListFits list.now }
    ensures symbols { IsTrue result → All (IsSymbol 4) list.now.symbols }
    ensures no_cr { IsTrue result → All (λ symbol. ¬ (EndsWith 13 symbol)) list.now.symbols }
{
    let symbols = list.symbols.as_slice();
    if !fits(list.atom) || symbols.is_empty() || symbols.len() > 16 {
        return false;
    }
    symbols_fit(symbols)
}

fn logic_fits(logic: &LogicLine) -> bool
    ensures fits { IsTrue result → LogicFits logic.now }
    ensures range { IsTrue result → IsRangeText logic.now.range }
{
    if !fits(logic.group) || !fits(logic.then_group) || !fits(logic.rest) {
        return false;
    }
    is_range(logic.range.as_slice())
}

fn property_fits(property: &Property) -> bool
    ensures kept { IsTrue result → IsKept property.now }
    ensures fits { IsTrue result → PropertyFits property.now }
    ensures symbols { IsTrue result → SymbolsFit property.now }
    ensures symbols_end { IsTrue result → SymbolsEnd property.now }
    ensures range { IsTrue result → RangeFits property.now }
{
    match property {
        Property::Charge(pairs)
        | Property::Radical(pairs)
        | Property::Isotope(pairs)
        | Property::RingBonds(pairs)
        | Property::Substitution(pairs)
        | Property::Unsaturation(pairs)
        | Property::Label(pairs) => pairs_fit(pairs.as_slice(), 8),
        Property::Points(pairs) => pairs_fit(pairs.as_slice(), 2),
        Property::Link(links) => links_fit(links.as_slice()),
        Property::List(list) => atom_list_fits(list),
        Property::Order(order) => fits(order.atom) && pairs_fit(order.entries.as_slice(), 2),
        Property::Logic(logic) => logic_fits(logic),
        Property::Passed(_) | Property::End => false,
    }
}

fn properties_fit(properties: &[Property]) -> bool
    ensures kept { IsTrue result → All IsKept properties.now }
    ensures fit { IsTrue result → All PropertyFits properties.now }
    ensures symbols { IsTrue result → All SymbolsFit properties.now }
    ensures symbols_end { IsTrue result → All SymbolsEnd properties.now }
    ensures ranges { IsTrue result → All RangeFits properties.now }
{
    for property in properties {
        if !property_fits(property) {
            return false;
        }
    }
    true
}

pub fn can_be_spelt(table: &RawTable) -> bool
    ensures { IsTrue result → CanBeSpelt table.now }
{
    let atoms = table.atoms.as_slice();
    let bonds = table.bonds.as_slice();
    let lists = table.lists.as_slice();
    if atoms.len() > 999 || bonds.len() > 999 || lists.len() > 999 {
        return false;
    }
    atoms_fit(atoms)
        && bonds_fit(bonds)
        && lists_fit(lists)
        && properties_fit(table.props.as_slice())
}
