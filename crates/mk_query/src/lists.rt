// What is demanded of the lists of elements.
ghost use Rattle.std.specs.Prelude.{◌≡◌, ◌≤◌, ◌==◌, ◌&&◌, ◌∷◌, ◌↔◌, [], pos, true, All, List, IfOk, IsTrue, length, map, if◌then◌else◌};
ghost use Rattle.mk_text.specs.Items.{FindsLeast};
ghost use Rattle.mk_demands.specs.Numbers.{IsAtom, IsWithin, natural};
ghost use Rattle.mk_query.specs.Checks.{IsElementName};
ghost use Rattle.mk_query.specs.Drawn.{by_numbers, ElementList, lists_at, symbol_lists};
ghost use Rattle.mk_query.specs.Marks.{AreMarks, AreMore, IsListMark, lists_for};
ghost use Rattle.mk_query.specs.SiteChecks.{HasKnownMembers, HasLists, IsListed};

use crate::atom_checks::is_element_name;
use crate::drawn::is_symbol;
use mk_demands::{is_atom, is_within, natural};
use mk_props::{AtomList, Property};
use mk_tables::{RawAtom, RawList, RawTable};
use mk_text::{Bytes, Memory};
use std::alloc::Global;

/// Whether a list of elements names the atom, and whether all that do have known members.
#[derive(Clone, Copy)]
pub struct ListMark {
    pub listed: bool,
    pub known: bool,
}

/// 0 where an atom-list line names no atom. Else the first atom that a list with an unknown member
/// names, that is an `L` without a list, or that a list names though it is no `L`.
pub fn first_unlisted_atom(alloc: Global, table: &RawTable) -> Result<Option<u32>, Memory>
    requires { length table.now.atoms ≤ 999 }
    ensures { IfOk result (FindsLeast (HasLists table.now)) }
{
    let atoms = table.atoms.as_slice();
    if !name_atoms(atoms.len() as u32, table.lists.as_slice()) {
        return Ok(Some(0));
    }
    let marks = list_marks(alloc, table)?;
    for (i, atom) in atoms.iter().enumerate() {
        if !is_listed(atom, marks[i]) {
            return Ok(Some(i as u32 + 1));
        }
    }
    Ok(None)
}

// Whether each of the lists names an atom.
fn name_atoms(atoms: u32, lists: &[RawList]) -> bool
    ensures { IsTrue result ↔ All (λ list. IsAtom atoms list.atom) lists.now }
{
    for list in lists {
        if !names_atom(atoms, list) {
            return false;
        }
    }
    true
}

fn names_atom(atoms: u32, list: &RawList) -> bool
    ensures { IsTrue result ↔ IsAtom atoms list.now.atom }
{
    is_atom(atoms, list.atom)
}

fn is_listed(atom: &RawAtom, mark: ListMark) -> bool
    ensures { (lists : List ElementList) → IsListMark lists mark → (IsTrue result ↔ IsListed lists atom.now) }
{
    mark.known && is_symbol(atom, b"L") == mark.listed
}

// What is noted of the lists that name each atom.
fn list_marks(alloc: Global, table: &RawTable) -> Result<Vec<ListMark>, Memory>
    ensures size { IfOk result (λ marks. length marks.items ≡ length table.now.atoms) }
    ensures marks { IfOk result (λ marks. AreMarks (λ x. IsListMark (lists_at table.now x)) marks.items) }
{
    let none = ListMark {
        listed: false,
        known: true,
    };
    let mut marks = vec![in alloc; none; table.atoms.as_slice().len()]?;
    add_number_lists(&mut marks, table.lists.as_slice());
    add_symbol_lists(&mut marks, table.props.as_slice());
    Ok(marks)
}

// Notes the atom-list lines.
fn add_number_lists(marks: &mut Vec<ListMark>, lists: &[RawList])
    ensures { AreMore IsListMark (lists_for (map by_numbers lists.now)) marks.old.items marks.new.items }
{
    for list in lists {
        add_numbers(marks, list);
    }
}

fn add_numbers(marks: &mut Vec<ListMark>, list: &RawList)
    ensures { AreMore IsListMark (lists_for (by_numbers list.now ∷ [])) marks.old.items marks.new.items }
{
    add_list(
        marks,
        atom_of_numbers(list),
        are_numbers(list.numbers.as_slice()),
    );
}

fn atom_of_numbers(list: &RawList) -> u32
    ensures { result ≡ natural list.now.atom }
{
    natural(list.atom)
}

// Whether these are atomic numbers.
fn are_numbers(numbers: &[i32]) -> bool
    ensures { IsTrue result ↔ All (IsWithin (pos 1) (pos 118)) numbers.now }
{
    for number in numbers {
        if !is_number(number) {
            return false;
        }
    }
    true
}

fn is_number(number: &i32) -> bool
    ensures { IsTrue result ↔ IsWithin (pos 1) (pos 118) number.now }
{
    is_within(1, 118, *number)
}

// Notes the lists of all `M  ALS`.
fn add_symbol_lists(marks: &mut Vec<ListMark>, props: &[Property])
    ensures { AreMore IsListMark (lists_for (symbol_lists props.now)) marks.old.items marks.new.items }
{
    for property in props {
        add_property(marks, property);
    }
}

fn add_property(marks: &mut Vec<ListMark>, property: &Property)
    ensures { AreMore IsListMark (lists_for (symbol_lists (property.now ∷ []))) marks.old.items marks.new.items }
{
    match property {
        Property::List(list) => add_list(
            marks,
            atom_of_symbols(list),
            are_symbols(list.symbols.as_slice()),
        ),
        _ => {}
    }
}

fn atom_of_symbols(list: &AtomList) -> u32
    ensures { result ≡ natural list.now.atom }
{
    natural(list.atom)
}

// Whether these are symbols of elements.
fn are_symbols(symbols: &[Bytes]) -> bool
    ensures { IsTrue result ↔ All IsElementName symbols.now }
{
    for symbol in symbols {
        if !is_element_name(symbol.as_slice()) {
            return false;
        }
    }
    true
}

// Notes a list at atom n, where there is one.
fn add_list(marks: &mut Vec<ListMark>, n: u32, known: bool)
    ensures { (list : ElementList) → (IsTrue known ↔ HasKnownMembers list)
        → AreMore IsListMark (λ x. if n == x then list ∷ [] else []) marks.old.items marks.new.items }
{
    let place = n as usize;
    if place >= 1 && place <= marks.len() {
        marks[place - 1] = and_list(marks[place - 1], known);
    }
}

fn and_list(mark: ListMark, known: bool) -> ListMark
    ensures listed { result.listed ≡ true }
    ensures known { result.known ≡ (mark.known && known) }
{
    ListMark {
        listed: true,
        known: mark.known && known,
    }
}
