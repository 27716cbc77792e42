// The kinds of atoms.
ghost use Rattle.std.specs.Prelude.{◌≡◌, IfOk, Option, codes};
ghost use Rattle.mk_query.specs.Compiled.{IsKindOf};
ghost use Rattle.mk_query.specs.Drawn.{ElementList};
ghost use Rattle.mk_query.specs.KindMarks.{AreKnownAt, IsKindFor, IsPlainSymbol};

use crate::atom_checks::is_word;
use crate::element_kinds::listed_kind;
use crate::list_places::ListPlace;
use mk_elements::number_of;
use mk_model::Kind;
use mk_tables::RawTable;
use mk_text::Memory;
use std::alloc::Global;

/// The kind of an atom of this symbol, where the list at this place is in force for it.
pub fn kind_of(
    alloc: Global,
    symbol: &[u8],
    table: &RawTable,
    place: ListPlace,
) -> Result<Kind, Memory>
    requires symbol { IsPlainSymbol symbol.now }
    requires list { AreKnownAt table.now.lists table.now.props place }
    ensures { IfOk result (IsKindFor symbol.now table.now.lists table.now.props place) }
{
    if is_word(symbol, b"L") {
        return listed_kind(alloc, table, place);
    }
    Ok(plain_kind(symbol))
}

// The kind of a symbol that stands for no list.
fn plain_kind(symbol: &[u8]) -> Kind
    requires symbol { IsPlainSymbol symbol.now }
    requires no_list { ¬ (symbol.now ≡ codes "L") }
    ensures { (found : Option ElementList) → IsKindOf found symbol.now result }
{
    if let Some(z) = number_of(symbol) {
        return Kind::Element(z);
    }
    if is_word(symbol, b"A") {
        return Kind::NotHydrogen;
    }
    if is_word(symbol, b"Q") {
        return Kind::Hetero;
    }
    Kind::Anything
}
