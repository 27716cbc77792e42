// Property lines, written one by one.
ghost use Rattle.std.specs.Prelude.{◌≡◌, ◌++◌, ◌≤◌, length, All, OnOk, IfOk};
ghost use Rattle.std.specs.List.{flat_map};
ghost use Rattle.mk_text.specs.Columns.{trimmed};
ghost use Rattle.mk_tables.specs.Table.{IsKept};
ghost use Rattle.mk_text.specs.Lines.{ended};
ghost use Rattle.mk_spelling.specs.TableSpelling.{pair_text, link_text, at_left, pairs_line, links_line, order_line, wide_symbols_line, symbols_line, wide_logic_line, logic_line, property_line, IsCounted, PairFits, PairsFit, LinkFits, LinksFit, OrderFits, AtomListFits, LogicFits, PropertyFits};

use crate::writing_columns::{put_count, put_flag, put_left, put_spaced};
use mk_props::{AtomList, LinkEntry, LogicLine, Pair, Property, SiteOrder};
use mk_text::{Bytes, Memory, trimmed_column};
use std::alloc::Global;

// aaa vvv   eight columns
fn put_pair(alloc: Global, out: &mut Vec<u8>, pair: &Pair) -> Result<(), Memory>
    requires { PairFits pair.now }
    ensures { OnOk result (out.new.items ≡ out.old.items ++ pair_text pair.now) }
{
    put_spaced(alloc, out, pair.atom)?;
    put_spaced(alloc, out, pair.value)
}

// aaa vvv ..   each pair in turn
fn put_entries(alloc: Global, out: &mut Vec<u8>, pairs: &[Pair]) -> Result<(), Memory>
    requires { All PairFits pairs.now }
    ensures { OnOk result (out.new.items ≡ out.old.items ++ flat_map pair_text pairs.now) }
{
    for pair in pairs {
        put_pair(alloc, out, pair)?;
    }
    Ok(())
}

// M  CHGnnn aaa vvv ..   columns 7-9 the count, and eight for each pair
#[tactic(auto, unfolding(crate::specs::TableSpelling::pairs_line))]
fn put_pairs(alloc: Global, out: &mut Vec<u8>, word: &[u8], pairs: &[Pair]) -> Result<(), Memory>
    requires few { length pairs.now ≤ 8 }
    requires fit { All PairFits pairs.now }
    ensures { OnOk result (out.new.items ≡ out.old.items ++ ended (pairs_line word.now pairs.now)) }
{
    out.extend_from_slice(word)?;
    put_count(alloc, out, pairs)?;
    put_entries(alloc, out, pairs)?;
    out.extend_from_slice(b"\n")
}

// aaa vvv bbb ccc   sixteen columns
fn put_link(alloc: Global, out: &mut Vec<u8>, link: &LinkEntry) -> Result<(), Memory>
    requires { LinkFits link.now }
    ensures { OnOk result (out.new.items ≡ out.old.items ++ link_text link.now) }
{
    put_spaced(alloc, out, link.atom)?;
    put_spaced(alloc, out, link.most)?;
    put_spaced(alloc, out, link.from)?;
    put_spaced(alloc, out, link.to)
}

// aaa vvv bbb ccc ..   each entry in turn
fn put_link_entries(alloc: Global, out: &mut Vec<u8>, links: &[LinkEntry]) -> Result<(), Memory>
    requires { All LinkFits links.now }
    ensures { OnOk result (out.new.items ≡ out.old.items ++ flat_map link_text links.now) }
{
    for link in links {
        put_link(alloc, out, link)?;
    }
    Ok(())
}

// M  LINnnn aaa vvv bbb ccc ..   columns 7-9 the count, and sixteen for each entry
#[tactic(auto, unfolding(crate::specs::TableSpelling::links_line))]
fn put_links(alloc: Global, out: &mut Vec<u8>, links: &[LinkEntry]) -> Result<(), Memory>
    requires { LinksFit links.now }
    ensures { OnOk result (out.new.items ≡ out.old.items ++ ended (links_line links.now)) }
{
    out.extend_from_slice(b"M  LIN")?;
    put_count(alloc, out, links)?;
    put_link_entries(alloc, out, links)?;
    out.extend_from_slice(b"\n")
}

// M  AAL aaannn bbb ooo ..   columns 8-10 the site, 11-13 the count, and eight for each entry
#[tactic(auto, unfolding(crate::specs::TableSpelling::order_line))]
fn put_order(alloc: Global, out: &mut Vec<u8>, order: &SiteOrder) -> Result<(), Memory>
    requires { OrderFits order.now }
    ensures { OnOk result (out.new.items ≡ out.old.items ++ ended (order_line order.now)) }
{
    let entries = order.entries.as_slice();
    out.extend_from_slice(b"M  AAL")?;
    put_spaced(alloc, out, order.atom)?;
    put_count(alloc, out, entries)?;
    put_entries(alloc, out, entries)?;
    out.extend_from_slice(b"\n")
}

// ssss..   each symbol at the left of four columns
fn put_symbols(out: &mut Vec<u8>, symbols: &[Bytes]) -> Result<(), Memory>
    ensures { OnOk result (out.new.items ≡ out.old.items ++ flat_map (at_left 4) symbols.now) }
{
    for symbol in symbols {
        put_left(out, 4, symbol.as_slice())?;
    }
    Ok(())
}

// A line without the blanks at its end, and LF. No line begins with a blank.
fn put_trimmed(out: &mut Vec<u8>, line: &[u8]) -> Result<(), Memory>
    requires { 1 ≤ length line.now }
    ensures { OnOk result (out.new.items ≡ out.old.items ++ ended (trimmed line.now)) }
{
    out.extend_from_slice(trimmed_column(line, 1, line.len()))?;
    out.extend_from_slice(b"\n")
}

// M  ALS aaannn k ssss..   columns 8-10 the atom, 11-13 the count, 15 T or F, and from 17 on four
//                          for each symbol
fn wide_symbols(alloc: Global, list: &AtomList) -> Result<Vec<u8>, Memory>
    requires { AtomListFits list.now }
    ensures { IfOk result (λ line. line.items ≡ wide_symbols_line list.now) }
{
    let symbols = list.symbols.as_slice();
    let mut line = Vec::from_slice(alloc, b"M  ALS")?;
    put_spaced(alloc, &mut line, list.atom)?;
    put_count(alloc, &mut line, symbols)?;
    line.extend_from_slice(b" ")?;
    put_flag(&mut line, list.not)?;
    line.extend_from_slice(b" ")?;
    put_symbols(&mut line, symbols)?;
    Ok(line)
}

// The same without the blanks at its end.
#[tactic(auto, unfolding(crate::specs::TableSpelling::symbols_line))]
fn put_atom_list(alloc: Global, out: &mut Vec<u8>, list: &AtomList) -> Result<(), Memory>
    requires { AtomListFits list.now }
    ensures { OnOk result (out.new.items ≡ out.old.items ++ ended (symbols_line list.now)) }
{
    let line = wide_symbols(alloc, list)?;
    put_trimmed(out, &line)
}

// M  LOG  1 rrr iii hhh range   columns 11-13 the group, 15-17 the THEN group, 19-21 RestH, and
//                               from 23 on the range
fn wide_logic(alloc: Global, logic: &LogicLine) -> Result<Vec<u8>, Memory>
    requires { LogicFits logic.now }
    ensures { IfOk result (λ line. line.items ≡ wide_logic_line logic.now) }
{
    let mut line = Vec::from_slice(alloc, b"M  LOG  1")?;
    put_spaced(alloc, &mut line, logic.group)?;
    put_spaced(alloc, &mut line, logic.then_group)?;
    put_spaced(alloc, &mut line, logic.rest)?;
    line.extend_from_slice(b" ")?;
    line.extend_from_slice(logic.range.as_slice())?;
    Ok(line)
}

// The same without the blank before an empty range.
#[tactic(auto, unfolding(crate::specs::TableSpelling::logic_line))]
fn put_logic(alloc: Global, out: &mut Vec<u8>, logic: &LogicLine) -> Result<(), Memory>
    requires { LogicFits logic.now }
    ensures { OnOk result (out.new.items ≡ out.old.items ++ ended (logic_line logic.now)) }
{
    let line = wide_logic(alloc, logic)?;
    put_trimmed(out, &line)
}

/// The line of a property.
pub fn put_property(alloc: Global, out: &mut Vec<u8>, property: &Property) -> Result<(), Memory>
    requires fits { PropertyFits property.now }
    requires kept { IsKept property.now }
    ensures { OnOk result (out.new.items ≡ out.old.items ++ ended (property_line property.now)) }
{
    match property {
        Property::Charge(pairs) => put_pairs(alloc, out, b"M  CHG", pairs.as_slice()),
        Property::Radical(pairs) => put_pairs(alloc, out, b"M  RAD", pairs.as_slice()),
        Property::Isotope(pairs) => put_pairs(alloc, out, b"M  ISO", pairs.as_slice()),
        Property::RingBonds(pairs) => put_pairs(alloc, out, b"M  RBC", pairs.as_slice()),
        Property::Substitution(pairs) => put_pairs(alloc, out, b"M  SUB", pairs.as_slice()),
        Property::Unsaturation(pairs) => put_pairs(alloc, out, b"M  UNS", pairs.as_slice()),
        Property::Label(pairs) => put_pairs(alloc, out, b"M  RGP", pairs.as_slice()),
        Property::Points(pairs) => put_pairs(alloc, out, b"M  APO", pairs.as_slice()),
        Property::Link(links) => put_links(alloc, out, links.as_slice()),
        Property::List(list) => put_atom_list(alloc, out, list),
        Property::Order(order) => put_order(alloc, out, order),
        Property::Logic(logic) => put_logic(alloc, out, logic),
        // No table keeps these two.
        Property::Passed(_) | Property::End => Ok(()),
    }
}
