// The links that name the atoms, in one pass over the properties.
ghost use Rattle.std.specs.Prelude.{◌≡◌, ◌==◌, ◌∷◌, [], IfOk, length};
ghost use Rattle.std.specs.List.{filter};
ghost use Rattle.mk_demands.specs.Numbers.{natural};
ghost use Rattle.mk_query.specs.Drawn.{links_for, links_of};
ghost use Rattle.mk_query.specs.LinkMarks.{AreLinked, AreMoreLinks, HasMoreLinks};

use mk_demands::natural;
use mk_props::{LinkEntry, Property};
use mk_text::Memory;
use std::alloc::Global;

/// The entries of `M  LIN` that name an atom, told apart up to one.
#[derive(Clone, Copy)]
pub enum Linked {
    Nothing,
    One(LinkEntry),
    More,
}

/// The links that name each of so many atoms.
pub fn linked_atoms(alloc: Global, atoms: u32, props: &[Property]) -> Result<Vec<Linked>, Memory>
    ensures size { IfOk result (λ list. length list.items ≡ atoms) }
    ensures linked { IfOk result (λ list. AreLinked props.now list.items) }
{
    let mut list = vec![in alloc; Linked::Nothing; atoms as usize]?;
    for property in props {
        add_property(&mut list, property);
    }
    Ok(list)
}

fn add_property(list: &mut Vec<Linked>, property: &Property)
    ensures { AreMoreLinks (λ x. filter (λ link. natural link.atom == x) (links_of property.now)) list.old.items list.new.items }
{
    if let Property::Link(links) = property {
        add_links(list, links.as_slice());
    }
}

fn add_links(list: &mut Vec<Linked>, links: &[LinkEntry])
    ensures { AreMoreLinks (λ x. filter (λ link. natural link.atom == x) links.now) list.old.items list.new.items }
{
    for link in links {
        add_link(list, *link);
    }
}

fn add_link(list: &mut Vec<Linked>, link: LinkEntry)
    ensures { AreMoreLinks (λ x. filter (λ link. natural link.atom == x) (link ∷ [])) list.old.items list.new.items }
{
    let place = natural(link.atom) as usize;
    if place >= 1 && place <= list.len() {
        list[place - 1] = and_link(list[place - 1], link);
    }
}

fn and_link(linked: Linked, link: LinkEntry) -> Linked
    ensures { HasMoreLinks (link ∷ []) linked result }
{
    match linked {
        Linked::Nothing => Linked::One(link),
        _ => Linked::More,
    }
}
