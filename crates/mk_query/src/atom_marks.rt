// What stands at the atoms of a table: how it is gathered, and what is asked of one atom.
ghost use Rattle.std.specs.Prelude.{◌≡◌, ◌≤◌, ◌-◌, pos, IfOk, length, slice_index_or};
ghost use Rattle.mk_query.specs.declared.linked_atoms.Linked.TheVariants.{Nothing};
ghost use Rattle.mk_query.specs.AtomMarks.{AreStanding, bears, is_link, is_marked_site};
ghost use Rattle.mk_query.specs.Drawn.{gives_point};

use crate::drawn::{Labels, Near, labels_of, neighbours_of, sites_of};
use crate::linked_atoms::{Linked, linked_atoms};
use crate::sites::site_mark;
use crate::values::{ValueKind, last_values};
use mk_demands::natural;
use mk_tables::RawTable;
use mk_text::Memory;
use std::alloc::Global;

/// For each atom, whether it is a site, its neighbours, its labels, the value of its attachment
/// points, and the links that name it.
#[derive(Drop)]
pub struct Standing {
    pub sites: Vec<bool>,
    pub near: Vec<Near>,
    pub labels: Vec<Labels>,
    pub points: Vec<i32>,
    pub links: Vec<Linked>,
}

pub fn standing_of(alloc: Global, table: &RawTable) -> Result<Standing, Memory>
    requires { length table.now.atoms ≤ 999 }
    ensures { IfOk result (AreStanding table.now) }
{
    let atoms = table.atoms.as_slice();
    let count = atoms.len() as u32;
    let props = table.props.as_slice();
    let sites = sites_of(alloc, atoms)?;
    let near = neighbours_of(alloc, count, table.bonds.as_slice())?;
    let labels = labels_of(alloc, count, props)?;
    let points = last_values(alloc, count, props, ValueKind::Points)?;
    let links = linked_atoms(alloc, count, props)?;
    Ok(Standing {
        sites,
        near,
        labels,
        points,
        links,
    })
}

/// Whether atom x is a site.
pub fn is_marked_site(standing: &Standing, x: u32) -> bool
    ensures { result ≡ is_marked_site standing.now x }
{
    site_mark(standing.sites.as_slice(), x)
}

/// The links that name atom x.
pub fn links_at(standing: &Standing, x: u32) -> Linked
    ensures { result ≡ slice_index_or standing.now.links.items (x - 1) Nothing }
{
    standing
        .links
        .as_slice()
        .get((x as usize).saturating_sub(1))
        .copied()
        .unwrap_or(Linked::Nothing)
}

/// Whether some link names atom x.
pub fn is_link(standing: &Standing, x: u32) -> bool
    ensures { result ≡ is_link standing.now x }
{
    match links_at(standing, x) {
        Linked::Nothing => false,
        _ => true,
    }
}

/// Whether atom x bears point p.
pub fn bears(standing: &Standing, p: u32, x: u32) -> bool
    ensures { result ≡ bears standing.now p x }
{
    gives_point(value_of(standing.points.as_slice(), x), p)
}

// The value of atom x, and 0 where there is none.
fn value_of(values: &[i32], x: u32) -> i32
    ensures { result ≡ slice_index_or values.now (x - 1) (pos 0) }
{
    values
        .get((x as usize).saturating_sub(1))
        .copied()
        .unwrap_or(0)
}

pub fn gives_point(value: i32, p: u32) -> bool
    ensures { result ≡ gives_point p value }
{
    value >= 0 && (natural(value) == p || value == 3)
}
