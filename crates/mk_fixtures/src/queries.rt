// A query of two sites, for tests: `[C R# R# | 1-2 1-3]` with the groups 1 and 2, `[F | ]` and
// `[Cl | ]`, of which group 1 is filled once or not, and then asks that group 2 is filled.
ghost use Rattle.std.specs.Prelude.{◌≡◌, ◌∷◌, [], IfOk, pos, false};
ghost use Rattle.mk_model.specs.declared.template.Slot.TheVariants.{Site};
ghost use Rattle.mk_model.proofs.OnLiterals.{group, plain_group, range, single, then_query, two_sites};

use mk_model::{
    AtomTest, Group, Interval, Kind, Memory, Numbers, Query, QueryBond, Range, Slot, Template,
};
use std::alloc::Global;

/// The query of two sites. Its valid codes are `1 1`, `2 1` and `2 2`.
pub fn query_of_two_sites(alloc: Global) -> Result<Query, Memory>
    ensures { IfOk result (λ query. query ≡ then_query) }
{
    let templates = vec![in alloc; root(alloc)?, single(alloc, 9)?, single(alloc, 17)?]?;
    let mut groups = vec![in alloc; group(alloc, 1, 2, 0)?, group(alloc, 2, 0, 1)?]?;
    for _ in 0..30u32 {
        groups.push(plain_group(alloc)?)?;
    }
    Ok(Query::of(templates, groups))
}

#[tactic(auto, unfolding(mk_model::proofs::OnLiterals::two_sites, mk_model::proofs::OnLiterals::atom, mk_model::proofs::OnLiterals::site_atom, mk_model::proofs::OnLiterals::bond))]
fn root(alloc: Global) -> Result<Template, Memory>
    ensures { IfOk result (λ template. template ≡ two_sites 1 2) }
{
    let atoms = vec![in alloc;
        AtomTest::of_kind(Kind::Element(6)),
        AtomTest::of_kind(Kind::Anything),
        AtomTest::of_kind(Kind::Anything),
    ]?;
    let bonds = vec![in alloc; bond(1, 2), bond(1, 3)]?;
    let slots = vec![in alloc; site(alloc, 2, 1)?, site(alloc, 3, 2)?]?;
    Ok(Template::of(atoms, bonds, slots, Numbers::new(alloc)))
}

#[tactic(auto, unfolding(mk_model::proofs::OnLiterals::single, mk_model::proofs::OnLiterals::atom))]
pub fn single(alloc: Global, z: u8) -> Result<Template, Memory>
    ensures { IfOk result (λ template. template ≡ single z) }
{
    let atoms = vec![in alloc; AtomTest::of_kind(Kind::Element(z))]?;
    let mut points = Numbers::new(alloc);
    points.push(1)?;
    Ok(Template::of(atoms, Vec::new(alloc), Vec::new(alloc), points))
}

pub fn bond(first: u32, second: u32) -> QueryBond
    ensures { result ≡ record { first = first; second = second; kind = 1; topology = 0 } }
{
    QueryBond {
        first,
        second,
        kind: 1,
        topology: 0,
    }
}

fn site(alloc: Global, atom: u32, group: u32) -> Result<Slot, Memory>
    ensures { IfOk result (λ slot. slot ≡ Site atom (group ∷ []) 1 0) }
{
    let mut groups = Numbers::new(alloc);
    groups.push(group)?;
    Ok(Slot::Site {
        atom,
        groups,
        first: 1,
        second: 0,
    })
}

// A group of one member, which is filled at most once, and at least so often.
#[tactic(auto, unfolding(mk_model::proofs::OnLiterals::group, mk_model::proofs::OnLiterals::range))]
fn group(alloc: Global, member: u32, then_group: u8, least: u32) -> Result<Group, Memory>
    ensures { IfOk result (λ one. one ≡ group (member ∷ []) then_group (range least 1)) }
{
    let mut members = Numbers::new(alloc);
    members.push(member)?;
    let mut range = Range::new(alloc);
    range.push(Interval { least, most: 1 })?;
    Ok(Group {
        members,
        then_group,
        rest_hydrogen: false,
        range,
    })
}

#[tactic(auto, unfolding(mk_model::proofs::OnLiterals::group, mk_model::proofs::OnLiterals::plain_group, mk_model::proofs::OnLiterals::range))]
pub fn plain_group(alloc: Global) -> Result<Group, Memory>
    ensures { IfOk result (λ one. one ≡ plain_group []) }
{
    let mut range = Range::new(alloc);
    range.push(Interval {
        least: 1,
        most: 999999,
    })?;
    Ok(Group {
        members: Numbers::new(alloc),
        then_group: 0,
        rest_hydrogen: false,
        range,
    })
}
