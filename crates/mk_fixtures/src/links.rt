// A query with a link and a site of two labels, for tests: `[C C C R# | 1-2 2-3 3-4]`, whose second
// carbon stands one to three times and whose site bears the labels 1 and 2. Group 1 has `[F | ]` and
// `[Br | ]`, group 2 `[Cl | ]`, which stands between them.
ghost use Rattle.std.specs.Prelude.{◌≡◌, ◌∷◌, [], IfOk};
ghost use Rattle.mk_model.proofs.FitsOnLiterals.{query, root};
ghost use Rattle.mk_model.proofs.OnLiterals.{plain_group};

use crate::queries::{bond, plain_group, single};
use mk_model::{AtomTest, Group, Interval, Kind, Memory, Numbers, Query, Range, Slot, Template};
use std::alloc::Global;

/// The query of a link and a site. The members of its site are fluorine, chlorine and bromine.
pub fn query_of_link_and_site(alloc: Global) -> Result<Query, Memory>
    ensures { IfOk result (λ built. built ≡ query) }
{
    let templates = vec![in alloc;
        root(alloc)?,
        single(alloc, 9)?,
        single(alloc, 17)?,
        single(alloc, 35)?,
    ]?;
    let ones = Numbers::of(vec![in alloc; 1u32, 3u32]?);
    let twos = Numbers::of(vec![in alloc; 2u32]?);
    let mut groups = vec![in alloc; group(alloc, ones)?, group(alloc, twos)?]?;
    for _ in 0..30u32 {
        groups.push(plain_group(alloc)?)?;
    }
    Ok(Query::of(templates, groups))
}

// Three carbons, the middle one a link, and a site behind them.
fn root(alloc: Global) -> Result<Template, Memory>
    ensures { IfOk result (λ template. template ≡ root) }
{
    let atoms = vec![in alloc;
        AtomTest::of_kind(Kind::Element(6)),
        AtomTest::of_kind(Kind::Element(6)),
        AtomTest::of_kind(Kind::Element(6)),
        AtomTest::of_kind(Kind::Anything),
    ]?;
    let bonds = vec![in alloc; bond(1, 2), bond(2, 3), bond(3, 4)]?;
    let link = Slot::Link {
        atom: 2,
        most: 3,
        from: 1,
        to: 3,
    };
    let site = Slot::Site {
        atom: 4,
        groups: Numbers::of(vec![in alloc; 1u32, 2u32]?),
        first: 3,
        second: 0,
    };
    let slots = vec![in alloc; link, site]?;
    Ok(Template::of(atoms, bonds, slots, Numbers::new(alloc)))
}

// A group with these members and no line of its own.
fn group(alloc: Global, members: Numbers) -> Result<Group, Memory>
    ensures { IfOk result (λ one. one ≡ plain_group members) }
{
    let mut range = Range::new(alloc);
    range.push(Interval {
        least: 1,
        most: 999_999,
    })?;
    Ok(Group {
        members,
        then_group: 0,
        rest_hydrogen: false,
        range,
    })
}
