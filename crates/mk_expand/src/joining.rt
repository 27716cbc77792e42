// What a template becomes, where slots may be left open.
ghost use Rattle.std.specs.Prelude.{◌≡◌, ◌≤◌, ◌<◌, ◌+◌, ◌++◌, ◌∷◌, [], IfOk, OnOk, length, replicate, slice_index};
ghost use Rattle.mk_model.specs.Expansions.{hydrogen};
ghost use Rattle.mk_model.specs.Pieces.{piece_numbered, room};
ghost use Rattle.mk_layout.specs.Laid.{AreTakers};
ghost use Rattle.mk_pieces.specs.Kept.{IsTemplate};
ghost use Rattle.mk_pieces.specs.Rooms.{HaveRoom};
ghost use Rattle.mk_expand.specs.OpenGraphs.{bare_atoms, bare_atoms_of, loose_ends, loosened, opened};
ghost use Rattle.mk_expand.specs.Opening.{AreLoose};

use crate::loose::loose_of;
use mk_layout::atoms::{expanded_points, hydrogen};
use mk_layout::blocks::takers_of;
use mk_layout::bonds::{put_all_within, put_template_bonds};
use mk_layout::part::{Part, Shape};
use mk_layout::piece::Piece;
use mk_layout::places::{Layout, befores_of};
use mk_model::{AtomTest, GraphAtom, Memory, Template};
use std::alloc::Global;

/// What the template becomes where its slots have become these pieces, and any may be nothing.
pub fn opened(alloc: Global, template: &Template, pieces: &[Piece]) -> Result<Part, Memory>
    requires template { IsTemplate template.now }
    requires pieces { HaveRoom template.now pieces.now }
    ensures { IfOk result (λ part. part ≡ opened template.now pieces.now) }
{
    let takers = takers_of(alloc, template)?;
    let befores = befores_of(alloc, template, pieces, &takers)?;
    let layout = Layout::of(template, pieces, &takers, &befores);
    let loose = loose_of(alloc, &layout)?;
    let atoms = open_atoms(alloc, template, pieces, &takers, &loose)?;
    let mut bonds = Vec::with_capacity(alloc, template.bonds().len())?;
    put_template_bonds(&mut bonds, &layout)?;
    put_all_within(&mut bonds, &layout)?;
    let points = expanded_points(alloc, &layout)?;
    Ok(Part::of(atoms, bonds, points))
}

// What the atoms of the template become, each with its loose ends.
fn open_atoms(
    alloc: Global,
    template: &Template,
    pieces: &[Piece],
    takers: &[u32],
    loose: &[u32],
) -> Result<Vec<GraphAtom>, Memory>
    requires takers { AreTakers template.now takers.now }
    requires pieces { HaveRoom template.now pieces.now }
    requires loose { AreLoose template.now pieces.now loose.now }
    ensures { IfOk result (λ atoms. atoms.items ≡ loosened template.now pieces.now 1 (bare_atoms_of template.now pieces.now (length template.now.atoms))) }
{
    let mut out = Vec::with_capacity(alloc, loose.len())?;
    let atoms = template.atoms();
    for i in 0..atoms.len() {
        put_atoms(alloc, &mut out, template, pieces, takers, loose, i)?;
    }
    Ok(out)
}

// What the atom at a place becomes.
fn put_atoms(
    alloc: Global,
    out: &mut Vec<GraphAtom>,
    template: &Template,
    pieces: &[Piece],
    takers: &[u32],
    loose: &[u32],
    i: usize,
) -> Result<(), Memory>
    requires takers { AreTakers template.now takers.now }
    requires pieces { HaveRoom template.now pieces.now }
    requires loose { AreLoose template.now pieces.now loose.now }
    requires i { i < length template.now.atoms }
    requires out { length out.old.items ≡ room template.now pieces.now i }
    ensures { OnOk result (out.new.items ≡ out.old.items ++ loosened template.now pieces.now (length out.old.items + 1) (bare_atoms template.now (i + 1) (piece_numbered pieces.now (slice_index takers.now i)))) }
{
    let number = takers[i] as usize;
    let test = &template.atoms()[i];
    if number == 0 {
        return put_copies(alloc, out, template, pieces, loose, test, 1);
    }
    match pieces[number - 1].shape() {
        Shape::Copies(n) => put_copies(alloc, out, template, pieces, loose, test, *n),
        Shape::Member(part) => put_part(alloc, out, template, pieces, loose, part.atoms()),
        Shape::Hydrogens(n) => put_hydrogens(out, template, pieces, loose, *n),
        Shape::Nothing => Ok(()),
    }
}

// Copies of an atom.
fn put_copies(
    alloc: Global,
    out: &mut Vec<GraphAtom>,
    template: &Template,
    pieces: &[Piece],
    loose: &[u32],
    test: &AtomTest,
    count: u32,
) -> Result<(), Memory>
    requires loose { AreLoose template.now pieces.now loose.now }
    requires within { length out.old.items + count ≤ length loose.now }
    ensures { OnOk result (out.new.items ≡ out.old.items ++ loosened template.now pieces.now (length out.old.items + 1) (replicate count (record { test = test.now; free = 0 }))) }
{
    for _j in 0..count {
        let copy = test.copied(alloc)?;
        put_one(out, template, pieces, loose, copy, 0)?;
    }
    Ok(())
}

// The atoms of a member.
fn put_part(
    alloc: Global,
    out: &mut Vec<GraphAtom>,
    template: &Template,
    pieces: &[Piece],
    loose: &[u32],
    atoms: &[GraphAtom],
) -> Result<(), Memory>
    requires loose { AreLoose template.now pieces.now loose.now }
    requires within { length out.old.items + length atoms.now ≤ length loose.now }
    ensures { OnOk result (out.new.items ≡ out.old.items ++ loosened template.now pieces.now (length out.old.items + 1) atoms.now) }
{
    for atom in atoms {
        let copy = atom.test.copied(alloc)?;
        put_one(out, template, pieces, loose, copy, atom.free)?;
    }
    Ok(())
}

// Hydrogens.
fn put_hydrogens(
    out: &mut Vec<GraphAtom>,
    template: &Template,
    pieces: &[Piece],
    loose: &[u32],
    count: u32,
) -> Result<(), Memory>
    requires loose { AreLoose template.now pieces.now loose.now }
    requires within { length out.old.items + count ≤ length loose.now }
    ensures { OnOk result (out.new.items ≡ out.old.items ++ loosened template.now pieces.now (length out.old.items + 1) (replicate count hydrogen)) }
{
    for _j in 0..count {
        put_one(out, template, pieces, loose, hydrogen().test, 0)?;
    }
    Ok(())
}

// One atom more, with its own free ends and the loose ends at its place. More than a number holds
// never come: a template has fewer bonds.
fn put_one(
    out: &mut Vec<GraphAtom>,
    template: &Template,
    pieces: &[Piece],
    loose: &[u32],
    test: AtomTest,
    free: u32,
) -> Result<(), Memory>
    requires loose { AreLoose template.now pieces.now loose.now }
    requires within { length out.old.items < length loose.now }
    ensures { OnOk result (out.new.items ≡ out.old.items ++ record { test = test; free = free + loose_ends template.now pieces.now (length out.old.items + 1) } ∷ []) }
{
    let more = loose[out.len()];
    let Some(free) = free.checked_add(more) else {
        return Err(Memory);
    };
    out.push(GraphAtom { test, free })?;
    Ok(())
}
