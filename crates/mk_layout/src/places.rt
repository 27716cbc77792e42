// Where the atoms of a template stand in its expansion.
ghost use Rattle.std.specs.Prelude.{◌≡◌, ◌≤◌, ◌<◌, ◌+◌, All, IfOk, length, if◌then◌else◌, slice_index};
ghost use Rattle.mk_model.specs.Pieces.{before, end_of, ending, is_far_of, piece_numbered, room, taker, width};
ghost use Rattle.mk_model.specs.QueryFits.{IsAtomOf};
ghost use Rattle.mk_layout.specs.Laid.{AreTakers, IsLaid};
ghost use Rattle.mk_pieces.specs.Rooms.{HaveRoom, IsSmall};

use crate::part::Shape;
use crate::piece::Piece;
use mk_model::{Memory, Slot, Template};
use std::alloc::Global;
use std::marker::Model;

/// For each atom how many atoms stand before those that it becomes, and behind the last one how
/// many there are.
pub fn befores_of(
    alloc: Global,
    template: &Template,
    pieces: &[Piece],
    takers: &[u32],
) -> Result<Vec<u32>, Memory>
    requires takers { AreTakers template.now takers.now }
    requires pieces { HaveRoom template.now pieces.now }
    ensures { IfOk result (λ befores. IsLaid template.now pieces.now takers.now befores.items) }
{
    let mut befores = Vec::with_capacity(alloc, takers.len())?;
    let mut total = 0;
    befores.push(total)?;
    for number in takers {
        total += width_numbered(pieces, *number);
        befores.push(total)?;
    }
    Ok(befores)
}

/// How many atoms a slot has become.
pub fn width_numbered(pieces: &[Piece], number: u32) -> u32
    requires within { number ≤ length pieces.now }
    requires small { All IsSmall pieces.now }
    ensures width { result ≡ width (piece_numbered pieces.now number) }
    ensures small { result ≤ 512 }
{
    if number == 0 {
        return 1;
    }
    width_of(&pieces[number as usize - 1])
}

// How many atoms a piece has.
fn width_of(piece: &Piece) -> u32
    requires { IsSmall piece.now }
    ensures width { result ≡ width piece.now }
    ensures small { result ≤ 512 }
{
    match piece.shape() {
        Shape::Copies(n) => *n,
        Shape::Member(part) => part.atoms().len() as u32,
        Shape::Hydrogens(n) => *n,
        Shape::Nothing => 0,
    }
}

// The near or the far end of what the slot of this number has become.
fn end_numbered(pieces: &[Piece], number: u32, far: bool) -> u32
    requires within { number ≤ length pieces.now }
    requires small { All IsSmall pieces.now }
    ensures end { result ≡ end_of (piece_numbered pieces.now number) far }
    ensures small { result ≤ 512 }
{
    if number == 0 {
        return 1;
    }
    end_of(&pieces[number as usize - 1], far)
}

// The near or the far end of a piece.
fn end_of(piece: &Piece, far: bool) -> u32
    ensures { result ≡ end_of piece.now far }
{
    match piece.shape() {
        Shape::Copies(n) => if far { *n } else { 1 },
        Shape::Member(part) => point_of(part.points(), far),
        Shape::Hydrogens(_) => if far { 2 } else { 1 },
        Shape::Nothing => 0,
    }
}

// The atom with attachment point 2 or 1; 0 where there is none.
fn point_of(points: &[u32], second: bool) -> u32
    ensures { result ≡ slice_index points.now (if second then 1 else 0) }
{
    let at = if second { 1 } else { 0 };
    points.get(at).copied().unwrap_or(0)
}

// Whether atom y faces the far end of the slot of this number at x.
fn is_far_of(slots: &[Slot], number: u32, x: u32, y: u32) -> bool
    requires { number ≤ length slots.now }
    ensures { result ≡ is_far_of slots.now number x y }
{
    if number == 0 {
        return false;
    }
    match &slots[number as usize - 1] {
        Slot::Link { atom, to, .. } => *atom == x && *to == y,
        Slot::Site { atom, second, .. } => *atom == x && *second == y,
    }
}

/// A template whose slots have become pieces, with the slot that takes each atom and how many atoms
/// stand before those that it becomes. It is made once for a template, and lent to all that writes
/// what the template becomes.
#[derive(Drop)]
pub struct Layout<'a> {
    template: &'a Template,
    pieces: &'a [Piece],
    takers: &'a [u32],
    befores: &'a [u32],
}

impl<'a> Model for Layout<'a> {
    ghost use Rattle.mk_layout.specs.Laid.{IsLaid, Laid};

    ghost Value = { Laid };

    ghost view = { λ l. record { template = l.template.now; pieces = l.pieces.now } };

    ghost invariant = { λ l. IsLaid l.template.now l.pieces.now l.takers.now l.befores.now };
}

impl<'a> Layout<'a> {
    pub fn of(
        template: &'a Template,
        pieces: &'a [Piece],
        takers: &'a [u32],
        befores: &'a [u32],
    ) -> Layout<'a>
        requires { IsLaid template.now pieces.now takers.now befores.now }
        ensures { result ≡ record { template = template.now; pieces = pieces.now } }
    {
        Layout {
            template,
            pieces,
            takers,
            befores,
        }
    }

    pub fn template(&self) -> &Template
        ensures { result.now ≡ self.now.template }
    {
        self.template
    }

    pub fn slots(&self) -> &[Slot]
        ensures { result.now ≡ self.now.template.slots }
    {
        self.template.slots()
    }

    pub fn pieces(&self) -> &[Piece]
        ensures same { result.now ≡ self.now.pieces }
        ensures room { HaveRoom self.now.template self.now.pieces }
    {
        self.pieces
    }

    /// The number of the slot that takes atom x, and 0 where none does.
    pub fn taker(&self, x: u32) -> u32
        requires { IsAtomOf self.now.template x }
        ensures is { result ≡ taker self.now.template x }
        ensures within { result ≤ length self.now.pieces }
    {
        self.taker_at(x as usize - 1)
    }

    /// The number of the slot that takes the atom at place i of the list, and 0 where none does.
    fn taker_at(&self, i: usize) -> u32
        requires { i < length self.now.template.atoms }
        ensures is { result ≡ taker self.now.template (i + 1) }
        ensures within { result ≤ length self.now.pieces }
    {
        let takers = self.takers;
        takers[i]
    }

    /// How many atoms stand before those that atom x becomes.
    pub fn before(&self, x: u32) -> u32
        requires { IsAtomOf self.now.template x }
        ensures is { result ≡ before self.now.template self.now.pieces x }
        ensures small { result ≤ 512 }
    {
        self.before_at(x as usize - 1)
    }

    /// How many atoms stand before those that the atom at place i of the list becomes.
    fn before_at(&self, i: usize) -> u32
        requires { i < length self.now.template.atoms }
        ensures is { result ≡ room self.now.template self.now.pieces i }
        ensures small { result ≤ 512 }
    {
        let befores = self.befores;
        befores[i]
    }

    /// How many atoms the template becomes.
    pub fn room(&self) -> u32
        ensures { result ≡ room self.now.template self.now.pieces (length self.now.template.atoms) }
    {
        self.befores[self.takers.len()]
    }

    /// The number of the atom at which the bond from x to y ends on the side of x.
    #[tactic(auto, unfolding(mk_model::specs::Pieces::ending))]
    pub fn ending(&self, x: u32, y: u32) -> u32
        requires { IsAtomOf self.now.template x }
        ensures is { result ≡ ending self.now.template self.now.pieces x y }
        ensures small { result ≤ 1024 }
    {
        let pieces = self.pieces();
        let number = self.taker(x);
        let far = is_far_of(self.slots(), number, x, y);
        self.before(x) + end_numbered(pieces, number, far)
    }
}
