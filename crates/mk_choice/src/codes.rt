// The valid codes of a query: the least from a front on, and all from a place on, one after
// another.
ghost use Rattle.std.specs.Prelude.{◌≡◌, ◌+◌, ◌<◌, ◌≤◌, ◌==◌, ◌⊎◌, ◌∷◌, ◌++◌, [], ℕ, List, IfErr, IfOk, IsOk, IsTrue, false, if◌then◌else◌, length, take};
ghost use Rattle.mk_model.specs.Queries.{slots_of};
ghost use Rattle.std.specs.Borrow.{sem};
ghost use Rattle.mk_text.specs.Rising.{IsBelow, IsLeastFrom};
ghost use Rattle.mk_model.specs.Logic.{IsValid};
ghost use Rattle.mk_model.specs.Nodes.{BeginsCode};
ghost use Rattle.mk_choice.specs.Codes.{IsReady};
ghost use Rattle.mk_choice.specs.Frames.{AreFrames};

use crate::bounds::bounds_of;
use crate::frames::Frames;
use crate::numbers::slots_of;
use mk_model::{Code, Memory, Place, Query, Turn};
use std::alloc::Global;
use std::marker::Model;

/// Gives the least valid code that isn't below the front.
pub fn least_code(alloc: Global, query: &Query, front: &[u32]) -> Result<Option<Code>, Memory>
    ensures least { IfOk result (IsLeastFrom front.now (IsValid query.now)) }
{
    let mut codes = Codes::from_place(alloc, query, front)?;
    if !codes.take() {
        return Ok(None);
    }
    let mut code = Vec::new(alloc);
    code.extend_from_slice(codes.item())?;
    Ok(Some(Code::of(code)))
}

/// The valid codes of a query from a place on. It holds the place, and the frames from which it goes
/// on.
#[derive(Debug, Drop)]
pub struct Codes<'a> {
    frames: Frames<'a>,
    place: Vec<u32>,
    most: Vec<u32>,
    query: &'a Query,
    len: usize,
    debt: u32,
}

impl<'a> Model for Codes<'a> {
    ghost use Rattle.std.specs.Prelude.{◌≡◌, ◌≤◌, length, take};
    ghost use Rattle.mk_choice.specs.Codes.{CodesLeft, IsReady};

    ghost Value = { CodesLeft };

    ghost view = { λ c. record { query = c.query.now; place = take c.len c.place.items; debt = c.debt } };

    ghost invariant = { λ c. IsReady c.query.now c.most.items c.frames c.place.items c.len c.debt };
}

impl<'a> Codes<'a> {
    ghost use Rattle.mk_choice.specs.Codes.{CodesLeft, IsMadeFrom, IsNextOf, IsTaken, IsTurn};
    ghost use Rattle.mk_choice.specs.Lending.{Ends};
    ghost use Rattle.std.specs.Prelude.{List, ℕ};

    /// The valid codes that aren't below the place.
    pub fn from_place(alloc: Global, query: &'a Query, place: &[u32]) -> Result<Codes<'a>, Memory>
        ensures left { IfOk result (IsMadeFrom query.now place.now) }
    {
        let mut kept = vec![in alloc; 0u32; place.len().max(514)]?;
        put(&mut kept, place);
        let most = bounds_of(alloc, query)?;
        let mut frames = Frames::of(alloc, query, &most)?;
        let debt = go_to(&mut frames, query, &most, place);
        Ok(Codes {
            frames,
            place: kept,
            most,
            query,
            len: place.len(),
            debt,
        })
    }

    /// Goes to another place: the valid codes that aren't below it. Up to 514 numbers it takes no
    /// memory. After `Memory` all is as before.
    pub fn rewind(&mut self, place: &[u32]) -> Result<(), Memory>
        ensures left { IfOk result (λ _. IsMadeFrom self.old.query place.now self.new) }
        ensures room { length place.now ≤ 514 → IsOk result }
        ensures same { IfErr result (λ _. self.new ≡ self.old) }
    {
        make_room(&mut self.place, place.len())?;
        put(&mut self.place, place);
        self.frames.restart(self.query, &self.most);
        self.debt = go_to(&mut self.frames, self.query, &self.most, place);
        self.len = place.len();
        Ok(())
    }

    /// Gives the place: the last code followed by 0, or the one that the codes were made from; after
    /// a turn that took none out, the numbers that it came to.
    pub fn place(&self, alloc: Global) -> Result<Place, Memory>
        ensures { IfOk result (λ place. place ≡ self.now.place) }
    {
        let mut place = Vec::new(alloc);
        place.extend_from_slice(&self.place[..self.len])?;
        Ok(Place::of(place))
    }

    /// The next code, where there is one.
    pub fn next(&mut self) -> Option<&[u32]>
        ensures* lends { sem 𝓛 (Ends self.entry (IsNextOf self.old result)) }
    {
        if !self.take() {
            return None;
        }
        Some(&self.place[..self.len - 1])
    }

    /// Goes on by one turn: the next code is taken out, or the place is further on, or there is none.
    pub fn advance(&mut self) -> Turn
        ensures { IsTurn self.old self.new result }
    {
        if !self.frames.next_node(self.query, &self.most) {
            return Turn::End;
        }
        let n = self.frames.depth;
        if self.frames.settle(self.query, &self.most) {
            put(&mut self.place, &self.frames.numbers[..n]);
            put_last(&mut self.place, n);
            self.len = n + 1;
            self.debt = 0;
            return Turn::Item;
        }
        put(&mut self.place, &self.frames.numbers[..n]);
        self.len = n;
        self.debt = 0;
        Turn::Moved
    }

    /// The numbers of the place.
    pub fn reached(&self) -> &[u32]
        ensures { result.now ≡ self.now.place }
    {
        &self.place[..self.len]
    }

    /// The code that the last turn took out.
    pub fn item(&self) -> &[u32]
        requires behind { (code : List ℕ) × (self.now.place ≡ code ++ 0 ∷ []) }
        ensures { self.now.place ≡ result.now ++ 0 ∷ [] }
    {
        &self.place[..self.len - 1]
    }

    // Goes to the place behind the next code, where there is one.
    fn take(&mut self) -> bool
        ensures { IsTaken self.old self.new result }
    {
        if !self.frames.next_code(self.query, &self.most) {
            return false;
        }
        let n = self.frames.depth;
        put(&mut self.place, &self.frames.numbers[..n]);
        put_last(&mut self.place, n);
        self.len = n + 1;
        self.debt = 0;
        true
    }
}

// Puts numbers over the first ones.
fn put(place: &mut Vec<u32>, numbers: &[u32])
    requires { length numbers.now ≤ length place.old.items }
    ensures size { length place.new.items ≡ length place.old.items }
    ensures put { take (length numbers.now) place.new.items ≡ numbers.now }
{
    for i in 0..numbers.len() {
        place[i] = numbers[i];
    }
}

// Puts a 0 behind the first n.
fn put_last(place: &mut Vec<u32>, n: usize)
    requires { n < length place.old.items }
    ensures size { length place.new.items ≡ length place.old.items }
    ensures put { take (n + 1) place.new.items ≡ take n place.old.items ++ 0 ∷ [] }
{
    place[n] = 0;
}

// Makes room for so many numbers, where there is too little.
fn make_room(place: &mut Vec<u32>, len: usize) -> Result<(), Memory>
    ensures room { IfOk result (λ _. (len ≤ length place.new.items) × (length place.old.items ≤ length place.new.items)) }
    ensures enough { len ≤ length place.old.items → IsOk result }
    ensures same { IfErr result (λ _. place.new.items ≡ place.old.items) }
{
    if len <= place.len() {
        return Ok(());
    }
    place.resize(len, 0)?;
    Ok(())
}

// Goes to what isn't below the place, from frames of no numbers, and gives what is owed there.
fn go_to<'a>(frames: &mut Frames<'a>, query: &'a Query, most: &[u32], place: &[u32]) -> u32
    requires frames { AreFrames query.now most.now frames.old }
    requires none { (frames.old.depth ≡ 0) × (frames.old.above ≡ 0) × (frames.old.once ≡ false) }
    ensures few { result ≤ length place.now + (if length (slots_of query.now 0) == 0 then 1 else 0) }
    ensures unowed { (BeginsCode query.now place.now → ⊥) → result ≡ 0 }
    ensures ready { (kept : List ℕ) → 514 ≤ length kept → length place.now ≤ length kept → take (length place.now) kept ≡ place.now
        → IsReady query.now most.now frames.new kept (length place.now) result }
{
    if frames.is_dead(query, most) {
        frames.above = past(place);
        return 0;
    }
    if begins_all(query, place) {
        return 0;
    }
    frames.seek(query, most, place);
    if frames.once {
        return 1;
    }
    0
}

// Tells that the place is the empty one, and that it is no code: then nothing is owed, since what
// comes first is above it.
fn begins_all(query: &Query, place: &[u32]) -> bool
    ensures yes { IsTrue result → place.now ≡ [] × (0 < length (slots_of query.now 0)) }
    ensures no { result ≡ false → (0 < length place.now) ⊎ (length (slots_of query.now 0) ≡ 0) }
{
    if !place.is_empty() {
        return false;
    }
    !slots_of(query, 0).is_empty()
}

// The greatest number, which no number of the place is above.
fn past(place: &[u32]) -> u32
    ensures { IsBelow place.now ((result + 1) ∷ []) }
{
    let Some(first) = place.first() else {
        return u32::MAX;
    };
    (*first).max(u32::MAX)
}
