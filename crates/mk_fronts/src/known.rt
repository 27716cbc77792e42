// What is known of the fronts of a query in one molecule.
ghost use Rattle.std.specs.Prelude.{◌≡◌, ◌+◌, ◌≤◌, ◌<◌, [], false, IfOk, IfSome, IsTrue, length, slice_index, take};
ghost use Rattle.mk_model.specs.Codes.{IsCode};
ghost use Rattle.mk_model.specs.Nodes.{BeginsCode};
ghost use Rattle.mk_model.specs.OpenSlots.{most_at};
ghost use Rattle.mk_model.specs.Queries.{slots_of};
ghost use Rattle.mk_model.specs.Screens.{IsScreenOf};
ghost use Rattle.mk_counts.specs.Asked.{AreThere};
ghost use Rattle.mk_open_codes.specs.Alone.{ArePlaces, HoldsNoneAlone, root_slot};
ghost use Rattle.mk_open_codes.specs.Fronts.{HoldsNone};
ghost use Rattle.mk_fronts.specs.Fronts.{BeginsWithNone, IsKnownOf, KnowsNothing};
ghost use Rattle.mk_fronts.specs.Told.{IsPlaceAt};

use crate::choices::{choices, place_of, put_alone, starts};
use crate::stores::Stores;
use crate::told::{Told, forget, put, told_at};
use mk_counts::{Counts, counts_there};
use mk_model::{Memory, Mol, Query, Screen};
use mk_open_codes::{alone_fronts_hold_none, fronts_hold_none, slots_hold_none};
use std::alloc::Global;
use std::marker::Model;

// So many steps are in a purse where something is asked. What is cut off with fewer would tell little.
const LEAST_STEPS: u64 = 4_096;

/// Which front of a code is the first that was refused, by how many numbers it has, where one was; and
/// how many numbers the fronts have that were asked and may be held.
#[derive(Clone, Copy)]
pub struct Seen {
    pub refused: Option<usize>,
    pub held: usize,
}

/// The graphs that are kept, how many numbers may stand for each slot of the root, and of one
/// molecule what it has and what was told of numbers alone, with an index to it. Of the slots, so many
/// were asked, from the first one on that is asked in this molecule, and in a circle.
#[derive(Drop)]
pub struct Known<'a> {
    stores: Stores<'a>,
    there: Option<Counts>,
    told: Vec<Told>,
    index: Vec<u32>,
    most: Vec<u32>,
    starts: Vec<usize>,
    key: Vec<u32>,
    first: usize,
    asked: usize,
}

impl<'a> Model for Known<'a> {
    ghost use Rattle.mk_fronts.specs.Fronts.{FrontsView};
    ghost use Rattle.mk_fronts.specs.Told.{AreChoices};

    ghost Value = { FrontsView };

    ghost view = { λ k. record { query = k.stores; there = k.there; told = k.told.items } };

    ghost invariant = { λ k. AreChoices k.stores k.most.items };
}

impl<'a> Known<'a> {
    /// Nothing is known.
    pub fn new(alloc: Global, query: &'a Query) -> Result<Known<'a>, Memory>
        ensures query { IfOk result (λ known. known.query ≡ query.now) }
        ensures nothing { IfOk result KnowsNothing }
    {
        let most = choices(alloc, query)?;
        let starts = starts(alloc, &most)?;
        let index = vec![in alloc; 0u32; starts.last().copied().unwrap_or(0)]?;
        Ok(Known {
            stores: Stores::new(alloc, query),
            there: None,
            told: Vec::new(alloc),
            index,
            most,
            starts,
            key: Vec::new(alloc),
            first: 0,
            asked: 0,
        })
    }

    /// The query.
    pub fn query(&self) -> &'a Query
        ensures { result.now ≡ self.now.query }
    {
        self.stores.query()
    }

    /// Forgets what is known of a molecule. The slots are asked from another one on.
    pub fn restart(&mut self, from: usize)
        ensures nothing { KnowsNothing self.new }
        ensures query { self.new.query ≡ self.old.query }
    {
        let slots = self.slots();
        self.first = if slots == 0 { 0 } else { from % slots };
        self.asked = 0;
        self.there = None;
        forget(&mut self.told);
    }

    /// Tells whether each slot of the root was asked.
    pub fn has_asked_slots(&self) -> bool {
        self.asked >= self.slots()
    }

    /// Tells whether the molecule may hold some number alone at each slot of the root, as far as the
    /// purse lasts. The next call goes on at the slot where this one stopped.
    pub fn may_hold_slots(
        &mut self,
        alloc: Global,
        mol: &Mol,
        screen: &Screen,
        purse: &mut u64,
    ) -> Result<bool, Memory>
        requires known { IsKnownOf mol.now self.old }
        requires screen { IsScreenOf mol.now screen.now }
        ensures none { IfOk result (λ may. may ≡ false → HoldsNone self.old.query mol.now []) }
        ensures known { IsKnownOf mol.now self.new }
        ensures query { self.new.query ≡ self.old.query }
        ensures paid { purse.new ≤ purse.old }
    {
        for turn in self.asked..self.slots() {
            let slot = self.slot_in_turn(turn);
            if !self.may_hold_slot(alloc, slot, mol, screen, purse)? {
                return Ok(false);
            }
            if *purse < LEAST_STEPS {
                return Ok(true);
            }
            self.asked = turn.saturating_add(1);
        }
        Ok(true)
    }

    // Tells whether the molecule may hold some number alone at a slot of the root. Where the purse
    // doesn't last, it may.
    fn may_hold_slot(
        &mut self,
        alloc: Global,
        slot: usize,
        mol: &Mol,
        screen: &Screen,
        purse: &mut u64,
    ) -> Result<bool, Memory>
        requires known { IsKnownOf mol.now self.old }
        requires screen { IsScreenOf mol.now screen.now }
        ensures none { IfOk result (λ may. may ≡ false → HoldsNone self.old.query mol.now []) }
        ensures known { IsKnownOf mol.now self.new }
        ensures query { self.new.query ≡ self.old.query }
        ensures paid { purse.new ≤ purse.old }
    {
        slots_hold_none();
        // The reader's clause says what every query keeps.
        let _fits = self.query().templates();
        let Some(most) = self.choices_at(slot) else {
            return Ok(true);
        };
        for i in 0..most {
            if *purse < LEAST_STEPS {
                return Ok(true);
            }
            if self.may_hold_alone(alloc, slot, i + 1, mol, screen, purse)? {
                return Ok(true);
            }
        }
        Ok(false)
    }

    /// Tells whether the molecule may hold a front.
    pub fn may_hold_front(
        &mut self,
        alloc: Global,
        front: &[u32],
        mol: &Mol,
        screen: &Screen,
        purse: &mut u64,
    ) -> Result<bool, Memory>
        requires front { BeginsCode self.old.query front.now }
        requires known { IsKnownOf mol.now self.old }
        requires screen { IsScreenOf mol.now screen.now }
        ensures none { IfOk result (λ may. may ≡ false → HoldsNone self.old.query mol.now front.now) }
        ensures known { IsKnownOf mol.now self.new }
        ensures query { self.new.query ≡ self.old.query }
        ensures paid { purse.new ≤ purse.old }
    {
        fronts_hold_none();
        let _fits = self.query().templates();
        let there = self.counts(mol);
        let may = self
            .stores
            .may_hold_front(alloc, front, mol, screen, &there, purse)?;
        Ok(may)
    }

    /// How many numbers the first front of a code has that the molecule can't hold, of those that end
    /// from a place on; and how many those have that may be held, as far as the purse lasts.
    pub fn first_refused(
        &mut self,
        alloc: Global,
        code: &[u32],
        places: &[u32],
        from: usize,
        mol: &Mol,
        screen: &Screen,
        purse: &mut u64,
    ) -> Result<Seen, Memory>
        requires code { IsCode self.old.query 0 code.now }
        requires places { ArePlaces self.old.query code.now places.now }
        requires known { IsKnownOf mol.now self.old }
        requires screen { IsScreenOf mol.now screen.now }
        ensures refused { IfOk result (λ seen. IfSome seen.refused (BeginsWithNone self.old.query mol.now code.now)) }
        ensures held { IfOk result (λ seen. seen.held ≤ length code.now) }
        ensures known { IsKnownOf mol.now self.new }
        ensures query { self.new.query ≡ self.old.query }
        ensures paid { purse.new ≤ purse.old }
    {
        let mut slot = count_below(places, from);
        for n in from..code.len() {
            if *purse < LEAST_STEPS {
                return Ok(Seen {
                    refused: None,
                    held: n,
                });
            }
            if self.refuses_number(alloc, code, places, slot, n, mol, screen, purse)? {
                return Ok(Seen {
                    refused: Some(n + 1),
                    held: n,
                });
            }
            if *purse < LEAST_STEPS {
                return Ok(Seen {
                    refused: None,
                    held: n,
                });
            }
            if self.refuses_front(alloc, code, n, mol, screen, purse)? {
                return Ok(Seen {
                    refused: Some(n + 1),
                    held: n,
                });
            }
            slot = slot_behind(places, slot, n);
        }
        Ok(Seen {
            refused: None,
            held: code.len(),
        })
    }

    // Tells that a number of the code stands for a slot of the root, and that the molecule can't hold
    // it alone.
    fn refuses_number(
        &mut self,
        alloc: Global,
        code: &[u32],
        places: &[u32],
        slot: usize,
        n: usize,
        mol: &Mol,
        screen: &Screen,
        purse: &mut u64,
    ) -> Result<bool, Memory>
        requires code { IsCode self.old.query 0 code.now }
        requires places { ArePlaces self.old.query code.now places.now }
        requires within { n < length code.now }
        requires known { IsKnownOf mol.now self.old }
        requires screen { IsScreenOf mol.now screen.now }
        ensures none { IfOk result (λ no. IsTrue no → HoldsNone self.old.query mol.now (take (n + 1) code.now)) }
        ensures known { IsKnownOf mol.now self.new }
        ensures query { self.new.query ≡ self.old.query }
        ensures paid { purse.new ≤ purse.old }
    {
        alone_fronts_hold_none();
        let _fits = self.query().templates();
        if !is_place(places, slot, n) {
            return Ok(false);
        }
        let may = self.may_hold_alone(alloc, slot, number_at(code, n), mol, screen, purse)?;
        Ok(!may)
    }

    // Tells that the molecule can't hold the front of a code that ends at a place. The whole code isn't
    // asked for: where no front before it is refused it is searched for its hits, and that tells.
    fn refuses_front(
        &mut self,
        alloc: Global,
        code: &[u32],
        n: usize,
        mol: &Mol,
        screen: &Screen,
        purse: &mut u64,
    ) -> Result<bool, Memory>
        requires code { IsCode self.old.query 0 code.now }
        requires within { n < length code.now }
        requires known { IsKnownOf mol.now self.old }
        requires screen { IsScreenOf mol.now screen.now }
        ensures none { IfOk result (λ no. IsTrue no → HoldsNone self.old.query mol.now (take (n + 1) code.now)) }
        ensures known { IsKnownOf mol.now self.new }
        ensures query { self.new.query ≡ self.old.query }
        ensures paid { purse.new ≤ purse.old }
    {
        if n + 1 == code.len() {
            return Ok(false);
        }
        let may = self.may_hold_front(alloc, &code[..n + 1], mol, screen, purse)?;
        Ok(!may)
    }

    // Tells whether the molecule may hold a number alone at a slot of the root, and remembers it.
    fn may_hold_alone(
        &mut self,
        alloc: Global,
        slot: usize,
        number: u32,
        mol: &Mol,
        screen: &Screen,
        purse: &mut u64,
    ) -> Result<bool, Memory>
        requires known { IsKnownOf mol.now self.old }
        requires screen { IsScreenOf mol.now screen.now }
        ensures none { IfOk result (λ may. may ≡ false → HoldsNoneAlone self.old.query mol.now slot number) }
        ensures known { IsKnownOf mol.now self.new }
        ensures query { self.new.query ≡ self.old.query }
        ensures paid { purse.new ≤ purse.old }
    {
        let Some(most) = self.choices_at(slot) else {
            return Ok(true);
        };
        if number == 0 || number > most {
            return Ok(true);
        }
        let at = place_of(&self.starts, slot, number);
        if let Some(may) = told_at(&self.told, &self.index, at, slot, number) {
            return Ok(may);
        }
        let there = self.counts(mol);
        put_alone(&mut self.key, slot, number)?;
        let may = self
            .stores
            .may_hold_alone(alloc, slot, number, &self.key, mol, screen, &there, purse)?;
        put(
            &mut self.told,
            &mut self.index,
            at,
            Told { slot, number, may },
        )?;
        Ok(may)
    }

    // The slot that is asked in this turn.
    fn slot_in_turn(&self, turn: usize) -> usize {
        let at = self.first.saturating_add(turn);
        if at < self.slots() {
            return at;
        }
        at.saturating_sub(self.slots())
    }

    // How many slots the root has.
    fn slots(&self) -> usize {
        self.most.len()
    }

    // How many numbers may stand for a slot of the root, where there is such a slot.
    fn choices_at(&self, slot: usize) -> Option<u32>
        ensures within { IfSome result (λ _. slot < length (slots_of self.now.query 0)) }
        ensures most { IfSome result (λ most. most ≡ most_at self.now.query (root_slot self.now.query slot)) }
    {
        self.most.get(slot).copied()
    }

    // What the molecule has, which is counted once.
    fn counts(&mut self, mol: &Mol) -> Counts
        requires { IsKnownOf mol.now self.old }
        ensures there { AreThere mol.now result }
        ensures known { IsKnownOf mol.now self.new }
        ensures query { self.new.query ≡ self.old.query }
    {
        if let Some(there) = &self.there {
            return *there;
        }
        let there = counts_there(mol);
        self.there = Some(there);
        there
    }
}

// The number at a place of a code.
fn number_at(code: &[u32], n: usize) -> u32
    requires { n < length code.now }
    ensures { result ≡ slice_index code.now n }
{
    code[n]
}

// How many places are below a place.
fn count_below(places: &[u32], from: usize) -> usize {
    let mut count = 0usize;
    for place in places {
        if *place as usize >= from {
            return count;
        }
        count = count.saturating_add(1);
    }
    count
}

// The slot for which a number stands next behind the place.
fn slot_behind(places: &[u32], slot: usize, n: usize) -> usize {
    if is_place(places, slot, n) {
        return slot.saturating_add(1);
    }
    slot
}

// Tells that a number for the slot stands at the place.
fn is_place(places: &[u32], slot: usize, n: usize) -> bool
    ensures { IsTrue result → IsPlaceAt places.now slot n }
{
    match places.get(slot) {
        Some(place) => *place as usize == n,
        None => false,
    }
}
