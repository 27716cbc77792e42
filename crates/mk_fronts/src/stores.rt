// The graphs that were asked for, kept over molecules in two generations.
ghost use Rattle.std.specs.Prelude.{◌≡◌, ◌≤◌, ◌<◌, false, IfOk, IfSome, length};
ghost use Rattle.mk_model.specs.Graphs.{GraphView};
ghost use Rattle.mk_model.specs.Nodes.{BeginsCode};
ghost use Rattle.mk_model.specs.OpenSlots.{most_at};
ghost use Rattle.mk_model.specs.Queries.{QueryView, slots_of};
ghost use Rattle.mk_model.specs.Screens.{IsScreenOf};
ghost use Rattle.mk_counts.specs.Asked.{AreThere};
ghost use Rattle.mk_open_codes.specs.Alone.{HoldsNoneAlone, alone_code, root_slot};
ghost use Rattle.mk_open_codes.specs.Fronts.{IsFrontCode};
ghost use Rattle.mk_fronts.specs.Asks.{HoldsNoGraph, IsAskOf};

use crate::asks::Ask;
use indexmap::IndexMap;
use mk_counts::Counts;
use mk_model::{Memory, Mol, Query, Screen};
use mk_open_codes::{alone_code, front_code};
use std::alloc::Global;
use std::marker::Model;
use std::mem;

// About how many bytes a generation may take: half of 64 MB.
const MOST_BYTES: usize = 33_554_432;

/// What a query's fronts ask for. A graph is kept under its open code without the zeros behind it.
///
/// Where the young graphs take too much room, they become the elder ones, and those are let go.
/// An elder one that is asked for again is put among the young.
#[derive(Drop)]
pub struct Stores<'a> {
    young: IndexMap<Vec<u32>, Ask>,
    elder: IndexMap<Vec<u32>, Ask>,
    bytes: usize,
    query: &'a Query,
}

impl<'a> Model for Stores<'a> {
    ghost use Rattle.mk_model.specs.Queries.{QueryView};
    ghost use Rattle.mk_fronts.specs.Asks.{AreAsksOf};

    ghost Value = { QueryView };

    ghost view = { λ s. s.query.now };

    ghost invariant = { λ s. AreAsksOf s.query.now s.young.entries × AreAsksOf s.query.now s.elder.entries };
}

impl<'a> Stores<'a> {
    /// Nothing is kept yet.
    pub fn new(alloc: Global, query: &'a Query) -> Stores<'a>
        ensures { result ≡ query.now }
    {
        Stores {
            young: IndexMap::new(alloc),
            elder: IndexMap::new(alloc),
            bytes: 0,
            query,
        }
    }

    /// The query.
    pub fn query(&self) -> &'a Query
        ensures { result.now ≡ self.now }
    {
        self.query
    }

    /// Tells whether the molecule may hold the graph of a front's open code.
    pub fn may_hold_front(
        &mut self,
        alloc: Global,
        front: &[u32],
        mol: &Mol,
        screen: &Screen,
        there: &Counts,
        purse: &mut u64,
    ) -> Result<bool, Memory>
        requires front { BeginsCode self.old front.now }
        requires screen { IsScreenOf mol.now screen.now }
        requires there { AreThere mol.now there.now }
        ensures none { IfOk result (λ may. may ≡ false → HoldsNoGraph self.old mol.now front.now) }
        ensures query { self.new ≡ self.old }
        ensures paid { purse.new ≤ purse.old }
    {
        if let Some(may) = self.told_by_kept(alloc, front, mol, screen, there, purse)? {
            return Ok(may);
        }
        let code = front_code(alloc, self.query, front)?;
        self.told_anew(alloc, front, &code, mol, screen, there, purse)
    }

    /// Tells whether the molecule may hold the graph of the open code that decides a number at a slot
    /// of the root alone. The key is that code without the zeros behind it.
    pub fn may_hold_alone(
        &mut self,
        alloc: Global,
        slot: usize,
        number: u32,
        key: &[u32],
        mol: &Mol,
        screen: &Screen,
        there: &Counts,
        purse: &mut u64,
    ) -> Result<bool, Memory>
        requires slot { slot < length (slots_of self.old 0) }
        requires least { 1 ≤ number }
        requires most { number ≤ most_at self.old (root_slot self.old slot) }
        requires key { key.now ≡ alone_code slot number 0 }
        requires screen { IsScreenOf mol.now screen.now }
        requires there { AreThere mol.now there.now }
        ensures none { IfOk result (λ may. may ≡ false → HoldsNoneAlone self.old mol.now slot number) }
        ensures query { self.new ≡ self.old }
        ensures paid { purse.new ≤ purse.old }
    {
        if let Some(may) = self.told_by_kept(alloc, key, mol, screen, there, purse)? {
            return Ok(may);
        }
        let code = alone_code(alloc, self.query, slot, number)?;
        self.told_anew(alloc, key, &code, mol, screen, there, purse)
    }

    // What the graph under a key tells, where it is kept. An elder one is put among the young.
    fn told_by_kept(
        &mut self,
        alloc: Global,
        key: &[u32],
        mol: &Mol,
        screen: &Screen,
        there: &Counts,
        purse: &mut u64,
    ) -> Result<Option<bool>, Memory>
        requires screen { IsScreenOf mol.now screen.now }
        requires there { AreThere mol.now there.now }
        ensures none { IfOk result (λ found. IfSome found (λ may. may ≡ false → HoldsNoGraph self.old mol.now key.now)) }
        ensures query { self.new ≡ self.old }
        ensures paid { purse.new ≤ purse.old }
    {
        if let Some(ask) = self.young.get(key) {
            let may = ask.may_be_held(alloc, mol, screen, there, purse)?;
            return Ok(Some(may));
        }
        let Some(ask) = self.elder.swap_remove(key) else {
            return Ok(None);
        };
        let may = ask.may_be_held(alloc, mol, screen, there, purse)?;
        self.keep(alloc, key, ask)?;
        Ok(Some(may))
    }

    // What the graph of an open code tells, which is kept then.
    fn told_anew(
        &mut self,
        alloc: Global,
        key: &[u32],
        code: &[u32],
        mol: &Mol,
        screen: &Screen,
        there: &Counts,
        purse: &mut u64,
    ) -> Result<bool, Memory>
        requires code { IsFrontCode self.old key.now code.now }
        requires screen { IsScreenOf mol.now screen.now }
        requires there { AreThere mol.now there.now }
        ensures none { IfOk result (λ may. may ≡ false → HoldsNoGraph self.old mol.now key.now) }
        ensures query { self.new ≡ self.old }
        ensures paid { purse.new ≤ purse.old }
    {
        let ask = Ask::of(alloc, self.query, code, purse)?;
        let may = ask.may_be_held(alloc, mol, screen, there, purse)?;
        self.keep(alloc, key, ask)?;
        Ok(may)
    }

    // Keeps a graph under its key.
    fn keep(&mut self, alloc: Global, key: &[u32], ask: Ask) -> Result<(), Memory>
        requires { IsAskOf self.old key.now ask }
        ensures { self.new ≡ self.old }
    {
        let bytes = ask.bytes().saturating_add(key.len().saturating_mul(4));
        self.make_room(alloc, bytes);
        let kept = Vec::from_slice(alloc, key)?;
        self.young.insert(kept, ask)?;
        Ok(())
    }

    // Counts so many bytes more. Where they are too many for the young graphs, these become the elder
    // ones.
    fn make_room(&mut self, alloc: Global, bytes: usize)
        ensures { self.new ≡ self.old }
    {
        let sum = self.bytes.saturating_add(bytes);
        if sum <= MOST_BYTES {
            self.bytes = sum;
            return;
        }
        self.elder = mem::replace(&mut self.young, IndexMap::new(alloc));
        self.bytes = bytes;
    }
}
