// Fronts of codes that a molecule can't hold.
ghost use Rattle.std.specs.Prelude.{◌≡◌, ◌≤◌, [], false, IfOk, IfSome, length};
ghost use Rattle.mk_model.specs.Codes.{IsCode};
ghost use Rattle.mk_model.specs.Nodes.{BeginsCode};
ghost use Rattle.mk_model.specs.Screens.{IsScreenOf};
ghost use Rattle.mk_open_codes.specs.Fronts.{HoldsNone, IsFrontCode, IsNeedOfAll};
ghost use Rattle.mk_fronts.specs.Fronts.{BeginsWithNone, IsKnownOf, IsReady, KnowsNothing};

use crate::asks::Ask;
use crate::known::Known;
use mk_model::{Memory, Mol, Query, Screen};
use mk_open_codes::{root_need, root_places, root_slots};
use mk_walk::pay;
use std::alloc::Global;
use std::fmt;
use std::marker::Model;

/// What a query's fronts ask for, and what is known of them in one molecule: which of them it can't
/// hold.
///
/// A front is numbers with which codes begin. The codes of a query are asked for in rising order, so a
/// code shares fronts with the one before it, and those aren't asked for again.
#[derive(Drop)]
pub struct Fronts<'a> {
    known: Known<'a>,
    need: Screen,
    places: Vec<u32>,
    last: Vec<u32>,
    has_root: bool,
    begun: bool,
}

impl fmt::Debug for Fronts<'_> {
    // It shows nothing of what is known.
    fn fmt<W: fmt::Write>(&self, f: &mut fmt::Formatter<W>) -> fmt::Result {
        f.debug_struct("Fronts").finish_non_exhaustive()
    }
}

impl<'a> Model for Fronts<'a> {
    ghost use Rattle.mk_fronts.specs.Fronts.{FrontsView, IsReady};

    ghost Value = { FrontsView };

    ghost view = { λ f. f.known };

    ghost invariant = { λ f. IsReady f.known.query f.need };
}

impl<'a> Fronts<'a> {
    /// The fronts of a query, of which nothing is known.
    pub fn new(alloc: Global, query: &'a Query) -> Result<Fronts<'a>, Memory>
        ensures query { IfOk result (λ fronts. fronts.query ≡ query.now) }
        ensures nothing { IfOk result KnowsNothing }
    {
        let need = need_of_all(alloc, query)?;
        Ok(Fronts {
            known: Known::new(alloc, query)?,
            need,
            places: Vec::new(alloc),
            last: Vec::new(alloc),
            has_root: false,
            begun: false,
        })
    }

    /// Forgets what it knows of a molecule: the next calls are of another. Which slot of the root is
    /// asked first goes by a number, so that searches that are taken up again don't ask the same slots
    /// alone.
    pub fn restart(&mut self, from: usize)
        ensures nothing { KnowsNothing self.new }
        ensures query { self.new.query ≡ self.old.query }
    {
        self.last.clear();
        self.begun = false;
        self.has_root = false;
        self.known.restart(from);
    }

    /// What all codes need of a screen.
    pub fn need(&self) -> &Screen
        ensures { IsNeedOfAll self.now.query result.now }
    {
        &self.need
    }

    /// With how many numbers the code begins a front that the molecule can't hold, where it finds one.
    /// It begins no matcher: nothing is counted, and no hit is given. What it asks is paid from the
    /// purse; what isn't asked any more is taken to be held, and asked by a later call.
    pub fn passed(
        &mut self,
        alloc: Global,
        code: &[u32],
        mol: &Mol,
        screen: &Screen,
        purse: &mut u64,
    ) -> Result<Option<usize>, Memory>
        requires code { IsCode self.old.query 0 code.now }
        requires known { IsKnownOf mol.now self.old }
        requires screen { IsScreenOf mol.now screen.now }

        ensures found { IfOk result (λ found. IfSome found (BeginsWithNone self.old.query mol.now code.now)) }

        ensures known { IsKnownOf mol.now self.new }
        ensures query { self.new.query ≡ self.old.query }
        ensures paid { purse.new ≤ purse.old }
    {
        if !self.begin(alloc, mol, screen, purse)? {
            return Ok(Some(0));
        }
        root_places(self.known.query(), code, &mut self.places)?;
        let from = shared(&self.last, code);
        let seen = self
            .known
            .first_refused(alloc, code, &self.places, from, mol, screen, purse)?;
        remember(&mut self.last, code, seen.held)?;
        Ok(seen.refused)
    }

    // Tells whether the molecule may hold any code, by the empty front, and by some number alone at
    // each slot of the root, for which it takes half of the purse. It does so once a molecule.
    fn begin(
        &mut self,
        alloc: Global,
        mol: &Mol,
        screen: &Screen,
        purse: &mut u64,
    ) -> Result<bool, Memory>
        requires some { BeginsCode self.old.query [] }
        requires known { IsKnownOf mol.now self.old }
        requires screen { IsScreenOf mol.now screen.now }
        ensures none { IfOk result (λ may. may ≡ false → HoldsNone self.old.query mol.now []) }
        ensures known { IsKnownOf mol.now self.new }
        ensures query { self.new.query ≡ self.old.query }
        ensures paid { purse.new ≤ purse.old }
    {
        if self.begun {
            return Ok(true);
        }
        if !self.may_hold_root(alloc, mol, screen, purse)? {
            return Ok(false);
        }
        let mut half = *purse / 2;
        pay(purse, half);
        if !self.known.may_hold_slots(alloc, mol, screen, &mut half)? {
            return Ok(false);
        }
        *purse += half;
        self.begun = self.known.has_asked_slots();
        Ok(true)
    }

    // Tells whether the molecule may hold the empty front, which it asks once a molecule.
    fn may_hold_root(
        &mut self,
        alloc: Global,
        mol: &Mol,
        screen: &Screen,
        purse: &mut u64,
    ) -> Result<bool, Memory>
        requires some { BeginsCode self.old.query [] }
        requires known { IsKnownOf mol.now self.old }
        requires screen { IsScreenOf mol.now screen.now }
        ensures none { IfOk result (λ may. may ≡ false → HoldsNone self.old.query mol.now []) }
        ensures known { IsKnownOf mol.now self.new }
        ensures query { self.new.query ≡ self.old.query }
        ensures paid { purse.new ≤ purse.old }
    {
        if self.has_root {
            return Ok(true);
        }
        let may = self.known.may_hold_front(alloc, &[], mol, screen, purse)?;
        self.has_root = may;
        Ok(may)
    }
}

// What the empty front needs, and so all codes.
fn need_of_all(alloc: Global, query: &Query) -> Result<Screen, Memory>
    ensures { IfOk result (IsReady query.now) }
{
    root_need();
    // The reader's clause says what every query keeps.
    let _fits = query.templates();
    let code = all_open(alloc, query)?;
    let mut purse = u64::MAX;
    let ask = Ask::of(alloc, query, &code, &mut purse)?;
    Ok(ask.need())
}

// The open code in which each slot of the root is left open.
fn all_open(alloc: Global, query: &Query) -> Result<Vec<u32>, Memory>
    ensures { IfOk result (λ code. IsFrontCode query.now [] code.items) }
{
    let code = vec![in alloc; 0u32; root_slots(query)]?;
    Ok(code)
}

// How many numbers two lists begin with that are the same.
fn shared(last: &[u32], code: &[u32]) -> usize {
    let mut count = 0usize;
    for (a, b) in last.iter().zip(code) {
        if *a != *b {
            return count;
        }
        count = count.saturating_add(1);
    }
    count
}

// Remembers the fronts of a code that were asked and may be held: those with at most so many numbers.
fn remember(last: &mut Vec<u32>, code: &[u32], held: usize) -> Result<(), Memory>
    requires { held ≤ length code.now }
{
    last.clear();
    last.extend_from_slice(&code[..held])?;
    Ok(())
}
