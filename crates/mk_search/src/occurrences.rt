// The occurrences of a query in one molecule after another: codes, and behind each the hits of its
// expansion.
ghost use Rattle.std.specs.Prelude.{◌≡◌, ◌≤◌, ◌+◌, ◌++◌, ℕ, List, IfOk, IfSome, IsTrue, None, false};
ghost use Rattle.mk_model.specs.Molecules.{Molecule};
ghost use Rattle.mk_model.specs.Screens.{IsScreenOf};
ghost use Rattle.mk_match.specs.Maps.{IsMadeFrom};
ghost use Rattle.mk_open_codes.specs.Fronts.{IsNeedOfAll};
ghost use Rattle.mk_search.specs.Occurrences.{BelongsTo, IsOpened, IsOpenOf, IsTakenHere, Leaves, TakesNext, given};
ghost use Rattle.mk_search.specs.Passing.{FrontsOf, KnowOf};
ghost use Rattle.mk_search.specs.Turns.{IsAtCode, IsCodeShown, IsHigher, IsRefused, OwesFew, StandsBy};

use crate::needs::fronts_and_need;
use crate::passing::{forget, passed, put_behind_front};
use crate::stages::Row;
use mk_choice::Codes;
use mk_counts::Asked;
use mk_expansions::{Expansion, Kept, behind, expansion_by, keep, may_hold, start};
use mk_fronts::Fronts;
use mk_match::Maps;
use mk_model::{Memory, Query, Screen, Steps};
use std::alloc::Global;
use std::mem;
use std::sync::ledger::Ledger;

/// A code that is open: its hits that are left, and what is kept of its expansion.
#[derive(Drop)]
pub struct Open<'a> {
    pub maps: Maps<'a>,
    pub code: Vec<u32>,
    pub asked: Asked,
    pub need: Screen,
}

/// The occurrences of a query in the molecule of a record: the codes that are left, the code that is
/// open, where one is, and the fronts that are asked before a code is opened, where some are. What
/// serves the next record too is kept: expansions, and the room for the numbers that were found last.
///
/// `owed` is there for the proof of what turns pay alone. It is how many numbers of the place stand
/// behind those from which codes are left, until a code is taken out.
#[derive(Drop)]
pub struct Occurrences<'a> {
    pub codes: Codes<'a>,
    pub open: Option<Open<'a>>,
    pub fronts: Option<Fronts<'a>>,
    pub kept: Kept,
    pub numbers: Vec<u32>,
    pub query: &'a Query,
    pub owed: usize,
}

impl<'a> Occurrences<'a> {
    /// Those of a query, of which none is left yet; and what all codes need of a screen.
    pub fn of(alloc: Global, query: &'a Query) -> Result<(Occurrences<'a>, Option<Screen>), Memory>
        ensures belongs { IfOk result (λ made. BelongsTo query.now made.0) }
        ensures need { IfOk result (λ made. IfSome made.1 (IsNeedOfAll query.now)) }
    {
        let mut codes = Codes::from_place(alloc, query, &[])?;
        let mut kept = Kept::new(alloc);
        match fronts_and_need(alloc, query, &mut codes, &mut kept) {
            Ok((fronts, need)) => {
                let all = Occurrences {
                    codes,
                    open: None,
                    fronts,
                    kept,
                    numbers: Vec::new(alloc),
                    query,
                    owed: 0,
                };
                Ok((all, need))
            }
            Err(memory) => {
                // For the proof alone: a call lets it go, and not the end of the block.
                drop(codes);
                drop(kept);
                Err(memory)
            }
        }
    }

    /// Goes to those that aren't below the place, in any molecule. No code is open.
    pub fn restart(&mut self, place: &[u32]) -> Result<(), Memory>
        requires { BelongsTo self.old.query.now self.old }
        ensures left { IfOk result (λ _. (mol : Molecule) → Leaves self.old.query.now mol place.now self.new.codes self.new.open) }
        ensures shut { IfOk result (λ _. self.new.open ≡ None) }
        ensures stands { IfOk result (λ _. StandsBy self.old.query.now place.now self.new.codes self.new.owed self.new.open) }
        ensures within { IfOk result (λ _. IsHigher place.now self.new.codes.place place.now) }
        ensures few { IfOk result (λ _. OwesFew self.old.query.now place.now self.new.codes self.new.owed) }
        ensures know { IfOk result (λ _. (mol : Molecule) → KnowOf mol self.new.fronts) }
        ensures belongs { BelongsTo self.old.query.now self.new }
    {
        drop(mem::replace(&mut self.open, None));
        forget(&mut self.fronts, place);
        let start = start(self.query, place);
        self.codes.rewind(start)?;
        self.owed = place.len() - start.len();
        Ok(())
    }

    /// Finds the next one from the place on, where there is one. It begins a matcher for each code
    /// that it opens.
    pub fn next<L: Ledger>(
        &mut self,
        alloc: Global,
        row: Row<'a>,
        place: &[u32],
        steps: &mut Steps<L>,
    ) -> Result<bool, Memory>
        requires belongs { BelongsTo self.old.query.now self.old }
        requires left { Leaves self.old.query.now row.mol.now place.now self.old.codes self.old.open }
        requires know { KnowOf row.mol.now self.old.fronts }
        requires screen { IsScreenOf row.mol.now row.screen.now }
        ensures next { IfOk result (λ more. TakesNext self.old.query.now row.entry.mol.now place.now self.old.codes self.old.open self.new.codes self.new.open steps.old steps.new (given more self.new.numbers.items)) }
        ensures know { IfOk result (λ _. KnowOf row.entry.mol.now self.new.fronts) }
        ensures belongs { BelongsTo self.old.query.now self.new }
        ensures steps { steps.old ≤ steps.new }
    {
        // The reader's clause says what every query keeps.
        let _fits = self.query.templates();
        if self.next_here()? {
            return Ok(true);
        }
        while self.open_next(alloc, row, place, steps)? {
            if self.next_here()? {
                return Ok(true);
            }
        }
        Ok(false)
    }

    // The next one of the code that is open. Where there is none, none is open any more.
    fn next_here(&mut self) -> Result<bool, Memory>
        requires belongs { BelongsTo self.old.query.now self.old }
        requires of { IfSome self.old.open (IsOpenOf self.old.query.now) }
        ensures here { IfOk result (λ more. (mol : Molecule) (place : List ℕ) → Leaves self.old.query.now mol place self.old.codes self.old.open
            → IsTakenHere self.old.query.now mol place self.old.codes self.old.open self.new.open (given more self.new.numbers.items)) }
        ensures codes { self.new.codes ≡ self.old.codes }
        ensures fronts { self.new.fronts ≡ self.old.fronts }
        ensures belongs { BelongsTo self.old.query.now self.new }
    {
        let Some(open) = &mut self.open else {
            return Ok(false);
        };
        let Some(hit) = open.maps.next() else {
            self.close()?;
            return Ok(false);
        };
        put_joined(&mut self.numbers, &open.code, hit)?;
        Ok(true)
    }

    /// Keeps the expansion of the code that was open. None is open any more.
    pub fn close(&mut self) -> Result<(), Memory>
        requires belongs { BelongsTo self.old.query.now self.old }
        requires of { IfSome self.old.open (IsOpenOf self.old.query.now) }
        ensures shut { self.new.open ≡ None }
        ensures codes { self.new.codes ≡ self.old.codes }
        ensures owed { self.new.owed ≡ self.old.owed }
        ensures fronts { self.new.fronts ≡ self.old.fronts }
        ensures belongs { BelongsTo self.old.query.now self.new }
    {
        let Some(open) = mem::replace(&mut self.open, None) else {
            return Ok(());
        };
        let Open {
            maps,
            code,
            asked,
            need,
        } = open;
        let expansion = Expansion {
            code,
            graph: maps.into_graph(),
            asked,
            need,
        };
        keep(expansion, &mut self.kept)
    }

    // Passes to the next code, where there is one, and opens it where the molecule may hold it. Where
    // the code begins with a front that it can't hold, all codes behind that front are passed.
    fn open_next<L: Ledger>(
        &mut self,
        alloc: Global,
        row: Row<'a>,
        place: &[u32],
        steps: &mut Steps<L>,
    ) -> Result<bool, Memory>
        requires belongs { BelongsTo self.old.query.now self.old }
        requires left { Leaves self.old.query.now row.mol.now place.now self.old.codes self.old.open }
        requires shut { self.old.open ≡ None }
        requires know { KnowOf row.mol.now self.old.fronts }
        requires screen { IsScreenOf row.mol.now row.screen.now }
        ensures opened { IfOk result (IsOpened self.old.query.now row.entry.mol.now place.now self.old.codes self.new.codes self.new.open steps.old steps.new) }
        ensures know { IfOk result (λ _. KnowOf row.entry.mol.now self.new.fronts) }
        ensures belongs { BelongsTo self.old.query.now self.new }
        ensures steps { steps.old ≤ steps.new }
    {
        // The reader's clause says what every query keeps.
        let _fits = self.query.templates();
        let Some(_code) = self.codes.next() else {
            return Ok(false);
        };
        let mut purse = u64::MAX;
        let _bare = self.open_code(alloc, row, place, steps, &mut purse)?;
        Ok(true)
    }

    /// Opens the code that was taken out last, where the molecule may hold it, and says whether its
    /// graph has no atoms. Where the code begins with a front that the molecule can't hold, all codes
    /// behind that front are passed. What is asked of fronts is paid from the purse.
    pub fn open_code<L: Ledger>(
        &mut self,
        alloc: Global,
        row: Row<'a>,
        place: &[u32],
        steps: &mut Steps<L>,
        purse: &mut u64,
    ) -> Result<bool, Memory>
        requires belongs { BelongsTo self.old.query.now self.old }
        requires code { IsAtCode self.old.query.now self.old.codes.place }
        requires shut { self.old.open ≡ None }
        requires know { KnowOf row.mol.now self.old.fronts }
        requires screen { IsScreenOf row.mol.now row.screen.now }
        ensures shown { IfOk result (λ bare. IsCodeShown self.old.query.now row.entry.mol.now place.now self.old.codes self.new.codes self.new.open steps.old steps.new bare) }
        ensures know { IfOk result (λ _. KnowOf row.entry.mol.now self.new.fronts) }
        ensures owed { self.new.owed ≡ self.old.owed }
        ensures belongs { BelongsTo self.old.query.now self.new }
        ensures steps { steps.old ≤ steps.new }
        ensures paid { purse.new ≤ purse.old }
    {
        let (codes, fronts) = (&mut self.codes, &mut self.fronts);
        if passes_front(
            alloc,
            self.query,
            row,
            codes,
            fronts,
            &mut self.numbers,
            purse,
        )? {
            return Ok(false);
        }
        let code = self.codes.item();
        let back = behind(code, place);
        let expansion = expansion_by(alloc, self.query, code, &mut self.kept)?;
        if !may_hold(&expansion, row.mol, row.screen) {
            keep(expansion, &mut self.kept)?;
            return Ok(false);
        }
        let bare = expansion.graph.atom_count() == 0;
        let its = opened(alloc, expansion, row, back, steps)?;
        drop(mem::replace(&mut self.open, Some(its)));
        Ok(bare)
    }
}

// Passes over all codes that begin with a front of the code that was taken out last, where the
// molecule can't hold one.
fn passes_front<'a>(
    alloc: Global,
    query: &Query,
    row: Row<'a>,
    codes: &mut Codes<'a>,
    fronts: &mut Option<Fronts<'a>>,
    numbers: &mut Vec<u32>,
    purse: &mut u64,
) -> Result<bool, Memory>
    requires code { IsAtCode query.now codes.old.place }
    requires codes_of { codes.old.query ≡ query.now }
    requires fronts_of { FrontsOf query.now fronts.old }
    requires know { KnowOf row.mol.now fronts.old }
    requires screen { IsScreenOf row.mol.now row.screen.now }
    ensures passed { IfOk result (λ more. IsTrue more → (n : ℕ) → IsRefused query.now row.entry.mol.now codes.old codes.new None n n) }
    ensures stays { IfOk result (λ more. more ≡ false → codes.new ≡ codes.old) }
    ensures codes_of { codes.new.query ≡ query.now }
    ensures fronts_of { FrontsOf query.now fronts.new }
    ensures know { KnowOf row.entry.mol.now fronts.new }
    ensures paid { purse.new ≤ purse.old }
{
    let code = codes.item();
    let Some(n) = passed(alloc, query, code, row, fronts, purse)? else {
        return Ok(false);
    };
    put_behind_front(numbers, &code[..n])?;
    codes.rewind(numbers)?;
    Ok(true)
}

// Begins a matcher for an expansion, from what a place has behind its code.
fn opened<'a, L: Ledger>(
    alloc: Global,
    expansion: Expansion,
    row: Row<'a>,
    back: &[u32],
    steps: &mut Steps<L>,
) -> Result<Open<'a>, Memory>
    ensures made { IfOk result (λ its. IsMadeFrom expansion.graph row.entry.mol.now back.now its.maps) }
    ensures same { IfOk result (λ its. its ≡ record { maps = its.maps; code = expansion.code; asked = expansion.asked; need = expansion.need }) }
    ensures begin { steps.new ≡ steps.old + 1 }
{
    let Expansion {
        code,
        graph,
        asked,
        need,
    } = expansion;
    let maps = Maps::from_place(alloc, graph, row.mol, back, steps)?;
    Ok(Open {
        maps,
        code,
        asked,
        need,
    })
}

// Puts numbers, and others behind them.
fn put_joined(numbers: &mut Vec<u32>, front: &[u32], back: &[u32]) -> Result<(), Memory>
    ensures { IfOk result (λ _. numbers.new.items ≡ front.now ++ back.now) }
{
    numbers.clear();
    numbers.extend_from_slice(front)?;
    numbers.extend_from_slice(back)?;
    Ok(())
}
