// Turns in the molecule of a record: a hit of the code that is open, or the next code.
ghost use Rattle.std.specs.Prelude.{◌≡◌, ◌≤◌, ◌∷◌, IfOk, IfSome, None};
ghost use Rattle.mk_model.specs.Screens.{IsScreenOf};
ghost use Rattle.mk_match.specs.Maps.{IsTurn};
ghost use Rattle.mk_search.specs.Occurrences.{BelongsTo, IsOpenOf, reached};
ghost use Rattle.mk_search.specs.Passing.{KnowOf};
ghost use Rattle.mk_search.specs.Turns.{IsTurnHere, IsTurnIn, IsTurnOpen, StandsIn};

use crate::occurrences::{Occurrences, Open};
use crate::stages::Row;
use mk_model::{Memory, Steps, Turn};
use std::alloc::Global;
use std::sync::ledger::Ledger;

// How many steps a turn may take to ask for fronts. What is begun with the last of them may take more.
const STEPS_A_TURN: u64 = 32_768;

impl<'a> Occurrences<'a> {
    /// Goes on by one turn: the next one is taken out; or none is, and the search is further on; or
    /// none is left. It begins a matcher where it opens a code, which is at most one.
    pub fn advance<L: Ledger>(
        &mut self,
        alloc: Global,
        row: Row<'a>,
        place: &[u32],
        steps: &mut Steps<L>,
    ) -> Result<Turn, Memory>
        requires belongs { BelongsTo self.old.query.now self.old }
        requires stands { StandsIn self.old.query.now row.mol.now place.now self.old.codes self.old.owed self.old.open }
        requires know { KnowOf row.mol.now self.old.fronts }
        requires screen { IsScreenOf row.mol.now row.screen.now }
        ensures turn { IfOk result (IsTurnIn self.old.query.now row.entry.mol.now place.now self.old.codes self.old.owed self.old.open self.new.codes self.new.owed self.new.open steps.old steps.new) }
        ensures know { IfOk result (λ _. KnowOf row.entry.mol.now self.new.fronts) }
        ensures belongs { BelongsTo self.old.query.now self.new }
        ensures steps { steps.old ≤ steps.new }
    {
        // The reader's clause says what every query keeps.
        let _fits = self.query.templates();
        match self.turn_here()? {
            Turn::Item => Ok(Turn::Item),
            Turn::Moved => Ok(Turn::Moved),
            Turn::End => self.turn_codes(alloc, row, place, steps),
        }
    }

    // A turn of the code that is open. Where nothing more is to come of it, none is open any more.
    fn turn_here(&mut self) -> Result<Turn, Memory>
        requires belongs { BelongsTo self.old.query.now self.old }
        requires of { IfSome self.old.open (IsOpenOf self.old.query.now) }
        ensures turn { IfOk result (IsTurnHere self.old.open self.new.open) }
        ensures codes { self.new.codes ≡ self.old.codes }
        ensures owed { self.new.owed ≡ self.old.owed }
        ensures fronts { self.new.fronts ≡ self.old.fronts }
        ensures belongs { BelongsTo self.old.query.now self.new }
    {
        match turn_open(&mut self.open) {
            Turn::Item => Ok(Turn::Item),
            Turn::Moved => Ok(Turn::Moved),
            Turn::End => {
                self.close()?;
                Ok(Turn::End)
            }
        }
    }

    // A turn of the codes. A code that is taken out is opened, where the molecule may hold it; the one
    // hit of a graph without atoms is taken in the same turn.
    fn turn_codes<L: Ledger>(
        &mut self,
        alloc: Global,
        row: Row<'a>,
        place: &[u32],
        steps: &mut Steps<L>,
    ) -> Result<Turn, Memory>
        requires belongs { BelongsTo self.old.query.now self.old }
        requires stands { StandsIn self.old.query.now row.mol.now place.now self.old.codes self.old.owed self.old.open }
        requires shut { self.old.open ≡ None }
        requires know { KnowOf row.mol.now self.old.fronts }
        requires screen { IsScreenOf row.mol.now row.screen.now }
        ensures turn { IfOk result (IsTurnIn self.old.query.now row.entry.mol.now place.now self.old.codes self.old.owed self.old.open self.new.codes self.new.owed self.new.open steps.old steps.new) }
        ensures know { IfOk result (λ _. KnowOf row.entry.mol.now self.new.fronts) }
        ensures belongs { BelongsTo self.old.query.now self.new }
        ensures steps { steps.old ≤ steps.new }
    {
        // The reader's clause says what every query keeps.
        let _fits = self.query.templates();
        match self.codes.advance() {
            Turn::End => Ok(Turn::End),
            Turn::Moved => Ok(Turn::Moved),
            Turn::Item => {
                self.owed = 0;
                let mut purse = STEPS_A_TURN;
                if !self.open_code(alloc, row, place, steps, &mut purse)? {
                    return Ok(Turn::Moved);
                }
                match self.turn_here()? {
                    Turn::Item => Ok(Turn::Item),
                    Turn::Moved => Ok(Turn::Moved),
                    Turn::End => Ok(Turn::Moved),
                }
            }
        }
    }

    /// Puts the list that the search came to, behind the number of the record.
    pub fn put_reached(&self, number: u32, place: &mut Vec<u32>) -> Result<(), Memory>
        ensures { IfOk result (λ _. place.new.items ≡ number ∷ reached self.now.codes self.now.open) }
    {
        place.clear();
        place.push(number)?;
        let Some(open) = &self.open else {
            place.extend_from_slice(self.codes.reached())?;
            return Ok(());
        };
        place.extend_from_slice(&open.code)?;
        place.extend_from_slice(open.maps.reached())?;
        Ok(())
    }
}

// A turn of the code that is open, which stays open.
fn turn_open(open: &mut Option<Open<'_>>) -> Turn
    ensures { IsTurnOpen open.old open.new result }
{
    let Some(its) = open else {
        return Turn::End;
    };
    turn_maps(its)
}

// A turn of its matcher.
fn turn_maps(open: &mut Open<'_>) -> Turn
    ensures turn { IsTurn open.old.maps open.new.maps result }
    ensures same { open.new ≡ record open.old { maps = open.new.maps } }
{
    open.maps.advance()
}
