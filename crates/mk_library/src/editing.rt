// Edits made ready: what a load, a replacement or a removal would change.
ghost use Rattle.std.specs.Prelude.{◌≡◌, ◌+◌, ◌<◌, ◌≤◌, ℕ, IfOk, OnErr, length};
ghost use Rattle.mk_library.specs.Edits.{Load, Replace, Remove, puts_from};
ghost use Rattle.mk_library.specs.FirstRefusal.{IfRefused, IsAllowedEdit, IsFirstRefusal};
ghost use Rattle.mk_library.specs.Library.{IsSame};
ghost use Rattle.mk_library.specs.Limits.{most_number};
ghost use Rattle.mk_library.specs.Pending.{PendingFits};

use crate::molecules::{OneRecord, Prepared, molecules_of, one_molecule, records_of};
use crate::{Library, LoadRefusal, Pending};
use mk_outside::{Bytes, Change, Memory};
use std::alloc::Global;

// The changes that put the texts under the numbers from one on.
fn puts_from(alloc: Global, first: u32, texts: Vec<Bytes>) -> Result<Vec<Change>, Memory>
    requires { (i : ℕ) → i < length texts.items → first + i ≤ most_number }
    ensures { IfOk result (λ changes. changes.items ≡ puts_from first texts.items) }
{
    let mut changes = Vec::with_capacity(alloc, texts.len())?;
    let mut number = first;
    let mut texts = texts.into_iter();
    while let Some(text) = texts.next() {
        changes.push(Change::PutRecord { number, text })?;
        number += 1;
    }
    Ok(changes)
}

impl Library {
    /// Makes ready to add the records of a file, under the numbers from the next one on.
    pub fn load(&mut self, alloc: Global, text: &[u8]) -> Result<Pending, LoadRefusal>
        ensures changes { IfOk result (λ p. IsAllowedEdit self.old.records self.old.next_record (Load text.now) p.changes) }
        ensures fits { IfOk result (PendingFits self.new) }

        ensures refused { IfRefused result (IsFirstRefusal self.old.records self.old.next_record (Load text.now)) }

        ensures same { IsSame self.old self.new }
        ensures kept { self.old.spare ≤ self.new.spare }
        ensures err { OnErr result (self.new.spare ≡ self.old.spare) }
    {
        let raws = match records_of(alloc, text) {
            Ok(raws) => raws,
            Err(said) => return Err(said),
        };
        let prepared = match molecules_of(alloc, raws) {
            Ok(prepared) => prepared,
            Err(said) => return Err(said),
        };
        if !self.keeps(prepared.texts.as_slice()) {
            return Err(LoadRefusal::Full);
        }
        let Prepared { texts, mols } = prepared;
        let more = texts.len();
        let changes = puts_from(alloc, self.next_number(), texts)?;
        self.reserve(more)?;
        Ok(Pending::of(changes, mols))
    }

    /// Makes ready to put the one record of a file in place of the one that is held.
    pub fn replace(
        &mut self,
        alloc: Global,
        number: u32,
        text: &[u8],
    ) -> Result<Pending, LoadRefusal>
        ensures changes { IfOk result (λ p. IsAllowedEdit self.old.records self.old.next_record (Replace number text.now) p.changes) }
        ensures fits { IfOk result (PendingFits self.new) }

        ensures refused { IfRefused result (IsFirstRefusal self.old.records self.old.next_record (Replace number text.now)) }

        ensures same { IsSame self.old self.new }
        ensures kept { self.old.spare ≤ self.new.spare }
        ensures err { OnErr result (self.new.spare ≡ self.old.spare) }
    {
        if !self.holds(number) {
            return Err(LoadRefusal::NoRecord);
        }
        let one = match one_molecule(alloc, text) {
            Ok(one) => one,
            Err(said) => return Err(said),
        };
        let OneRecord { text: kept, mol } = one;
        if !self.keeps_over(number, kept.as_slice()) {
            return Err(LoadRefusal::Full);
        }
        let mut changes = Vec::with_capacity(alloc, 1)?;
        changes.push(Change::PutRecord { number, text: kept })?;
        let mut mols = Vec::with_capacity(alloc, 1)?;
        mols.push(mol)?;
        self.reserve(1)?;
        Ok(Pending::of(changes, mols))
    }

    /// Makes ready to take out the record that is held.
    pub fn remove(&mut self, alloc: Global, number: u32) -> Result<Pending, LoadRefusal>
        ensures changes { IfOk result (λ p. IsAllowedEdit self.old.records self.old.next_record (Remove number) p.changes) }
        ensures fits { IfOk result (PendingFits self.new) }

        ensures refused { IfRefused result (IsFirstRefusal self.old.records self.old.next_record (Remove number)) }

        ensures same { IsSame self.old self.new }
        ensures kept { self.new.spare ≡ self.old.spare }
    {
        if !self.holds(number) {
            return Err(LoadRefusal::NoRecord);
        }
        let mut changes = Vec::with_capacity(alloc, 1)?;
        changes.push(Change::DropRecord { number })?;
        Ok(Pending::of(changes, Vec::new(alloc)))
    }
}
