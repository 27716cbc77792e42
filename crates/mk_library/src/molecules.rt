// The records of a molecules' file, and their molecules.
ghost use Rattle.std.specs.Prelude.{◌≡◌, ◌≢◌, ◌<◌, ◌^◌, true, false, All, IfOk, length};
ghost use Rattle.mk_text.specs.Lines.{lines_of};
ghost use Rattle.mk_tables.specs.TableFacts.{IsRawTable};
ghost use Rattle.mk_library.specs.FirstRefusal.{HoldsMolecule, HoldsText, IfRefused, IsFirstFileRefusal};
ghost use Rattle.mk_library.specs.Steps.{ArePreparedOf, IsFileAnswer, IsOnlyAnswer, IsTextAnswer};

use crate::LoadRefusal;
use mk_model::Mol;
use mk_mol::{PrepareFault, prepare};
use mk_outside::{Bytes, Memory};
use mk_sdfile::{RawRecord, RawRecords, read_sdfile};
use mk_tables::TableFault;
use std::alloc::Global;

/// How many bytes a molecules' file may have.
pub const FILE_BYTES: usize = 67_108_864;

/// The texts of records, and their molecules.
#[derive(Drop)]
pub struct Prepared {
    pub texts: Vec<Bytes>,
    pub mols: Vec<Mol>,
}

/// The text of a record, and its molecule.
#[derive(Drop)]
pub struct OneRecord {
    pub text: Bytes,
    pub mol: Mol,
}

/// The records of a molecules' file, or why it is refused.
pub fn records_of(alloc: Global, text: &[u8]) -> Result<RawRecords, LoadRefusal>
    ensures answer { IsFileAnswer text.now result }
    ensures keeps { IfOk result (All (λ raw. IsRawTable raw.table)) }
    ensures fewer { IfOk result (All (λ raw. length raw.table.props < 2 ^ 32)) }
    ensures few { IfOk result (λ raws. length raws < 2 ^ 32) }
{
    if text.len() > FILE_BYTES {
        return Err(LoadRefusal::FileLarge);
    }
    match read_sdfile(alloc, text) {
        Ok(records) => Ok(records),
        Err(TableFault::Bad { line }) => Err(LoadRefusal::Layout { line, v3000: false }),
        Err(TableFault::V3000 { line }) => Err(LoadRefusal::Layout { line, v3000: true }),
        Err(TableFault::Memory) => Err(LoadRefusal::Memory),
    }
}

/// The texts and the molecules of the records, or the first that is no molecule. Each table is let
/// go as soon as its molecule stands.
pub fn molecules_of(alloc: Global, records: RawRecords) -> Result<Prepared, LoadRefusal>
    requires keeps { All (λ raw. IsRawTable raw.table) records }
    requires fewer { All (λ raw. length raw.table.props < 2 ^ 32) records }
    requires few { length records < 2 ^ 32 }
    ensures { ArePreparedOf records result }
{
    let mut texts = Vec::new(alloc);
    let mut mols = Vec::new(alloc);
    let mut number = 0;
    let mut records = records.into_vec().into_iter();
    while let Some(raw) = records.next() {
        number += 1;
        let RawRecord { table, text } = raw;
        match prepare(alloc, &table) {
            Ok(mol) => {
                texts.push(text)?;
                mols.push(mol)?;
            }
            Err(PrepareFault::Check { check, item }) => {
                return Err(LoadRefusal::Meaning {
                    number,
                    check,
                    item,
                });
            }
            Err(PrepareFault::Memory) => return Err(LoadRefusal::Memory),
        }
    }
    Ok(Prepared { texts, mols })
}

/// The one record of a file with its molecule, or the first demand on such a file that it doesn't
/// meet.
pub fn one_molecule(alloc: Global, text: &[u8]) -> Result<OneRecord, LoadRefusal>
    ensures molecule { IfOk result (λ one. HoldsMolecule text.now one.mol) }
    ensures text { IfOk result (λ one. HoldsText text.now one.text) }

    ensures refused { IfRefused result (IsFirstFileRefusal text.now) }
{
    let raws = match records_of(alloc, text) {
        Ok(raws) => raws,
        Err(said) => return Err(said),
    };
    only_of(alloc, raws)
}

// The text and the molecule of the only record, or why there is none.
fn only_of(alloc: Global, records: RawRecords) -> Result<OneRecord, LoadRefusal>
    requires keeps { All (λ raw. IsRawTable raw.table) records }
    requires fewer { All (λ raw. length raw.table.props < 2 ^ 32) records }
    requires few { length records < 2 ^ 32 }
    ensures { IsOnlyAnswer records result }
{
    let count = records.as_slice().len();
    if count != 1 {
        return Err(LoadRefusal::NotOne {
            count: count as u32,
        });
    }
    let mut records = records.into_vec().into_iter();
    let Some(raw) = records.next() else {
        unreachable!()
    };
    let RawRecord { table, text } = raw;
    match prepare(alloc, &table) {
        Ok(mol) => Ok(OneRecord { text, mol }),
        Err(PrepareFault::Check { check, item }) => Err(LoadRefusal::Meaning {
            number: 1,
            check,
            item,
        }),
        Err(PrepareFault::Memory) => Err(LoadRefusal::Memory),
    }
}

fn are_same(a: &[u8], b: &[u8]) -> bool
    ensures same { result ≡ true → a.now ≡ b.now }
    ensures other { result ≡ false → a.now ≢ b.now }
{
    a == b
}

/// The molecule of a stored text, or None where the text isn't that of one record which is a
/// molecule.
pub fn molecule_of_text(alloc: Global, text: &[u8]) -> Result<Option<Mol>, Memory>
    requires { length text.now < 2 ^ 32 }
    ensures { IfOk result (IsTextAnswer text.now) }
{
    let raws = match read_sdfile(alloc, text) {
        Ok(raws) => raws,
        Err(TableFault::Bad { line: _ }) => return Ok(None),
        Err(TableFault::V3000 { line: _ }) => return Ok(None),
        Err(TableFault::Memory) => return Err(Memory),
    };
    if raws.as_slice().len() != 1 {
        return Ok(None);
    }
    let raw = &raws.as_slice()[0];
    if !are_same(raw.text.as_slice(), text) {
        return Ok(None);
    }
    match prepare(alloc, &raw.table) {
        Ok(mol) => Ok(Some(mol)),
        Err(PrepareFault::Check { check: _, item: _ }) => Ok(None),
        Err(PrepareFault::Memory) => Err(Memory),
    }
}
