// Files within their limits, and what is made of them once they are read.
ghost use Rattle.std.specs.Prelude.{◌≡◌, ◌≢◌, ◌≤◌, List, Option, ℕ, Some, IfOk};
ghost use Rattle.mk_outside.specs.Counts.{Counts};
ghost use Rattle.mk_outside.specs.Told.{is_failed_read};
ghost use Rattle.mk_library.specs.declared.refusal.LoadRefusal.TheVariants as refusal;
ghost use Rattle.mk_kept.specs.QueryText.{IsTextSaid};
ghost use Rattle.mk_found.specs.Files.{IsFoundAs, IsThere, IsWithin};
ghost use Rattle.mk_found.specs.MoleculeFiles.{IsFileLine};
ghost use Rattle.mk_found.specs.QueryFiles.{IsHeldQuery, query_bytes};

use crate::answers::{
    bad_line, bad_query_line, failed_check, failed_query_check, full, long_molecules, long_query,
    not_one, v3000_line, v3000_query_line,
};
use mk_kept::{QueryText, query_of};
use mk_library::LoadRefusal;
use mk_model::Query;
use mk_outside::{Bytes, FileFail, Files, Memory, ReadEnd};
use std::alloc::Global;

/// How many bytes a query's file may have.
pub const QUERY_BYTES: usize = 4_194_304;

/// What is made of a query's file.
#[derive(Drop)]
pub enum HeldQuery {
    /// It holds this query.
    Query(Query),
    /// It is refused with this line.
    Refused(Bytes),
}

/// Reads a file that may have so many bytes. None is a file that has more.
pub fn read_within<F: Files>(
    alloc: Global,
    files: &mut F,
    name: &str,
    most: usize,
) -> Result<Option<Bytes>, FileFail>
    ensures found { IfOk result (IsFoundAs (F.look_up files.old) most name.now) }
    ensures within { IfOk result (IsWithin most) }
    ensures counted { Counts (is_failed_read result) (F.faults files.old) (F.faults files.new) }
    ensures same_files { F.look_up files.new ≡ F.look_up files.old }
    ensures never_falls { F.absences files.old ≤ F.absences files.new }
    ensures absent { IsThere (F.look_up files.old) name.now → F.absences files.new ≡ F.absences files.old }
{
    let mut text = Vec::new(alloc);
    match files.read(alloc, name, most, &mut text)? {
        ReadEnd::TooLong => Ok(None),
        ReadEnd::Whole => Ok(Some(Bytes::of(text))),
    }
}

/// Judges the query's file. None is a file over its limit.
pub fn judge_query(alloc: Global, bytes: &Option<Bytes>) -> Result<HeldQuery, Memory>
    requires { IsWithin query_bytes bytes.now }
    ensures { IfOk result (IsHeldQuery bytes.now) }
{
    let Some(text) = bytes else {
        return Ok(HeldQuery::Refused(Bytes::of(long_query(alloc)?)));
    };
    let said = query_of(alloc, text.as_slice())?;
    judge_said(alloc, said)
}

// The query, or the line with which a text that has none is refused.
fn judge_said(alloc: Global, said: QueryText) -> Result<HeldQuery, Memory>
    ensures { (text : List ℕ) → IsTextSaid text said → IfOk result (IsHeldQuery (Some text)) }
{
    match said {
        QueryText::Compiled(query) => Ok(HeldQuery::Query(query)),
        QueryText::Bad { line } => {
            Ok(HeldQuery::Refused(Bytes::of(bad_query_line(alloc, line)?)))
        }
        QueryText::V3000 { line } => {
            Ok(HeldQuery::Refused(Bytes::of(v3000_query_line(alloc, line)?)))
        }
        QueryText::Fails { check, table, item } => Ok(HeldQuery::Refused(Bytes::of(
            failed_query_check(alloc, check, table, item)?,
        ))),
    }
}

/// The line with which a molecules' file is refused.
pub fn file_line(alloc: Global, said: LoadRefusal) -> Result<Vec<u8>, Memory>
    requires { said ≢ refusal.NoRecord }
    ensures { IfOk result (λ line. IsFileLine said line.items) }
{
    match said {
        LoadRefusal::NoRecord => unreachable!(),
        LoadRefusal::FileLarge => long_molecules(alloc),
        LoadRefusal::Layout { line, v3000: true } => v3000_line(alloc, line),
        LoadRefusal::Layout { line, v3000: false } => bad_line(alloc, line),
        LoadRefusal::NotOne { count } => not_one(alloc, count as usize),
        LoadRefusal::Meaning {
            number,
            check,
            item,
        } => failed_check(alloc, number, check, item),
        LoadRefusal::Full => full(alloc),
        LoadRefusal::Memory => Err(Memory),
    }
}
