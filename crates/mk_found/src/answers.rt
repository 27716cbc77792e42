// The lines of refusals.
ghost use Rattle.std.specs.Prelude.{◌≡◌, IfOk};
ghost use Rattle.mk_found.specs.Answers.{bad_line_text, bad_query_text, check_text, full_text, long_molecules_text, long_query_text, query_check_text, records_text, v3000_query_text, v3000_text};

use mk_text::{Memory, put_number};
use std::alloc::Global;

/// The refusal of a query's file over its limit.
pub fn long_query(alloc: Global) -> Result<Vec<u8>, Memory>
    ensures { IfOk result (λ text. text.items ≡ long_query_text) }
{
    Vec::from_slice(alloc, b"refused 4 query\n")
}

/// The refusal of a molecules' file over its limit.
pub fn long_molecules(alloc: Global) -> Result<Vec<u8>, Memory>
    ensures { IfOk result (λ text. text.items ≡ long_molecules_text) }
{
    Vec::from_slice(alloc, b"refused 4 molecules\n")
}

/// The refusal of an edit that the library has no room for.
pub fn full(alloc: Global) -> Result<Vec<u8>, Memory>
    ensures { IfOk result (λ text. text.items ≡ full_text) }
{
    Vec::from_slice(alloc, b"refused 5 library full\n")
}

/// The refusal of a molecules' file of so many records.
pub fn not_one(alloc: Global, records: usize) -> Result<Vec<u8>, Memory>
    ensures { IfOk result (λ text. text.items ≡ records_text records) }
{
    let mut text = Vec::from_slice(alloc, b"refused 11 records ")?;
    put_number(alloc, &mut text, records as u64)?;
    text.extend_from_slice(b"\n")?;
    Ok(text)
}

/// The refusal of a molecules' file whose first bad line this is.
pub fn bad_line(alloc: Global, line: usize) -> Result<Vec<u8>, Memory>
    ensures { IfOk result (λ text. text.items ≡ bad_line_text line) }
{
    let mut text = Vec::from_slice(alloc, b"refused 2 molecules line ")?;
    put_number(alloc, &mut text, line as u64)?;
    text.extend_from_slice(b"\n")?;
    Ok(text)
}

/// The same where that line says V3000.
pub fn v3000_line(alloc: Global, line: usize) -> Result<Vec<u8>, Memory>
    ensures { IfOk result (λ text. text.items ≡ v3000_text line) }
{
    let mut text = Vec::from_slice(alloc, b"refused 2 molecules v3000 line ")?;
    put_number(alloc, &mut text, line as u64)?;
    text.extend_from_slice(b"\n")?;
    Ok(text)
}

/// The refusal of a file whose record of this number fails this check first, at this item.
pub fn failed_check(alloc: Global, number: u32, check: u8, item: u32) -> Result<Vec<u8>, Memory>
    ensures { IfOk result (λ text. text.items ≡ check_text number check item) }
{
    let mut text = Vec::from_slice(alloc, b"refused 3 molecules record ")?;
    put_number(alloc, &mut text, u64::from(number))?;
    text.extend_from_slice(b" check V")?;
    put_number(alloc, &mut text, u64::from(check))?;
    text.extend_from_slice(b" item ")?;
    put_number(alloc, &mut text, u64::from(item))?;
    text.extend_from_slice(b"\n")?;
    Ok(text)
}

/// The refusal of a query's file whose first bad line this is.
pub fn bad_query_line(alloc: Global, line: usize) -> Result<Vec<u8>, Memory>
    ensures { IfOk result (λ text. text.items ≡ bad_query_text line) }
{
    let mut text = Vec::from_slice(alloc, b"refused 2 query line ")?;
    put_number(alloc, &mut text, line as u64)?;
    text.extend_from_slice(b"\n")?;
    Ok(text)
}

/// The same where that line says V3000.
pub fn v3000_query_line(alloc: Global, line: usize) -> Result<Vec<u8>, Memory>
    ensures { IfOk result (λ text. text.items ≡ v3000_query_text line) }
{
    let mut text = Vec::from_slice(alloc, b"refused 2 query v3000 line ")?;
    put_number(alloc, &mut text, line as u64)?;
    text.extend_from_slice(b"\n")?;
    Ok(text)
}

/// The refusal of a query that fails this check first, at this table and this item.
pub fn failed_query_check(
    alloc: Global,
    check: u8,
    table: u32,
    item: u32,
) -> Result<Vec<u8>, Memory>
    ensures { IfOk result (λ text. text.items ≡ query_check_text check table item) }
{
    let mut text = Vec::from_slice(alloc, b"refused 3 query check Q")?;
    put_number(alloc, &mut text, u64::from(check))?;
    text.extend_from_slice(b" table ")?;
    put_number(alloc, &mut text, u64::from(table))?;
    text.extend_from_slice(b" item ")?;
    put_number(alloc, &mut text, u64::from(item))?;
    text.extend_from_slice(b"\n")?;
    Ok(text)
}
