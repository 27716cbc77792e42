// The text of a table.
ghost use Rattle.std.specs.Prelude.{◌≡◌, ◌++◌, OnErr, OnOk};
ghost use Rattle.mk_model.specs.Queries.{slots_of};
ghost use Rattle.mk_rtable.specs.Text.{cell, column_head, head_line, members_line, table_text};
ghost use Rattle.std.specs.List.{flat_map};

use crate::TableRow;
use crate::slots::slots_of;
use mk_model::{Memory, Query, Slot};
use mk_text::put_number;
use std::alloc::Global;

/// Appends the text of a table: the line `record` with a column for each site of the root, a line
/// for each row, and the line `end`.
pub fn put_table(
    alloc: Global,
    query: &Query,
    rows: &[TableRow],
    out: &mut Vec<u8>,
) -> Result<(), Memory>
    ensures ok { OnOk result (out.new.items ≡ out.old.items ++ table_text query.now rows.now) }
    ensures err { OnErr result (out.new.items ≡ out.old.items) }
{
    let mut text = Vec::new(alloc);
    put_head(alloc, query, &mut text)?;
    put_rows(alloc, rows, &mut text)?;
    text.extend_from_slice(b"end\n")?;
    out.extend_from_slice(&text)
}

// Appends the first line.
fn put_head(alloc: Global, query: &Query, out: &mut Vec<u8>) -> Result<(), Memory>
    ensures { OnOk result (out.new.items ≡ out.old.items ++ head_line query.now) }
{
    out.extend_from_slice(b"record")?;
    put_sites(alloc, slots_of(query, 0), out)?;
    out.push(b'\n')?;
    Ok(())
}

// Appends the head of a column for each site.
fn put_sites(alloc: Global, slots: &[Slot], out: &mut Vec<u8>) -> Result<(), Memory>
    ensures { OnOk result (out.new.items ≡ out.old.items ++ flat_map column_head slots.now) }
{
    for slot in slots {
        put_site(alloc, slot, out)?;
    }
    Ok(())
}

// Appends the head of a site's column, and nothing for a link.
fn put_site(alloc: Global, slot: &Slot, out: &mut Vec<u8>) -> Result<(), Memory>
    ensures { OnOk result (out.new.items ≡ out.old.items ++ column_head slot.now) }
{
    let Slot::Site { atom, .. } = slot else {
        return Ok(());
    };
    out.extend_from_slice(b"\tsite ")?;
    put_number(alloc, out, u64::from(*atom))
}

// Appends the lines of rows.
fn put_rows(alloc: Global, rows: &[TableRow], out: &mut Vec<u8>) -> Result<(), Memory>
    ensures { OnOk result (out.new.items ≡ out.old.items ++ flat_map members_line rows.now) }
{
    for row in rows {
        put_row(alloc, row, out)?;
    }
    Ok(())
}

// Appends the line of a row.
fn put_row(alloc: Global, row: &TableRow, out: &mut Vec<u8>) -> Result<(), Memory>
    ensures { OnOk result (out.new.items ≡ out.old.items ++ members_line row.now) }
{
    put_number(alloc, out, u64::from(row.number))?;
    put_cells(alloc, row.members.as_slice(), out)?;
    out.push(b'\n')?;
    Ok(())
}

// Appends numbers, each behind a tab.
fn put_cells(alloc: Global, numbers: &[u32], out: &mut Vec<u8>) -> Result<(), Memory>
    ensures { OnOk result (out.new.items ≡ out.old.items ++ flat_map cell numbers.now) }
{
    for number in numbers {
        put_cell(alloc, *number, out)?;
    }
    Ok(())
}

// Appends a number behind a tab.
fn put_cell(alloc: Global, number: u32, out: &mut Vec<u8>) -> Result<(), Memory>
    ensures { OnOk result (out.new.items ≡ out.old.items ++ cell number) }
{
    out.push(b'\t')?;
    put_number(alloc, out, u64::from(number))
}
