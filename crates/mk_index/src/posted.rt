// The numbers of the rows that have a bit.
ghost use Rattle.std.specs.Prelude.{◌≡◌, ◌≤◌, ◌<◌, ◌+◌, ◌*◌, ◌/◌, ◌++◌, ℕ, IfOk, length};
ghost use Rattle.mk_index.specs.Posted.{posted_at, posted_by};

use mk_model::{Memory, Mol};
use mk_rows::Numbered;
use std::alloc::Global;

/// The numbers of the rows that have a bit, in order.
pub fn posted_rows(
    alloc: Global,
    rows: &[Numbered<Mol>],
    columns: &[u64],
    bit: u32,
) -> Result<Vec<u32>, Memory>
    requires bit { bit < 512 }
    requires size { (i : ℕ) → i < length rows.now → 512 * (i / 64) + 512 ≤ length columns.now }
    ensures { IfOk result (λ numbers. numbers.items ≡ posted_by rows.now columns.now bit (length rows.now)) }
{
    let mut numbers = Vec::new(alloc);
    for i in 0..rows.len() {
        put_posted(&mut numbers, rows, columns, bit, i)?;
    }
    Ok(numbers)
}

// Puts the number of a row where it has the bit.
fn put_posted(
    numbers: &mut Vec<u32>,
    rows: &[Numbered<Mol>],
    columns: &[u64],
    bit: u32,
    i: usize,
) -> Result<(), Memory>
    requires within { i < length rows.now }
    requires bit { bit < 512 }
    requires size { 512 * (i / 64) + 512 ≤ length columns.now }
    ensures { IfOk result (λ _. numbers.new.items ≡ numbers.old.items ++ posted_at rows.now columns.now bit i) }
{
    let word = columns[i / 64 * 512 + bit as usize];
    if (word >> (i % 64)) & 1 == 0 {
        return Ok(());
    }
    numbers.push(rows[i].number)?;
    Ok(())
}
