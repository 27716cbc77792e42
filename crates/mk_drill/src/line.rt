// The line of the drill.
ghost use Rattle.std.specs.Prelude.{◌≡◌, ◌++◌, ◌%◌, OnErr, OnOk, sum};
ghost use Rattle.mk_drill.specs.Drill.{drill_line, fold};

use mk_model::Key;
use mk_text::{Memory, put_number};
use std::alloc::Global;

/// Appends the line of these hits. Where there is no memory for it, nothing is appended.
pub fn put_drill_line(
    alloc: Global,
    answer: &mut Vec<u8>,
    count: u32,
    hits: &[Key],
) -> Result<(), Memory>
    ensures ok { OnOk result (answer.new.items ≡ answer.old.items ++ drill_line count hits.now) }
    ensures err { OnErr result (answer.new.items ≡ answer.old.items) }
{
    let mut line = Vec::from_slice(alloc, b"drill ")?;
    put_number(alloc, &mut line, u64::from(count))?;
    line.extend_from_slice(b" hits ")?;
    put_number(alloc, &mut line, hits.len() as u64)?;
    line.extend_from_slice(b" fold ")?;
    put_number(alloc, &mut line, fold_of(hits))?;
    line.extend_from_slice(b"\n")?;
    answer.extend_from_slice(&line)
}

// The numbers of the hits, from 1, times the sums of their keys' numbers, modulo 1,000,000.
fn fold_of(hits: &[Key]) -> u64
    ensures { result ≡ fold hits.now }
{
    let mut folded = 0;
    for (i, hit) in hits.iter().enumerate() {
        let number = i as u64 % 1_000_000 + 1;
        folded = (folded + number * sum_of(hit.as_slice())) % 1_000_000;
    }
    folded
}

// The sum of the numbers modulo 1,000,000.
fn sum_of(numbers: &[u32]) -> u64
    ensures { result ≡ sum numbers.now % 1000000 }
{
    let mut total = 0;
    for number in numbers {
        total = (total + u64::from(*number)) % 1_000_000;
    }
    total
}
