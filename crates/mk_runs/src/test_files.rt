// Files in memory, and runs over them. The shorthand is that of docs/TESTING.md, "Tables of tests".
use mk_fixtures::molfile_of_sketch;
use mk_outside::{
    Bytes, CallNumbers, FileRow, FileRows, Files, Keeper, MemFiles, MemKeeper, MemSink, MemSource,
    Memory, Source, SureSink, SureSource, Tables, Text,
};
use mk_session::{Status, top};
use std::alloc::Global;
use std::test::Fail;

// What a file holds: the molfile of a sketch, or a text as it stands.
#[derive(Clone, Copy)]
pub enum Content {
    Drawn(&'static str),
    Written(&'static str),
}

pub use Content::{Drawn, Written};

// A carbon.
pub const C: Content = Drawn("C |");

// A carbon and an oxygen with a bond.
pub const CO: Content = Drawn("C O | 1-2");

// Methoxymethane.
pub const COC: Content = Drawn("C O C | 1-2 2-3");

pub fn bytes_of(alloc: Global, held: Content) -> Result<Bytes, Fail> {
    Ok(Bytes::of(match held {
        Drawn(sketch) => molfile_of_sketch(alloc, sketch)?,
        Written(text) => text.as_bytes().to_vec(alloc)?,
    }))
}

fn file(alloc: Global, name: &str, held: Content) -> Result<FileRow, Fail> {
    Ok(FileRow {
        name: Text::of(String::from_str(alloc, name)?),
        bytes: bytes_of(alloc, held)?,
    })
}

pub fn files(alloc: Global, query: Content, molecule: Content) -> Result<FileRows, Fail> {
    let mut rows = FileRows::new(alloc);
    rows.push(file(alloc, "q", query)?)?;
    rows.push(file(alloc, "m", molecule)?)?;
    Ok(rows)
}

// How a run ended and what it wrote are as wanted.
fn is_ended(ended: Status, status: Status, written: &[u8], wanted: &[u8]) -> Result<bool, Fail> {
    if ended == Status::Memory {
        return Err(Fail::from(Memory));
    }
    Ok(ended == status && written == wanted)
}

// Whether the script ends so over these files and this keeper, and writes this. Each object is made
// in a function of its own, since the prover goes through all that is let go at each way out.
pub fn is_run_over<F: Files, K: Keeper>(
    alloc: Global,
    files: &mut F,
    keeper: &mut K,
    script: &str,
    wanted: &str,
    status: Status,
) -> Result<bool, Fail> {
    let mut input = SureSource::new(Bytes::of(script.as_bytes().to_vec(alloc)?));
    is_run_from(alloc, files, &mut input, keeper, wanted, status)
}

fn is_run_from<F: Files, S: Source, K: Keeper>(
    alloc: Global,
    files: &mut F,
    input: &mut S,
    keeper: &mut K,
    wanted: &str,
    status: Status,
) -> Result<bool, Fail> {
    let mut output = SureSink::new(Bytes::new(alloc));
    let ended = top(alloc, &[], files, input, &mut output, keeper);
    is_ended(ended, status, output.bytes(), wanted.as_bytes())
}

// ---- calls that fail

// Which call of each object fails, by its number; 0 where none does.
#[derive(Clone, Copy)]
pub struct Calls {
    pub input: u64,
    pub files: u64,
    pub output: u64,
    pub loads: u64,
    pub commits: u64,
}

// No call fails.
pub const NO_CALLS: Calls = Calls {
    input: 0,
    files: 0,
    output: 0,
    loads: 0,
    commits: 0,
};

// The number of the one call that fails, or none where it is 0.
fn failing(alloc: Global, number: u64) -> Result<CallNumbers, Memory> {
    let mut numbers = CallNumbers::new(alloc);
    if number > 0 {
        numbers.push(number)?;
    }
    Ok(numbers)
}

// An empty keeper whose calls fail so.
pub fn failing_keeper(alloc: Global, calls: Calls) -> Result<MemKeeper, Memory> {
    let loads = failing(alloc, calls.loads)?;
    let commits = failing(alloc, calls.commits)?;
    Ok(MemKeeper::new(Tables::new(alloc), loads, commits))
}

fn failing_files(
    alloc: Global,
    calls: Calls,
    query: Content,
    molecule: Content,
) -> Result<MemFiles, Fail> {
    let numbers = failing(alloc, calls.files)?;
    Ok(MemFiles::new(files(alloc, query, molecule)?, numbers))
}

fn failing_input(alloc: Global, calls: Calls, script: &str) -> Result<MemSource, Memory> {
    let numbers = failing(alloc, calls.input)?;
    let text = script.as_bytes().to_vec(alloc)?;
    Ok(MemSource::new(Bytes::of(text), numbers))
}

// Whether the script ends so over the files q and m and this keeper, where calls fail, and writes
// this.
pub fn is_stopped(
    alloc: Global,
    keeper: &mut MemKeeper,
    calls: Calls,
    query: Content,
    molecule: Content,
    script: &str,
    wanted: &[u8],
    status: Status,
) -> Result<bool, Fail> {
    let mut files = failing_files(alloc, calls, query, molecule)?;
    is_stopped_over(alloc, &mut files, keeper, calls, script, wanted, status)
}

fn is_stopped_over(
    alloc: Global,
    files: &mut MemFiles,
    keeper: &mut MemKeeper,
    calls: Calls,
    script: &str,
    wanted: &[u8],
    status: Status,
) -> Result<bool, Fail> {
    let mut input = failing_input(alloc, calls, script)?;
    is_stopped_from(alloc, files, &mut input, keeper, calls, wanted, status)
}

fn is_stopped_from(
    alloc: Global,
    files: &mut MemFiles,
    input: &mut MemSource,
    keeper: &mut MemKeeper,
    calls: Calls,
    wanted: &[u8],
    status: Status,
) -> Result<bool, Fail> {
    let numbers = failing(alloc, calls.output)?;
    let mut output = MemSink::new(Bytes::new(alloc), numbers);
    let ended = top(alloc, &[], files, input, &mut output, keeper);
    is_ended(ended, status, output.bytes(), wanted)
}
