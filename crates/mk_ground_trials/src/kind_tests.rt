// The kinds in memory, whose contents and failures are given.
use mk_outside::{
    Bytes, CallNumbers, FileFail, FileRow, FileRows, Files, KeepFail, Keeper, MemFiles, MemKeeper,
    MemSink, MemSource, PutFail, ReadEnd, Sink, Source, SureFiles, SureSink, SureSource, Tables,
    Text,
};
use std::alloc::{AllocError, Global};
use std::test::Fail;

fn bytes(alloc: Global, text: &[u8]) -> Result<Bytes, AllocError> {
    Ok(Bytes::of(text.to_vec(alloc)?))
}

fn numbers(alloc: Global, numbers: [u64; 2]) -> Result<CallNumbers, AllocError> {
    let mut failing = CallNumbers::new(alloc);
    failing.push(numbers[0])?;
    failing.push(numbers[1])?;
    Ok(failing)
}

// ---- calls that fail

// Which of six calls fail.
static FAILING: [(&str, [u64; 2], &str); 4] = [
    ("none", [0, 7], "......"),
    ("the first and the last", [1, 6], "x....x"),
    ("one that is named twice", [3, 3], "..x..."),
    ("two in a row", [5, 4], "...xx."),
];

fn mark(failed: bool) -> u8 {
    if failed { b'x' } else { b'.' }
}

fn puts(alloc: Global, failing: [u64; 2]) -> Result<Vec<u8>, AllocError> {
    let mut sink = MemSink::new(Bytes::new(alloc), numbers(alloc, failing)?);
    let mut marks = Vec::new(alloc);
    for _ in 0..6 {
        marks.push(mark(sink.put(b"a") == Err(PutFail::Failed)))?;
    }
    Ok(marks)
}

fn reads(alloc: Global, failing: [u64; 2]) -> Result<Vec<u8>, AllocError> {
    let mut source = MemSource::new(Bytes::new(alloc), numbers(alloc, failing)?);
    let mut marks = Vec::new(alloc);
    for _ in 0..6 {
        marks.push(mark(source.read(&mut [0]).is_err()))?;
    }
    Ok(marks)
}

fn file_reads(alloc: Global, failing: [u64; 2]) -> Result<Vec<u8>, AllocError> {
    let mut files = MemFiles::new(rows(alloc)?, numbers(alloc, failing)?);
    let mut marks = Vec::new(alloc);
    for _ in 0..6 {
        let end = files.read(alloc, "a", 3, &mut Vec::new(alloc));
        marks.push(mark(end == Err(FileFail::Failed)))?;
    }
    Ok(marks)
}

// Loads that fail, between commits that don't.
fn loads(alloc: Global, failing: [u64; 2]) -> Result<Vec<u8>, AllocError> {
    let numbers = numbers(alloc, failing)?;
    let mut keeper = MemKeeper::new(Tables::new(alloc), numbers, CallNumbers::new(alloc));
    let mut marks = Vec::new(alloc);
    for _ in 0..6 {
        marks.push(mark(matches!(&keeper.load(alloc), Err(KeepFail::Failed))))?;
        if keeper.commit(alloc, &[]).is_err() {
            return Ok(Vec::new(alloc));
        }
    }
    Ok(marks)
}

// Commits that fail, between loads that don't.
fn commits(alloc: Global, failing: [u64; 2]) -> Result<Vec<u8>, AllocError> {
    let numbers = numbers(alloc, failing)?;
    let mut keeper = MemKeeper::new(Tables::new(alloc), CallNumbers::new(alloc), numbers);
    let mut marks = Vec::new(alloc);
    for _ in 0..6 {
        marks.push(mark(keeper.commit(alloc, &[]) == Err(KeepFail::Failed)))?;
        if keeper.load(alloc).is_err() {
            return Ok(Vec::new(alloc));
        }
    }
    Ok(marks)
}

#[test]
fn calls_fail_at_their_numbers(rt: HostRuntime) -> Result<(), Fail> {
    let alloc = rt.alloc();
    for (name, failing, want) in FAILING.iter() {
        assert!(rt; fail_so(alloc, *failing, want.as_bytes())?, "{name}");
    }
    Ok(())
}

// Whether the calls of each kind fail so.
fn fail_so(alloc: Global, failing: [u64; 2], want: &[u8]) -> Result<bool, AllocError> {
    let all = [
        puts(alloc, failing)?,
        reads(alloc, failing)?,
        file_reads(alloc, failing)?,
        loads(alloc, failing)?,
        commits(alloc, failing)?,
    ];
    for marks in all.iter() {
        if marks.as_slice() != want {
            return Ok(false);
        }
    }
    Ok(true)
}

// ---- sinks and files

fn rows(alloc: Global) -> Result<FileRows, AllocError> {
    let mut rows = FileRows::new(alloc);
    rows.push(FileRow {
        name: Text::of(String::from_str(alloc, "a")?),
        bytes: bytes(alloc, b"one")?,
    })?;
    rows.push(FileRow {
        name: Text::of(String::from_str(alloc, "a")?),
        bytes: bytes(alloc, b"other")?,
    })?;
    Ok(rows)
}

// How a read ended, with `>` for a file that is too long, and what stands in the buffer then.
fn read_shown<F: Files>(
    files: &mut F,
    alloc: Global,
    name: &str,
    most: usize,
) -> Result<Vec<u8>, AllocError> {
    let mut out = Vec::new(alloc);
    let end = files.read(alloc, name, most, &mut out);
    out.push(match end {
        Ok(ReadEnd::Whole) => b'.',
        Ok(ReadEnd::TooLong) => b'>',
        Err(FileFail::Failed) => b'x',
        Err(FileFail::Memory) => b'm',
    })?;
    Ok(out)
}

// What is read under a name, of files that may fail and of those that never do.
static READS: [(&str, usize, &str, &str); 4] = [
    ("a", 3, "one.", "one."),
    ("a", 2, ">", ">"),
    ("b", 3, "x", "."),
    ("", 0, "x", "."),
];

// Whether this is read under a name, up to so many bytes, by files of the one kind and of the other.
fn are_read(
    alloc: Global,
    name: &str,
    most: usize,
    want: &str,
    surely: &str,
) -> Result<bool, AllocError> {
    let mut files = MemFiles::new(rows(alloc)?, CallNumbers::new(alloc));
    let mut sure = SureFiles::new(rows(alloc)?);
    let shown = read_shown(&mut files, alloc, name, most)?;
    let other = read_shown(&mut sure, alloc, name, most)?;
    Ok(shown.as_slice() == want.as_bytes() && other.as_slice() == surely.as_bytes())
}

#[test]
fn files_in_memory_give_the_first_row(rt: HostRuntime) -> Result<(), Fail> {
    for (name, most, want, surely) in READS.iter() {
        assert!(rt; are_read(rt.alloc(), name, *most, want, surely)?, "{name}");
    }
    Ok(())
}

// Whether pieces stand behind what is there, but for the one whose put fails.
fn are_appended(alloc: Global) -> Result<bool, AllocError> {
    let mut sink = MemSink::new(bytes(alloc, b"a")?, numbers(alloc, [2, 2])?);
    let mut sure = SureSink::new(bytes(alloc, b"a")?);
    let _ = sink.put(b"b");
    let _ = sink.put(b"c");
    let _ = sink.put(b"d");
    let _ = sure.put(b"b");
    Ok(sink.bytes() == b"abd".as_slice() && sure.bytes() == b"ab".as_slice())
}

#[test]
fn sinks_in_memory_append(rt: HostRuntime) -> Result<(), Fail> {
    assert!(rt; are_appended(rt.alloc())?);
    Ok(())
}

// ---- sources

// The numbers that reading `abcde` by pieces of so many bytes gives, up to the end.
static PIECES: [(usize, [usize; 6]); 3] = [
    (1, [1, 1, 1, 1, 1, 0]),
    (2, [2, 2, 1, 0, 0, 0]),
    (16_384, [5, 0, 0, 0, 0, 0]),
];

// Whether the source gives `abcde` by these numbers.
fn gives<S: Source>(
    source: &mut S,
    alloc: Global,
    piece: usize,
    counts: [usize; 6],
) -> Result<bool, AllocError> {
    let mut buf = vec![in alloc; 0u8; piece]?;
    let mut all = Vec::new(alloc);
    for want in counts {
        match source.read(&mut buf) {
            Ok(count) if count == want => all.extend_from_slice(&buf[..count])?,
            _ => return Ok(false),
        }
    }
    Ok(all.as_slice() == b"abcde".as_slice())
}

// Whether a source of the one kind does, and one of the other.
fn both_give(alloc: Global, piece: usize, counts: [usize; 6]) -> Result<bool, AllocError> {
    let mut source = MemSource::new(bytes(alloc, b"abcde")?, CallNumbers::new(alloc));
    let mut sure = SureSource::new(bytes(alloc, b"abcde")?);
    let in_memory = gives(&mut source, alloc, piece, counts)?;
    Ok(in_memory && gives(&mut sure, alloc, piece, counts)?)
}

#[test]
fn sources_in_memory_give_their_bytes_by_pieces(rt: HostRuntime) -> Result<(), Fail> {
    for (piece, counts) in PIECES.iter() {
        assert!(rt;
            both_give(rt.alloc(), *piece, *counts)?,
            "pieces of {piece}"
        );
    }
    Ok(())
}
