// The adapters over a reader and a writer that give and take one byte a call and fail at given
// calls, and over the real ones.
use mk_outside::streams::{put_whole, read_up_to};
use mk_outside::{DiskFiles, FileFail, Files, PutFail, ReadEnd, Sink, Source, StdSink, StdSource};
use std::alloc::{AllocError, Global};
use std::fs::File;
use std::io::{Error, ErrorKind, Read, Write};
use std::test::Fail;
use std::{fs, io};

// Which call is interrupted, which one fails, and whether it fails for want of memory.
#[derive(Clone, Copy)]
struct Trouble(u64, u64, bool);

impl Trouble {
    fn at(&self, call: u64) -> io::Result<()> {
        if call == self.0 {
            return Err(Error::from(ErrorKind::Interrupted));
        }
        if call != self.1 {
            return Ok(());
        }
        if self.2 {
            return Err(Error::from(ErrorKind::OutOfMemory));
        }
        Err(Error::from(ErrorKind::BrokenPipe))
    }
}

// Gives one byte a call.
#[derive(Drop)]
struct Dribble {
    bytes: &'static [u8],
    calls: u64,
    trouble: Trouble,
}

impl Read for Dribble {
    fn read(&mut self, buf: &mut [u8]) -> io::Result<usize> {
        self.calls = self.calls.saturating_add(1);
        self.trouble.at(self.calls)?;
        if buf.is_empty() || self.bytes.is_empty() {
            return Ok(0);
        }
        buf[0] = self.bytes[0];
        self.bytes = &self.bytes[1..];
        Ok(1)
    }
}

// Takes one byte a call, and `|` for each flush.
#[derive(Drop)]
struct Trickle {
    taken: Vec<u8>,
    calls: u64,
    trouble: Trouble,
}

impl Write for Trickle {
    fn write(&mut self, buf: &[u8]) -> io::Result<usize> {
        self.calls = self.calls.saturating_add(1);
        self.trouble.at(self.calls)?;
        if buf.is_empty() || self.taken.push(buf[0]).is_err() {
            return Ok(0);
        }
        Ok(1)
    }

    fn flush(&mut self) -> io::Result<()> {
        self.calls = self.calls.saturating_add(1);
        let _ = self.taken.push(b'|');
        self.trouble.at(self.calls)
    }
}

// ---- `abc` is put

// What the writer took, and how that ended: `x` is a failure, `m` want of memory.
static PUTS: [(&str, Trouble, &str); 8] = [
    ("no trouble", Trouble(0, 0, false), "abc|."),
    ("a write is interrupted", Trouble(2, 0, false), "abc|."),
    ("the flush is interrupted", Trouble(4, 0, false), "abc||."),
    ("the first write fails", Trouble(0, 1, false), "x"),
    ("the last write fails", Trouble(1, 4, false), "abx"),
    ("the flush fails", Trouble(0, 4, false), "abc|x"),
    ("no memory for the first byte", Trouble(1, 2, true), "m"),
    ("no memory for the second", Trouble(0, 2, true), "ax"),
];

fn put_shown(alloc: Global, trouble: Trouble) -> Result<Vec<u8>, AllocError> {
    let mut writer = Trickle {
        taken: Vec::new(alloc),
        calls: 0,
        trouble,
    };
    let put = put_whole(&mut writer, b"abc");
    let Trickle { taken, .. } = writer;
    let mut shown = taken;
    shown.push(match put {
        Ok(()) => b'.',
        Err(PutFail::Failed) => b'x',
        Err(PutFail::Memory) => b'm',
    })?;
    Ok(shown)
}

#[test]
fn pieces_are_put_whole(rt: HostRuntime) -> Result<(), Fail> {
    for (name, trouble, want) in PUTS.iter() {
        assert!(rt;
            put_shown(rt.alloc(), *trouble)?.as_slice() == want.as_bytes(),
            "{name}"
        );
    }
    Ok(())
}

// ---- `abc` is read

fn reader_of(trouble: Trouble) -> Dribble {
    Dribble {
        bytes: b"abc",
        calls: 0,
        trouble,
    }
}

// What six reads give: a byte, `.` at the end, `x` after a failure.
static READS: [(&str, Trouble, &str); 4] = [
    ("no trouble", Trouble(0, 0, false), "abc..."),
    ("an interruption", Trouble(2, 0, false), "abc..."),
    ("a failure between bytes", Trouble(1, 3, false), "axbc.."),
    ("a failure at the end", Trouble(0, 4, true), "abcx.."),
];

fn reads_shown(alloc: Global, trouble: Trouble) -> Result<Vec<u8>, AllocError> {
    let mut source = StdSource::over(reader_of(trouble));
    let mut shown = Vec::new(alloc);
    for _ in 0..6 {
        let mut buf = [0; 2];
        shown.push(match source.read(&mut buf) {
            Ok(0) => b'.',
            Ok(_) => buf[0],
            Err(_) => b'x',
        })?;
    }
    Ok(shown)
}

#[test]
fn sources_read_on_after_a_failure(rt: HostRuntime) -> Result<(), Fail> {
    for (name, trouble, want) in READS.iter() {
        assert!(rt;
            reads_shown(rt.alloc(), *trouble)?.as_slice() == want.as_bytes(),
            "{name}"
        );
    }
    Ok(())
}

// What was read of at most so many bytes, how it ended, with `>` where there are more, and how many
// bytes the reader has still.
static FILLS: [(&str, Trouble, usize, &str); 6] = [
    ("no trouble", Trouble(0, 0, false), 3, "abc.0"),
    ("an interruption", Trouble(3, 0, false), 3, "abc.0"),
    ("over the limit", Trouble(1, 0, false), 1, "a>1"),
    ("a failure behind a byte", Trouble(0, 2, false), 3, "ax2"),
    ("a failure at the end", Trouble(0, 4, false), 3, "abcx0"),
    ("no memory behind a byte", Trouble(0, 2, true), 3, "am2"),
];

fn fill_shown(alloc: Global, trouble: Trouble, most: usize) -> Result<Vec<u8>, AllocError> {
    let mut reader = reader_of(trouble);
    let mut shown = Vec::new(alloc);
    let end = read_up_to(&mut reader, most, &mut shown);
    shown.push(match end {
        Ok(ReadEnd::Whole) => b'.',
        Ok(ReadEnd::TooLong) => b'>',
        Err(FileFail::Failed) => b'x',
        Err(FileFail::Memory) => b'm',
    })?;
    shown.push(b'0' + (reader.bytes.len() % 10) as u8)?;
    Ok(shown)
}

#[test]
fn readers_are_read_up_to_a_limit(rt: HostRuntime) -> Result<(), Fail> {
    for (name, trouble, most, want) in FILLS.iter() {
        let shown = fill_shown(rt.alloc(), *trouble, *most)?;
        assert!(rt; shown.as_slice() == want.as_bytes(), "{name}");
    }
    Ok(())
}

// ---- the real ones

// Three chunks, whose ends differ.
fn long_text(alloc: Global) -> Result<Vec<u8>, AllocError> {
    let mut text = Vec::new(alloc);
    for i in 0..40_000u32 {
        text.push((i % 251) as u8)?;
    }
    Ok(text)
}

// Whether the file of 40,000 bytes is read up to its length, and not up to one byte less.
fn is_read_to_its_limit<F: Files>(files: &mut F, alloc: Global, text: &[u8]) -> bool {
    let mut out = Vec::new(alloc);
    let whole = files.read(alloc, "read_me", 40_000, &mut out);
    let is_whole = whole == Ok(ReadEnd::Whole) && out.as_slice() == text;
    let long = files.read(alloc, "read_me", 39_999, &mut out);
    is_whole && long == Ok(ReadEnd::TooLong) && out.is_empty()
}

// Whether a name that isn't there and a folder can't be read.
fn others_fail<F: Files>(files: &mut F, alloc: Global) -> bool {
    let mut out = Vec::new(alloc);
    let absent = files.read(alloc, "read_me", 12, &mut out);
    let folder = files.read(alloc, ".", 12, &mut out);
    absent == Err(FileFail::Failed) && folder == Err(FileFail::Failed)
}

#[test]
fn files_of_the_system_are_read(rt: HostRuntime) -> Result<(), Fail> {
    let alloc = rt.alloc();
    let text = long_text(alloc)?;
    fs::write(&rt, "read_me", text.as_slice())?;
    let mut files = DiskFiles::new(rt);
    let there = is_read_to_its_limit(&mut files, alloc, text.as_slice());
    fs::remove_file(&rt, "read_me")?;
    assert!(rt; there && others_fail(&mut files, alloc));
    Ok(())
}

#[test]
fn real_streams_are_used(rt: HostRuntime) -> Result<(), Fail> {
    let mut output = StdSink::new(&rt);
    let put = output.put(b"a piece\n").is_ok();
    let mut input = StdSource::new(&rt);
    let nothing = input.read(&mut []) == Ok(0);
    fs::write(&rt, "read_me_too", b"abc".as_slice())?;
    let mut file = StdSource::over(File::open(&rt, "read_me_too")?);
    let all = file.read(&mut [0; 5]) == Ok(3);
    fs::remove_file(&rt, "read_me_too")?;
    assert!(rt; put && nothing && all);
    Ok(())
}
