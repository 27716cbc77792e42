// The real input, the real output and the real files. They tell what their std parts tell, and
// those of the system tell nothing.
ghost use Rattle.std.specs.Prelude.{◌≡◌, ◌≤◌, [], length, None};

use crate::causes::{Cause, cause_of};
use crate::streams::{put_whole, read_some, read_up_to};
use crate::{Failed, FileFail, Files, PutFail, ReadEnd, Sink, Source};
use std::alloc::Global;
use std::fs::File;
use std::io::{Read, Stdin, Stdout, Write};
use std::rt;

/// A reader of std, standard input where none is named.
#[derive(Drop)]
pub struct StdSource<R: Read = Stdin> {
    reader: R,
    faults: u64,
}

impl StdSource {
    /// Standard input.
    pub fn new(rt: &HostRuntime) -> StdSource
        ensures { result.faults ≡ 0 }
    {
        StdSource::over(rt.stdin())
    }
}

impl<R: Read> StdSource<R> {
    pub fn over(reader: R) -> StdSource<R>
        ensures reader { result.reader ≡ reader }
        ensures faults { result.faults ≡ 0 }
    {
        StdSource { reader, faults: 0 }
    }
}

impl<R: Read> Source for StdSource<R> {
    ghost left = { λ s. R.remaining s.reader };

    ghost faults = { λ s. s.faults };

    fn read(&mut self, buf: &mut [u8]) -> Result<usize, Failed> {
        let read = read_some(&mut self.reader, buf);
        if read.is_err() {
            self.faults = self.faults.saturating_add(1);
        }
        read
    }
}

/// A writer of std, standard output where none is named.
#[derive(Drop)]
pub struct StdSink<W: Write = Stdout> {
    writer: W,
    faults: u64,
}

impl StdSink {
    /// Standard output.
    pub fn new(rt: &HostRuntime) -> StdSink
        ensures { result.faults ≡ 0 }
    {
        StdSink::over(rt.stdout())
    }
}

impl<W: Write> StdSink<W> {
    pub fn over(writer: W) -> StdSink<W>
        ensures writer { result.writer ≡ writer }
        ensures faults { result.faults ≡ 0 }
    {
        StdSink { writer, faults: 0 }
    }
}

impl<W: Write> Sink for StdSink<W> {
    ghost so_far = { λ s. W.contents s.writer };

    ghost faults = { λ s. s.faults };

    fn put(&mut self, piece: &[u8]) -> Result<(), PutFail> {
        let put = put_whole(&mut self.writer, piece);
        if let Err(PutFail::Failed) = put {
            self.faults = self.faults.saturating_add(1);
        }
        put
    }
}

/// The files of the system.
#[derive(Drop)]
pub struct DiskFiles<R: rt::Files> {
    rt: R,
    faults: u64,
    absences: u64,
}

impl<R: rt::Files> DiskFiles<R> {
    pub fn new(rt: R) -> DiskFiles<R>
        ensures faults { result.faults ≡ 0 }
        ensures absences { result.absences ≡ 0 }
    {
        DiskFiles {
            rt,
            faults: 0,
            absences: 0,
        }
    }
}

// Why a file wasn't read.
enum Miss {
    Absent,
    Fail(FileFail),
}

// Opens the file and reads it.
fn read_file<R: rt::Files>(
    rt: &R,
    name: &str,
    most: usize,
    out: &mut Vec<u8>,
) -> Result<ReadEnd, Miss>
    requires { out.old.items ≡ [] }
    ensures { length out.new.items ≤ most }
{
    match File::open(rt, name) {
        Ok(mut file) => read_up_to(&mut file, most, out).map_err(Miss::Fail),
        Err(error) => Err(match cause_of(&error) {
            Cause::Absent => Miss::Absent,
            Cause::Memory => Miss::Fail(FileFail::Memory),
            _ => Miss::Fail(FileFail::Failed),
        }),
    }
}

impl<R: rt::Files> Files for DiskFiles<R> {
    ghost look_up = { λ _. None };

    ghost faults = { λ f. f.faults };

    ghost absences = { λ f. f.absences };

    fn read(
        &mut self,
        _alloc: Global,
        name: &str,
        most: usize,
        out: &mut Vec<u8>,
    ) -> Result<ReadEnd, FileFail> {
        out.clear();
        let end = read_file(&self.rt, name, most, out);
        if let Ok(ReadEnd::Whole) = end {
            return Ok(ReadEnd::Whole);
        }
        out.clear();
        match end {
            Ok(_) => return Ok(ReadEnd::TooLong),
            Err(Miss::Fail(FileFail::Memory)) => return Err(FileFail::Memory),
            Err(Miss::Absent) => self.absences = self.absences.saturating_add(1),
            Err(Miss::Fail(FileFail::Failed)) => {}
        }
        self.faults = self.faults.saturating_add(1);
        Err(FileFail::Failed)
    }
}
