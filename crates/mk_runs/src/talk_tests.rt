// Sessions in memory, whose history is told: pairs of bytes that are read and bytes that are put, with
// the input cut in two.
ghost use Rattle.std.specs.Prelude.{None};

use crate::test_files::{CO, COC, files};
use mk_outside::{
    Bytes, CallNumbers, Failed, FileFail, Files, MemFiles, MemSink, Memory, ReadEnd, Source,
    SureFiles, SureKeeper, SureSource, Tables,
};
use mk_session::Status;
use mk_talk::{Event, ToldTalk, hold};
use std::alloc::Global;
use std::test::Fail;

// An input that comes in two pieces.
#[derive(Drop)]
struct Pieces {
    first: SureSource,
    second: SureSource,
}

impl Source for Pieces {
    ghost left = { λ _. None };

    ghost faults = { λ _. 0 };

    fn read(&mut self, buf: &mut [u8]) -> Result<usize, Failed> {
        match self.first.read(buf) {
            Ok(0) => self.second.read(buf),
            answer => answer,
        }
    }
}

fn cut_at(alloc: Global, text: &[u8], at: usize) -> Result<Pieces, Memory> {
    let (first, second) = text.split_at(at.min(text.len()));
    Ok(Pieces {
        first: SureSource::new(Bytes::of(Vec::from_slice(alloc, first)?)),
        second: SureSource::new(Bytes::of(Vec::from_slice(alloc, second)?)),
    })
}

// Files for which there is never memory.
#[derive(Drop)]
struct NoRoom {}

impl Files for NoRoom {
    ghost look_up = { λ _. None };

    ghost faults = { λ _. 0 };

    ghost absences = { λ _. 0 };

    fn read(
        &mut self,
        _alloc: Global,
        _name: &str,
        _most: usize,
        out: &mut Vec<u8>,
    ) -> Result<ReadEnd, FileFail> {
        out.clear();
        Err(FileFail::Memory)
    }
}

// Whether the pieces that were read are this text, and those that were put these bytes.
fn is_history(alloc: Global, events: &[Event], text: &[u8], wanted: &[u8]) -> Result<bool, Memory> {
    let mut heard = Vec::new(alloc);
    let mut said = Vec::new(alloc);
    for event in events {
        match event {
            Event::Got(piece) => heard.extend_from_slice(piece.as_slice())?,
            Event::Put(piece) => said.extend_from_slice(piece.as_slice())?,
            Event::NotGot | Event::PutPart(_) => {}
        }
    }
    Ok(heard.as_slice() == text && said.as_slice() == wanted)
}

// Whether a session over these ends so, and its history is of the text and of what is wanted.
fn is_held_by<F: Files>(
    alloc: Global,
    files: &mut F,
    talk: &mut ToldTalk<Pieces>,
    text: &[u8],
    wanted: &[u8],
    status: Status,
) -> Result<bool, Fail> {
    let mut keeper = SureKeeper::new(Tables::new(alloc));
    let ended = hold(alloc, &[], files, talk, &mut keeper);
    let is_history = is_history(alloc, talk.events(), text, wanted)?;
    Ok(ended == status && talk.is_told() && is_history)
}

// The same of a text that is cut at this place, where this put fails.
fn is_held<F: Files>(
    alloc: Global,
    files: &mut F,
    text: &[u8],
    at: usize,
    failing: CallNumbers,
    wanted: &[u8],
    status: Status,
) -> Result<bool, Fail> {
    let output = MemSink::new(Bytes::new(alloc), failing);
    let mut talk = ToldTalk::new(alloc, cut_at(alloc, text, at)?, output);
    is_held_by(alloc, files, &mut talk, text, wanted, status)
}

// What is read behind the first line, and what is put behind `ready`.
const ROWS: [(&str, &str, &str); 9] = [
    ("nothing", "", ""),
    ("blank lines", "\n   \n\r\n \r\n", ""),
    (
        "no command",
        "lists\n",
        "answer 18 refused\nrefused 1 command\n",
    ),
    (
        "a last line without LF",
        "list",
        "answer 39 done\nrecords 0\nqueries 0\ncursors 0\nnext 1 1\n",
    ),
    (
        "blanks behind the last LF",
        "lists\n  ",
        "answer 18 refused\nrefused 1 command\n",
    ),
    (
        "CR LF",
        "lists\r\nlists\r\n",
        "answer 18 refused\nrefused 1 command\nanswer 18 refused\nrefused 1 command\n",
    ),
    (
        "a file that isn't there changes nothing",
        "load none\nlist\n",
        "answer 0 unread\nanswer 39 done\nrecords 0\nqueries 0\ncursors 0\nnext 1 1\n",
    ),
    (
        "an edit, and what isn't there",
        "load m\n\nremove 1\nshow 1\n",
        "answer 17 done\nloaded 1 first 1\nanswer 10 done\nremoved 1\nanswer 19 refused\nrefused 6 record 1\n",
    ),
    (
        "a search of a query",
        "load m\nquery q q\nsearch q 1\n",
        "answer 17 done\nloaded 1 first 1\nanswer 7 done\nkept q\nanswer 28 done\nhit 1 choice map 1 2\nmore 1\n",
    ),
];

const READY: &[u8] = b"ready records 0 queries 0 cursors 0 next 1 1\n";

fn behind_ready(alloc: Global, wanted: &[u8]) -> Result<Vec<u8>, Memory> {
    let mut whole = Vec::from_slice(alloc, READY)?;
    whole.extend_from_slice(wanted)?;
    Ok(whole)
}

fn is_row_at(alloc: Global, text: &[u8], at: usize, wanted: &[u8]) -> Result<bool, Fail> {
    let mut files = MemFiles::new(files(alloc, CO, COC)?, CallNumbers::new(alloc));
    let none = CallNumbers::new(alloc);
    is_held(alloc, &mut files, text, at, none, wanted, Status::Done)
}

// Whether the row is so, wherever its text is cut.
fn is_row(alloc: Global, text: &[u8], answers: &[u8]) -> Result<bool, Fail> {
    let wanted = behind_ready(alloc, answers)?;
    for at in 0..=text.len() {
        if !is_row_at(alloc, text, at, &wanted)? {
            return Ok(false);
        }
    }
    Ok(true)
}

#[test]
fn lines_are_answered_wherever_they_are_cut(rt: HostRuntime) -> Result<(), Fail> {
    for (name, text, answers) in ROWS {
        assert!(rt;
            is_row(rt.alloc(), text.as_bytes(), answers.as_bytes())?,
            "{name}"
        );
    }
    Ok(())
}

// Whether a line of so many bytes is no command, wherever it is cut, and the next is answered.
fn is_too_long(alloc: Global, size: usize, at: usize) -> Result<bool, Fail> {
    let mut text = vec![in alloc; b' '; size]?;
    text.extend_from_slice(b"\nlists\n")?;
    let refused = "answer 18 refused\nrefused 1 command\n";
    let mut wanted = behind_ready(alloc, refused.as_bytes())?;
    wanted.extend_from_slice(refused.as_bytes())?;
    is_row_at(alloc, &text, at, &wanted)
}

#[test]
fn a_long_line_is_no_command(rt: HostRuntime) -> Result<(), Fail> {
    for at in [0usize, 65_536, 65_537, 65_538] {
        assert!(rt; is_too_long(rt.alloc(), 65_537, at)?, "cut at {at}");
    }
    Ok(())
}

// Whether want of memory in a step is said, and the session goes on.
fn is_memory_said(alloc: Global) -> Result<bool, Fail> {
    let wanted = behind_ready(
        alloc,
        b"answer 0 memory\nanswer 18 refused\nrefused 1 command\n",
    )?;
    let none = CallNumbers::new(alloc);
    is_held(
        alloc,
        &mut NoRoom {},
        b"load m\nlists\n",
        7,
        none,
        &wanted,
        Status::Done,
    )
}

#[test]
fn want_of_memory_is_said(rt: HostRuntime) -> Result<(), Fail> {
    assert!(rt; is_memory_said(rt.alloc())?);
    Ok(())
}

// Whether the session ends where its third put fails, and no line behind is answered.
fn is_put_failed(alloc: Global) -> Result<bool, Fail> {
    let mut third = CallNumbers::new(alloc);
    third.push(3)?;
    let mut files = SureFiles::new(files(alloc, CO, COC)?);
    let wanted = behind_ready(alloc, b"answer 18 refused\nrefused 1 command\n")?;
    let text = b"lists\nlist\nlists\n";
    is_held(alloc, &mut files, text, 17, third, &wanted, Status::Write)
}

#[test]
fn a_failed_put_ends_a_session(rt: HostRuntime) -> Result<(), Fail> {
    assert!(rt; is_put_failed(rt.alloc())?);
    Ok(())
}
