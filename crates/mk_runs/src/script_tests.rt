// A script with a line of each kind, and what is left of a long one.
use crate::test_files::{CO, COC, files, is_run_over};
use mk_outside::{
    Bytes, FileRows, Memory, Source, SureFiles, SureKeeper, SureSink, SureSource, Tables,
};
use mk_session::{Status, top};
use std::alloc::Global;
use std::test::Fail;

// Two maps, an edit of each kind, a record as it was kept, and one line that is refused.
const SESSION: &str =
    "match q m\nload m\nquery ether q\nreplace 1 q\n\nshow 1\nshow 2\nremove 1\nforget ether\nlist\n";

const SESSION_ANSWER: &str =
    "hit 1 choice map 1 2\nhit 1 choice map 3 2\nend\nloaded 1 first 1\nkept ether\nreplaced 1\nrecord 1 8\n\n\n\n  2  1  0  0  0  0            999 V2000\n    0.0000    0.0000    0.0000 C   0  0  0  0  0  0\n    0.0000    0.0000    0.0000 O   0  0  0  0  0  0\n  1  2  1  0  0  0\nM  END\nrefused 6 record 2\nremoved 1\nforgot ether\nrecords 0\nqueries 0\ncursors 0\nnext 2 1\n";

fn is_answered(alloc: Global, files: &mut SureFiles) -> Result<bool, Fail> {
    let mut keeper = SureKeeper::new(Tables::new(alloc));
    let status = Status::Refused;
    is_run_over(alloc, files, &mut keeper, SESSION, SESSION_ANSWER, status)
}

fn is_each_line_answered(alloc: Global) -> Result<bool, Fail> {
    let mut files = SureFiles::new(files(alloc, CO, COC)?);
    is_answered(alloc, &mut files)
}

#[test]
fn a_session_answers_each_line(rt: HostRuntime) -> Result<(), Fail> {
    assert!(rt; is_each_line_answered(rt.alloc())?);
    Ok(())
}

// Whether a script is too long, and five bytes of it are left.
fn is_left(alloc: Global) -> Result<bool, Memory> {
    let mut input = SureSource::new(Bytes::of(vec![in alloc; b' '; 16_777_216 + 4_096 + 5]?));
    let mut files = SureFiles::new(FileRows::new(alloc));
    let mut output = SureSink::new(Bytes::new(alloc));
    let mut keeper = SureKeeper::new(Tables::new(alloc));
    let ended = top(alloc, &[], &mut files, &mut input, &mut output, &mut keeper);
    let mut rest = [0u8; 6];
    Ok(ended == Status::ScriptLong && input.read(&mut rest) == Ok(5))
}

// Behind its limit one read of 4,096 bytes is taken of a script, and the rest is left.
#[test]
fn a_long_script_is_read_no_further(rt: HostRuntime) -> Result<(), Fail> {
    assert!(rt; is_left(rt.alloc())?);
    Ok(())
}
