// Two scripts over which each call of each object fails in turn: how they end, what is written, and
// what is kept.
use crate::test_files::{
    C, CO, Calls, Content, NO_CALLS, Written, failing_keeper, files, is_run_over, is_stopped,
};
use mk_outside::{MemKeeper, Memory, SureFiles};
use mk_session::Status;
use std::alloc::Global;
use std::test::Fail;

// A script over the files q and m, and its answers.
struct Script {
    text: &'static str,
    query: Content,
    molecule: Content,
    answers: &'static [&'static str],
}

// Six commands over a carbon.
static EDITS: Script = Script {
    text: "load m\nquery q q\nreplace 1 m\nshow 1\nforget q\nremove 1\n",
    query: C,
    molecule: Written("\n\n\n  1  0\n                               C\nM  END\n"),
    answers: &[
        "loaded 1 first 1\n",
        "kept q\n",
        "replaced 1\n",
        "record 1 6\n\n\n\n  1  0\n                               C\nM  END\n",
        "forgot q\n",
        "removed 1\n",
    ],
};

// A search that goes on once its first record is gone. Methoxymethane, and methanol drawn from
// either end.
static SEARCHES: Script = Script {
    text: "load m\nquery q q\nsearch q 2\nremove 1\nresume 1 10\n",
    query: CO,
    molecule: Written(concat!(
        "\n\n\n  3  2\n                               C\n                               O\n                               C\n  1  2  1\n  2  3  1\nM  END\n$$$$\n",
        "\n\n\n  2  1\n                               C\n                               O\n  1  2  1\nM  END\n$$$$\n",
        "\n\n\n  2  1\n                               O\n                               C\n  1  2  1\nM  END\n$$$$\n"
    )),
    answers: &[
        "loaded 3 first 1\n",
        "kept q\n",
        "hit 1 choice map 1 2\nhit 1 choice map 3 2\nmore 1\n",
        "removed 1\n",
        "hit 2 choice map 1 2\nhit 3 choice map 2 1\nend\n",
    ],
};

// What `list` answers once some of the commands are done.
const NEW: &str = "records 0\nqueries 0\ncursors 0\nnext 1 1\n";

const LOADED: &str = "records 1\nrecord 1\nqueries 0\ncursors 0\nnext 2 1\n";

const KEPT: &str = "records 1\nrecord 1\nqueries 1\nquery q\ncursors 0\nnext 2 1\n";

const REMOVED: &str = "records 0\nqueries 0\ncursors 0\nnext 2 1\n";

const THREE: &str = "records 3\nrecord 1\nrecord 2\nrecord 3\nqueries 0\ncursors 0\nnext 4 1\n";

const WITH_QUERY: &str =
    "records 3\nrecord 1\nrecord 2\nrecord 3\nqueries 1\nquery q\ncursors 0\nnext 4 1\n";

const SAVED: &str =
    "records 3\nrecord 1\nrecord 2\nrecord 3\nqueries 1\nquery q\ncursors 1\ncursor 1 q\nnext 4 2\n";

const OF_TWO: &str =
    "records 2\nrecord 2\nrecord 3\nqueries 1\nquery q\ncursors 1\ncursor 1 q\nnext 4 2\n";

const ENDED: &str = "records 2\nrecord 2\nrecord 3\nqueries 1\nquery q\ncursors 0\nnext 4 2\n";

// Of whom a call fails.
#[derive(Clone, Copy)]
enum Object {
    Input,
    Files,
    Output,
    Loads,
    Commits,
}

// Which call fails in the first script, how the run ends, how many answers are written, and what is
// kept.
static FAULTS: [(Object, u64, Status, usize, &str); 20] = [
    (Object::Input, 1, Status::Read, 0, NEW),
    (Object::Input, 2, Status::Read, 0, NEW),
    (Object::Input, 3, Status::Done, 6, REMOVED),
    (Object::Files, 1, Status::Read, 0, NEW),
    (Object::Files, 2, Status::Read, 1, LOADED),
    (Object::Files, 3, Status::Read, 2, KEPT),
    (Object::Files, 4, Status::Done, 6, REMOVED),
    (Object::Output, 1, Status::Write, 0, LOADED),
    (Object::Output, 2, Status::Write, 1, KEPT),
    (Object::Output, 3, Status::Write, 2, KEPT),
    (Object::Output, 4, Status::Write, 3, KEPT),
    (Object::Output, 5, Status::Write, 4, LOADED),
    (Object::Output, 6, Status::Write, 5, REMOVED),
    (Object::Output, 7, Status::Done, 6, REMOVED),
    (Object::Loads, 1, Status::Store, 0, NEW),
    (Object::Commits, 1, Status::Store, 0, NEW),
    (Object::Commits, 2, Status::Store, 1, LOADED),
    (Object::Commits, 3, Status::Store, 2, KEPT),
    (Object::Commits, 4, Status::Store, 4, KEPT),
    (Object::Commits, 5, Status::Store, 5, LOADED),
];

// The same of the second.
static SEARCH_FAULTS: [(Object, u64, Status, usize, &str); 15] = [
    (Object::Input, 1, Status::Read, 0, NEW),
    (Object::Files, 1, Status::Read, 0, NEW),
    (Object::Files, 2, Status::Read, 1, THREE),
    (Object::Files, 3, Status::Done, 5, ENDED),
    (Object::Output, 1, Status::Write, 0, THREE),
    (Object::Output, 2, Status::Write, 1, WITH_QUERY),
    (Object::Output, 3, Status::Write, 2, SAVED),
    (Object::Output, 4, Status::Write, 3, OF_TWO),
    (Object::Output, 5, Status::Write, 4, ENDED),
    (Object::Loads, 1, Status::Store, 0, NEW),
    (Object::Commits, 1, Status::Store, 0, NEW),
    (Object::Commits, 2, Status::Store, 1, THREE),
    (Object::Commits, 3, Status::Store, 2, WITH_QUERY),
    (Object::Commits, 4, Status::Store, 3, SAVED),
    (Object::Commits, 5, Status::Store, 4, OF_TWO),
];

// This call of this object fails, and no other.
fn calls_of(failed: Object, call: u64) -> Calls {
    let mut calls = NO_CALLS;
    match failed {
        Object::Input => calls.input = call,
        Object::Files => calls.files = call,
        Object::Output => calls.output = call,
        Object::Loads => calls.loads = call,
        Object::Commits => calls.commits = call,
    }
    calls
}

// The first so many answers.
fn first_answers(alloc: Global, answers: &[&'static str], count: usize) -> Result<Vec<u8>, Memory> {
    let mut text = Vec::new(alloc);
    for answer in answers.iter().take(count) {
        text.extend_from_slice(answer.as_bytes())?;
    }
    Ok(text)
}

// Whether `list` over the keeper writes this.
fn is_kept(alloc: Global, keeper: &mut MemKeeper, wanted: &str) -> Result<bool, Fail> {
    let mut files = SureFiles::new(files(alloc, C, C)?);
    is_run_over(alloc, &mut files, keeper, "list", wanted, Status::Done)
}

// Whether the script ends so where the call fails, with so many answers written, and this is kept.
fn is_so(
    alloc: Global,
    script: &Script,
    failed: Object,
    call: u64,
    status: Status,
    count: usize,
    kept: &str,
) -> Result<bool, Fail> {
    let calls = calls_of(failed, call);
    let mut keeper = failing_keeper(alloc, calls)?;
    is_so_over(alloc, &mut keeper, script, calls, status, count, kept)
}

fn is_so_over(
    alloc: Global,
    keeper: &mut MemKeeper,
    script: &Script,
    calls: Calls,
    status: Status,
    count: usize,
    kept: &str,
) -> Result<bool, Fail> {
    let answers = first_answers(alloc, script.answers, count)?;
    let is_written = is_stopped(
        alloc,
        keeper,
        calls,
        script.query,
        script.molecule,
        script.text,
        &answers,
        status,
    )?;
    Ok(is_written && is_kept(alloc, keeper, kept)?)
}

#[test]
fn each_call_fails_in_turn(rt: HostRuntime) -> Result<(), Fail> {
    let alloc = rt.alloc();
    let mut row = 0usize;
    for (failed, call, status, count, kept) in FAULTS.iter() {
        row = row.saturating_add(1);
        assert!(rt;
            is_so(alloc, &EDITS, *failed, *call, *status, *count, kept)?,
            "row {row}"
        );
    }
    Ok(())
}

#[test]
fn each_call_of_a_search_fails_in_turn(rt: HostRuntime) -> Result<(), Fail> {
    let alloc = rt.alloc();
    let mut row = 0usize;
    for (failed, call, status, count, kept) in SEARCH_FAULTS.iter() {
        row = row.saturating_add(1);
        assert!(rt;
            is_so(alloc, &SEARCHES, *failed, *call, *status, *count, kept)?,
            "row {row}"
        );
    }
    Ok(())
}

// Whether a match ends well where the third read of a file would fail.
fn is_read_once(alloc: Global) -> Result<bool, Fail> {
    let calls = Calls {
        files: 3,
        ..NO_CALLS
    };
    let mut keeper = failing_keeper(alloc, calls)?;
    let wanted = b"hit 1 choice map 1\nend\n";
    is_stopped(
        alloc,
        &mut keeper,
        calls,
        C,
        C,
        "match q m",
        wanted,
        Status::Done,
    )
}

#[test]
fn no_file_is_read_twice(rt: HostRuntime) -> Result<(), Fail> {
    assert!(rt; is_read_once(rt.alloc())?);
    Ok(())
}
