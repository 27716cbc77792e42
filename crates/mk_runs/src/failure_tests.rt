// Calls that fail, and what the next run finds.
use crate::test_files::{C, CO, COC, Calls, NO_CALLS, failing_keeper, is_stopped};
use mk_outside::MemKeeper;
use mk_session::Status;
use std::alloc::Global;
use std::test::Fail;

// At which call the input, the files, the output and the loads fail, how the script ends, and what
// is written.
struct Row {
    script: &'static str,
    fails: [u64; 4],
    status: Status,
    wanted: &'static str,
}

const ANSWER: &str = "hit 1 choice map 1 2\nhit 1 choice map 3 2\nend\n";

static FAILURES: [Row; 8] = [
    Row {
        script: "match q m",
        fails: [9, 9, 9, 9],
        status: Status::Done,
        wanted: ANSWER,
    },
    Row {
        script: "match q m",
        fails: [1, 9, 9, 9],
        status: Status::Read,
        wanted: "",
    },
    Row {
        script: "match q m",
        fails: [9, 1, 9, 9],
        status: Status::Read,
        wanted: "",
    },
    Row {
        script: "match q m",
        fails: [9, 2, 9, 9],
        status: Status::Read,
        wanted: "",
    },
    Row {
        script: "match q m",
        fails: [9, 9, 1, 9],
        status: Status::Write,
        wanted: "",
    },
    Row {
        script: "match q m",
        fails: [9, 9, 9, 1],
        status: Status::Store,
        wanted: "",
    },
    Row {
        script: "match q m\nmatch q m",
        fails: [9, 3, 9, 9],
        status: Status::Read,
        wanted: ANSWER,
    },
    Row {
        script: "match q m\nmatch q m",
        fails: [9, 9, 2, 9],
        status: Status::Write,
        wanted: ANSWER,
    },
];

// Whether the script ends so where calls fail, and writes this.
fn is_row_so(alloc: Global, row: &Row) -> Result<bool, Fail> {
    let calls = Calls {
        input: row.fails[0],
        files: row.fails[1],
        output: row.fails[2],
        loads: row.fails[3],
        commits: 0,
    };
    let mut keeper = failing_keeper(alloc, calls)?;
    let wanted = row.wanted.as_bytes();
    is_stopped(
        alloc,
        &mut keeper,
        calls,
        CO,
        COC,
        row.script,
        wanted,
        row.status,
    )
}

#[test]
fn a_failed_call_ends_the_run(rt: HostRuntime) -> Result<(), Fail> {
    let alloc = rt.alloc();
    for row in FAILURES.iter() {
        assert!(rt; is_row_so(alloc, row)?, "{}", row.script);
    }
    Ok(())
}

// Whether the script ends so over this keeper, and writes this.
fn is_kept_run(
    alloc: Global,
    keeper: &mut MemKeeper,
    script: &str,
    wanted: &str,
    status: Status,
) -> Result<bool, Fail> {
    let wanted = wanted.as_bytes();
    is_stopped(alloc, keeper, NO_CALLS, C, C, script, wanted, status)
}

// Whether the third commit fails, a file isn't there in the next run, and the records before are
// read again.
fn is_read_again(alloc: Global, keeper: &mut MemKeeper) -> Result<bool, Fail> {
    let three = "load m\nload m\nload m";
    let two = "loaded 1 first 1\nloaded 1 first 2\n";
    let list = "records 3\nrecord 1\nrecord 2\nrecord 3\nqueries 0\ncursors 0\nnext 4 1\n";
    let stopped = is_kept_run(alloc, keeper, three, two, Status::Store)?;
    let then = "load m\nload none.sdf";
    let missed = is_kept_run(alloc, keeper, then, "loaded 1 first 3\n", Status::Read)?;
    let listed = is_kept_run(alloc, keeper, "list", list, Status::Done)?;
    Ok(stopped && missed && listed)
}

fn is_kept(alloc: Global) -> Result<bool, Fail> {
    let calls = Calls {
        commits: 3,
        ..NO_CALLS
    };
    let mut keeper = failing_keeper(alloc, calls)?;
    is_read_again(alloc, &mut keeper)
}

#[test]
fn a_failed_commit_keeps_what_was_kept(rt: HostRuntime) -> Result<(), Fail> {
    assert!(rt; is_kept(rt.alloc())?);
    Ok(())
}
