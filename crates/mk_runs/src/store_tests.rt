// Runs over tables in memory: searches that go on, commits that fail, and rows that no file has.
use crate::test_files::{
    C, CO, COC, Calls, Content, NO_CALLS, bytes_of, failing_keeper, files, is_run_over,
};
use mk_outside::{
    Bytes, CursorRow, Keeper, MemKeeper, Memory, Place, QueryRow, SureFiles, SureKeeper, Tables,
};
use mk_session::Status;
use std::alloc::Global;
use std::test::Fail;

// Whether a script ends so over the files q and m and over this keeper, and writes this. The query
// is a carbon and an oxygen, and the molecule methoxymethane.
fn is_run_on<K: Keeper>(
    alloc: Global,
    keeper: &mut K,
    script: &str,
    wanted: &str,
    status: Status,
) -> Result<bool, Fail> {
    let mut files = SureFiles::new(files(alloc, CO, COC)?);
    is_run_over(alloc, &mut files, keeper, script, wanted, status)
}

fn query_row(alloc: Global, number: u32, name: &str, text: Content) -> Result<QueryRow, Fail> {
    Ok(QueryRow {
        number,
        name: Bytes::of(name.as_bytes().to_vec(alloc)?),
        text: bytes_of(alloc, text)?,
    })
}

// A search of the query q that stands behind the first of two hits.
fn search_row(alloc: Global) -> Result<CursorRow, Memory> {
    Ok(CursorRow {
        number: 1,
        name: Bytes::of(b"q".to_vec(alloc)?),
        place: Place::of(vec![in alloc; 1u32, 1, 2, 0]?),
    })
}

fn put_search(alloc: Global, tables: &mut Tables) -> Result<(), Fail> {
    tables.queries.push(query_row(alloc, 1, "q", CO)?)?;
    tables.cursors.push(search_row(alloc)?)?;
    tables.next_cursor = 2;
    Ok(())
}

fn stored_search(alloc: Global) -> Result<Tables, Fail> {
    let mut tables = Tables::new(alloc);
    put_search(alloc, &mut tables)?;
    Ok(tables)
}

fn is_gone_on(alloc: Global) -> Result<bool, Fail> {
    let mut keeper = SureKeeper::new(stored_search(alloc)?);
    let script = "load m\nresume 1 2";
    let wanted = "loaded 1 first 1\nhit 1 choice map 3 2\nend\n";
    is_run_on(alloc, &mut keeper, script, wanted, Status::Done)
}

#[test]
fn stored_searches_go_on(rt: HostRuntime) -> Result<(), Fail> {
    assert!(rt; is_gone_on(rt.alloc())?);
    Ok(())
}

// Whether the place behind the first of two hits is saved: the record, the numbers of the map, and 0.
fn is_place_saved(alloc: Global, keeper: &mut SureKeeper) -> Result<bool, Fail> {
    let script = "load m\nquery q q\nsearch q 1";
    let wanted = "loaded 1 first 1\nkept q\nhit 1 choice map 1 2\nmore 1\n";
    let is_so = is_run_on(alloc, keeper, script, wanted, Status::Done)?;
    let rows = keeper.tables().cursors.as_slice();
    Ok(
        is_so
            && rows.len() == 1
            && rows[0].number == 1
            && rows[0].name.as_slice() == b"q".as_slice()
            && rows[0].place.as_slice() == [1, 1, 2, 0].as_slice(),
    )
}

fn is_saved(alloc: Global) -> Result<bool, Fail> {
    let mut keeper = SureKeeper::new(Tables::new(alloc));
    is_place_saved(alloc, &mut keeper)
}

#[test]
fn a_place_is_saved(rt: HostRuntime) -> Result<(), Fail> {
    assert!(rt; is_saved(rt.alloc())?);
    Ok(())
}

fn put_falling(alloc: Global, tables: &mut Tables) -> Result<(), Fail> {
    tables.queries.push(query_row(alloc, 2, "b", C)?)?;
    tables.queries.push(query_row(alloc, 1, "a", C)?)?;
    Ok(())
}

fn falling_rows(alloc: Global) -> Result<Tables, Fail> {
    let mut tables = Tables::new(alloc);
    put_falling(alloc, &mut tables)?;
    Ok(tables)
}

fn is_lower_row_named(alloc: Global) -> Result<bool, Fail> {
    let mut keeper = SureKeeper::new(falling_rows(alloc)?);
    let wanted = "bad store query 1\n";
    is_run_on(alloc, &mut keeper, "list", wanted, Status::BadStore)
}

// The rows of a file come by rising number, those of memory as they stand.
#[test]
fn a_row_below_the_one_before_is_named(rt: HostRuntime) -> Result<(), Fail> {
    assert!(rt; is_lower_row_named(rt.alloc())?);
    Ok(())
}

// A script whose commit of this number fails, how it ends and what it answers, and then a script
// over what is kept.
struct Failure {
    script: &'static str,
    fails: u64,
    status: Status,
    wanted: &'static str,
    others: &'static str,
    then: &'static str,
    ended: Status,
}

const MADE: &str = "loaded 1 first 1\nkept q\n";

const ONE_LISTED: &str = "loaded 1 first 1\nkept q\nhit 1 choice map 1 2\nmore 1\n";

static FAILURES: [Failure; 4] = [
    Failure {
        script: "load m\nquery q q\nsearch q 1",
        fails: 3,
        status: Status::Store,
        wanted: MADE,
        others: "list\nsearch q 1",
        then: "records 1\nrecord 1\nqueries 1\nquery q\ncursors 0\nnext 2 1\nhit 1 choice map 1 2\nmore 1\n",
        ended: Status::Done,
    },
    Failure {
        script: "load m\nquery q q\nsearch q 1\nresume 1 1",
        fails: 4,
        status: Status::Store,
        wanted: ONE_LISTED,
        others: "resume 1 1\nresume 1 1",
        then: "hit 1 choice map 3 2\nmore 1\nend\n",
        ended: Status::Done,
    },
    Failure {
        script: "load m\nquery q q\nsearch q 1\nresume 1 5",
        fails: 4,
        status: Status::Store,
        wanted: ONE_LISTED,
        others: "resume 1 5\nlist",
        then: "hit 1 choice map 3 2\nend\nrecords 1\nrecord 1\nqueries 1\nquery q\ncursors 0\nnext 2 2\n",
        ended: Status::Done,
    },
    // a search that ends commits nothing
    Failure {
        script: "load m\nquery q q\nsearch q 5",
        fails: 3,
        status: Status::Done,
        wanted: "loaded 1 first 1\nkept q\nhit 1 choice map 1 2\nhit 1 choice map 3 2\nend\n",
        others: "resume 1 1",
        then: "refused 9 cursor 1\n",
        ended: Status::Refused,
    },
];

// Whether the script ends so where its commit fails, and the next one so over what is kept.
fn is_kept_over(alloc: Global, keeper: &mut MemKeeper, row: &Failure) -> Result<bool, Fail> {
    let is_so = is_run_on(alloc, keeper, row.script, row.wanted, row.status)?;
    Ok(is_so && is_run_on(alloc, keeper, row.others, row.then, row.ended)?)
}

fn is_kept(alloc: Global, row: &Failure) -> Result<bool, Fail> {
    let calls = Calls {
        commits: row.fails,
        ..NO_CALLS
    };
    let mut keeper = failing_keeper(alloc, calls)?;
    is_kept_over(alloc, &mut keeper, row)
}

#[test]
fn a_failed_commit_leaves_the_place(rt: HostRuntime) -> Result<(), Fail> {
    let alloc = rt.alloc();
    for row in FAILURES.iter() {
        assert!(rt; is_kept(alloc, row)?, "{}", row.script);
    }
    Ok(())
}
