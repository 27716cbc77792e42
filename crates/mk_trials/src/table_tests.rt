// The table of `[C R# R# | 1-2 1-3]` over four molecules, of which the second has no hit. Fluorine
// may fill the first site and chlorine the second, and has to where fluorine does.
ghost use Rattle.std.specs.Prelude.{◌≡◌, ◌<◌};

use mk_fixtures::{mol_of_sketch, query_of_two_sites};
use mk_index::Shelf;
use mk_model::{Memory, Numbers, Query, Steps};
use mk_rtable::{TableRows, members_of, put_table, r_table};
use std::alloc::Global;
use std::marker::Brand;
use std::sync::ledger::{Blank, Ledger};
use std::test::Fail;

static RECORDS: [(u32, &str); 4] = [
    (2, "C F Cl | 1-2 1-3"),
    (3, "O N | 1-2"),
    (5, "Cl C Cl F F | 1-2 2-3 2-4 2-5"),
    (4_294_967_295, "C Cl | 1-2"),
];

// The first valid code is `1 1`. The last record has no fluorine, so its least code is `2 1`, which
// leaves the first site unfilled.
const TABLE: &str = "record\tsite 2\tsite 3\n2\t1\t1\n5\t1\t1\n4294967295\t0\t1\nend\n";

#[test]
fn rows_by_the_least_code(rt: HostRuntime) -> Result<(), Fail> {
    let query = query_of_two_sites(rt.alloc())?;
    let mut shelf = Shelf::new(rt.alloc());
    assert!(rt;
        text_is(rt.alloc(), &shelf, &query, "record\tsite 2\tsite 3\nend\n")?,
        "no record"
    );
    for (number, sketch) in &RECORDS {
        let mol = mol_of_sketch(rt.alloc(), sketch)?;
        shelf.reserve(1)?;
        if !shelf.holds(*number) {
            shelf.insert(*number, mol);
        }
    }
    assert!(rt; text_is(rt.alloc(), &shelf, &query, TABLE)?, "four records");
    Ok(())
}

#[test]
fn members_of_a_code(rt: HostRuntime) -> Result<(), Fail> {
    assert!(rt; members_of_2_1(rt.alloc())?.as_slice() == [0, 1].as_slice());
    Ok(())
}

fn members_of_2_1(alloc: Global) -> Result<Numbers, Memory> {
    let query = query_of_two_sites(alloc)?;
    members_of(alloc, &query, &[2, 1])
}

fn text_is(alloc: Global, shelf: &Shelf, query: &Query, text: &str) -> Result<bool, Memory> {
    let rows = rows_of::<Brand>(alloc, shelf, query, Blank::new(1))?;
    let mut out = Vec::from_slice(alloc, b"before ")?;
    put_table(alloc, query, rows.as_slice(), &mut out)?;
    Ok(out.strip_prefix(b"before ") == Some(text.as_bytes()))
}

// The rows, on a ledger that is made for them alone.
fn rows_of<L: Ledger>(
    alloc: Global,
    shelf: &Shelf,
    query: &Query,
    blank: Blank,
) -> Result<TableRows, Memory>
    requires name { blank.name ≡ L.name }
    requires parts { blank.parts ≡ L.parts }
    requires one { 0 < L.parts }
{
    let mut steps = Steps::<L>::new(blank);
    r_table(alloc, shelf, query, &mut steps)
}
