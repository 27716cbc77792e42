// Queries that are drawn. The shorthand is that of docs/TESTING.md, "Tables of tests".
use mk_fixtures::rgfile_of_sketches;
use mk_model::Query;
use mk_query::compile;
use mk_rgfile::read_rgfile;
use std::alloc::Global;
use std::test::Fail;

/// The groups of a query by number, each with its members.
pub type Groups = &'static [(u64, &'static [&'static str])];

/// A root, and the groups of its query.
#[derive(Clone, Copy)]
pub struct Drawn<'a> {
    pub root: &'a str,
    pub groups: Groups,
}

/// The query, read from its RGfile.
pub fn query_of(alloc: Global, drawn: Drawn<'_>) -> Result<Query, Fail> {
    compiled(alloc, &rgfile_of_sketches(alloc, drawn.root, drawn.groups)?)
}

fn compiled(alloc: Global, text: &[u8]) -> Result<Query, Fail> {
    if text.len() > 1_000_000 {
        return Err(Fail::from("a long text"));
    }
    let Ok(raw) = read_rgfile(alloc, text) else {
        return Err(Fail::from("no query file"));
    };
    match compile(alloc, &raw) {
        Ok(query) => Ok(query),
        Err(_) => Err(Fail::from("a query that fails a check")),
    }
}
