// Lines of the drill. The first is worked out by hand, and the others by a program of twenty lines
// that knows which hits benzenes with such substituents have.
use mk_drill::drill;
use std::alloc::Global;
use std::test::Fail;

static ROWS: [(&str, u32, u32, &[u8]); 4] = [
    ("one molecule", 0, 1, b"drill 1 hits 6 fold 798\n"),
    (
        "as many hits as a page has",
        0,
        20,
        b"drill 20 hits 100 fold 255344\n",
    ),
    ("several pages", 7, 200, b"drill 200 hits 762 fold 374750\n"),
    ("and again", 7, 200, b"drill 200 hits 762 fold 374750\n"),
];

#[test]
fn lines(rt: HostRuntime) -> Result<(), Fail> {
    for (name, start, count, want) in &ROWS {
        let line = line_of(rt.alloc(), *start, *count)?;
        assert!(rt; line.as_slice() == *want, "{name}");
    }
    Ok(())
}

fn line_of(alloc: Global, start: u32, count: u32) -> Result<Vec<u8>, Fail> {
    let mut answer = Vec::new(alloc);
    if count >= 1 && count <= 10_000 {
        drill(alloc, start, count, &mut answer)?;
    }
    Ok(answer)
}
