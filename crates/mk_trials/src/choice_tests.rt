// The codes of the query of the example: `[C R# R# | 1-2 1-3]` with the groups 1 and 2, `[F | ]`
// and `[Cl | ]`, IF R1 THEN R2, R1 `0-1`, R2 `1`.
use mk_choice::{Codes, code_within, least_code};
use mk_fixtures::query_of_two_sites;
use mk_model::{Memory, Query, Turn};
use std::alloc::Global;
use std::test::Fail;

// Fronts, and the least code that isn't below each.
static ROWS: [(&str, &[u32], Option<&[u32]>); 6] = [
    ("the empty front", &[], Some(&[1, 1])),
    ("a front that is no valid code", &[1, 2], Some(&[2, 1])),
    ("behind a code", &[2, 1, 0], Some(&[2, 2])),
    ("a code itself", &[2, 2], Some(&[2, 2])),
    ("behind the last code", &[2, 2, 0], None),
    ("a front that begins a code", &[2], Some(&[2, 1])),
];

#[test]
fn least_codes(rt: HostRuntime) -> Result<(), Fail> {
    let query = query_of_two_sites(rt.alloc())?;
    for (name, front, want) in &ROWS {
        assert!(rt; is_least(rt.alloc(), &query, front, *want)?, "{name}");
    }
    Ok(())
}

#[test]
fn codes_in_order(rt: HostRuntime) -> Result<(), Fail> {
    let query = query_of_two_sites(rt.alloc())?;
    let told = all_codes(rt.alloc(), &query)?;
    assert!(rt; told.as_slice() == [1, 1, 2, 1, 2, 2, 0, 2, 2, 0].as_slice());
    Ok(())
}

// The codes, a 0 where there are no more, and the place then. `Codes` have one way out in the function
// that makes them, since the prover goes through all that is let go at each of them.
fn all_codes(alloc: Global, query: &Query) -> Result<Vec<u32>, Memory> {
    let mut codes = Codes::from_place(alloc, query, &[])?;
    codes_left(alloc, &mut codes)
}

fn codes_left(alloc: Global, codes: &mut Codes<'_>) -> Result<Vec<u32>, Memory> {
    let mut told = Vec::new(alloc);
    for _ in 0..4 {
        match codes.next() {
            Some(code) => told.extend_from_slice(code)?,
            None => told.push(0)?,
        }
    }
    told.extend_from_slice(codes.place(alloc)?.as_slice())?;
    Ok(told)
}

// One `Codes` goes to each front in turn, from wherever it stands, and to one that is longer than
// its room.
#[test]
fn rewound(rt: HostRuntime) -> Result<(), Fail> {
    let query = query_of_two_sites(rt.alloc())?;
    assert!(rt; goes_to_each(rt.alloc(), &query)?);
    Ok(())
}

fn goes_to_each(alloc: Global, query: &Query) -> Result<bool, Memory> {
    let mut codes = Codes::from_place(alloc, query, &[2, 2, 0])?;
    go_to_each(alloc, &mut codes)
}

fn go_to_each(alloc: Global, codes: &mut Codes<'_>) -> Result<bool, Memory> {
    for (_, front, want) in &ROWS {
        codes.rewind(front)?;
        let place = codes.place(alloc)?;
        if place.as_slice() != *front || !is_code(codes.next(), *want) {
            return Ok(false);
        }
    }
    codes.rewind(&[1; 600])?;
    Ok(is_code(codes.next(), Some(&[2, 1])))
}

// Places, and the turns from each: `M` comes to a beginning of a code, `I` takes the code out that
// stands behind it, and `E` finds nothing left. The beginnings are 1, 1 1, 1 2, 2, 2 1 and 2 2.
static TURNS: [(&str, &[u32], &str); 9] = [
    ("the empty place", &[], "MI11MMI21I22E"),
    ("numbers that begin a code", &[1], "MI11MMI21I22E"),
    ("a code that isn't valid", &[1, 2], "MMI21I22E"),
    ("a code itself", &[2, 1], "I21I22E"),
    ("behind a code", &[2, 1, 0], "I22E"),
    ("a code and more", &[1, 1, 2, 6, 0], "MMI21I22E"),
    ("no code", &[1, 3, 1], "MI21I22E"),
    ("no number", &[0, 9], "MI11MMI21I22E"),
    ("behind the last", &[2, 2, 0], "E"),
];

#[test]
fn turns(rt: HostRuntime) -> Result<(), Fail> {
    let query = query_of_two_sites(rt.alloc())?;
    for (name, place, want) in &TURNS {
        let told = turns_from(rt.alloc(), &query, place)?;
        assert!(rt; told.as_slice() == want.as_bytes(), "{name}");
    }
    Ok(())
}

// Numbers, and how many of the first are a structural code.
static NUMBERS: [(&str, &[u32], Option<usize>); 6] = [
    ("a code", &[1, 1], Some(2)),
    ("a code that isn't valid, and more", &[1, 2, 9, 9], Some(2)),
    ("the middle of a code", &[2], None),
    ("no number", &[], None),
    ("a number above the greatest", &[1, 3], None),
    ("a number below the least", &[0, 1], None),
];

#[test]
fn codes_at_the_front(rt: HostRuntime) -> Result<(), Fail> {
    let query = query_of_two_sites(rt.alloc())?;
    for (name, numbers, want) in &NUMBERS {
        assert!(rt; code_within(&query, numbers) == *want, "{name}");
    }
    Ok(())
}

fn turns_from(alloc: Global, query: &Query, place: &[u32]) -> Result<Vec<u8>, Memory> {
    let mut codes = Codes::from_place(alloc, query, place)?;
    turns_of(alloc, &mut codes)
}

fn turns_of(alloc: Global, codes: &mut Codes<'_>) -> Result<Vec<u8>, Memory> {
    let mut told = Vec::new(alloc);
    for _ in 0..16 {
        match codes.advance() {
            Turn::Item => {
                told.push(b'I')?;
                for number in codes.item() {
                    told.push(b'0'.saturating_add((*number).min(9) as u8))?;
                }
            }
            Turn::Moved => told.push(b'M')?,
            Turn::End => {
                told.push(b'E')?;
                return Ok(told);
            }
        }
    }
    Ok(told)
}

fn is_code(found: Option<&[u32]>, want: Option<&[u32]>) -> bool {
    match (found, want) {
        (Some(code), Some(other)) => code == other,
        (None, None) => true,
        _ => false,
    }
}

fn is_least(
    alloc: Global,
    query: &Query,
    front: &[u32],
    want: Option<&[u32]>,
) -> Result<bool, Memory> {
    let found = least_code(alloc, query, front)?;
    Ok(match (found, want) {
        (Some(code), Some(other)) => code.as_slice() == other,
        (None, None) => true,
        _ => false,
    })
}
