// Ranges as they are written, and the numbers that they hold.
use mk_logic::{holds, read_range};
use mk_model::{Memory, Range};
use std::alloc::Global;
use std::test::Fail;

// The texts, and the intervals that they say.
const RANGES: [(&str, &str, &[(u32, u32)]); 12] = [
    ("a number", "3", &[(3, 3)]),
    ("from one to another", "2-3,5", &[(2, 3), (5, 5)]),
    ("the same twice", "4-4", &[(4, 4)]),
    ("more than", ">32", &[(33, 999_999)]),
    ("less than", "<3", &[(0, 2)]),
    ("less than none", "<0", &[(1, 0)]),
    ("nothing", "", &[(1, 999_999)]),
    ("blanks alone", "   ", &[(1, 999_999)]),
    ("blanks around", " > 5 , 3 - 7 ", &[(6, 999_999), (3, 7)]),
    ("three digits", "999", &[(999, 999)]),
    ("leading zeros", "007", &[(7, 7)]),
    (
        "five items",
        "0,2,4,6,8",
        &[(0, 0), (2, 2), (4, 4), (6, 6), (8, 8)],
    ),
];

// Texts that are no range.
const NO_RANGES: [&str; 16] = [
    "1 2", "0001", "1-", "-1", ",", "1,", ",1", "1,,2", "3-2", "7-3", ">", "<", "> >1", "1-2-3",
    "+1", "a",
];

#[test]
fn reads_ranges(rt: HostRuntime) -> Result<(), Fail> {
    for (name, text, want) in RANGES {
        let found = read_range(rt.alloc(), text.as_bytes())?;
        assert!(rt; is_range(found, want), "{name}");
    }
    Ok(())
}

#[test]
fn reads_no_others(rt: HostRuntime) -> Result<(), Fail> {
    for text in NO_RANGES {
        let found = read_range(rt.alloc(), text.as_bytes())?;
        assert!(rt; found.is_none(), "{text}");
    }
    Ok(())
}

fn is_range(found: Option<Range>, want: &[(u32, u32)]) -> bool {
    match found {
        Some(range) => has_intervals(&range, want),
        None => false,
    }
}

fn has_intervals(range: &Range, want: &[(u32, u32)]) -> bool {
    let items = range.as_slice();
    if items.len() != want.len() {
        return false;
    }
    for i in 0..items.len() {
        let (least, most) = want[i];
        if items[i].least != least || items[i].most != most {
            return false;
        }
    }
    true
}

// A text, a number, and whether the number is in the range.
const HELD: [(&str, u32, bool); 14] = [
    (" 1, 3-7 ,9,>11", 0, false),
    (" 1, 3-7 ,9,>11", 2, false),
    (" 1, 3-7 ,9,>11", 3, true),
    (" 1, 3-7 ,9,>11", 11, false),
    (" 1, 3-7 ,9,>11", 12, true),
    ("2-3,5", 2, true),
    ("2-3,5", 4, false),
    ("2-3,5", 5, true),
    (">32", 32, false),
    (">32", 33, true),
    ("<0", 0, false),
    ("", 0, false),
    ("", 1, true),
    ("0", 0, true),
];

#[test]
fn holds_numbers(rt: HostRuntime) -> Result<(), Fail> {
    for (text, n, want) in HELD {
        assert!(rt; is_held(rt.alloc(), text, n)? == want, "{n} in {text}");
    }
    Ok(())
}

fn is_held(alloc: Global, text: &str, n: u32) -> Result<bool, Memory> {
    match read_range(alloc, text.as_bytes())? {
        Some(range) if n <= 512 => Ok(holds(&range, n)),
        Some(_) => Ok(false),
        None => Ok(false),
    }
}
