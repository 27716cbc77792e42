// A line of each list that takes memory.
use mk_props::{Property, read_property};
use std::alloc::Global;
use std::test::Fail;

// Whether eight pairs are read.
fn has_pairs(alloc: Global, line: &[u8]) -> Result<bool, Fail> {
    Ok(match read_property(alloc, line)? {
        Property::Label(pairs) => pairs.as_slice().len() == 8,
        _ => false,
    })
}

// Whether two links are read.
fn has_links(alloc: Global, line: &[u8]) -> Result<bool, Fail> {
    Ok(match read_property(alloc, line)? {
        Property::Link(links) => links.as_slice().len() == 2,
        _ => false,
    })
}

// Whether five symbols are read, of which the third is empty and the fourth is of four bytes.
fn has_symbols(alloc: Global, line: &[u8]) -> Result<bool, Fail> {
    Ok(match read_property(alloc, line)? {
        Property::List(list) => {
            let symbols = list.symbols.as_slice();
            symbols.len() == 5
                && symbols[2].as_slice().is_empty()
                && symbols[3].as_slice() == b"Abcd".as_slice()
        }
        _ => false,
    })
}

#[test]
fn a_line_is_its_property(rt: HostRuntime) -> Result<(), Fail> {
    let alloc = rt.alloc();
    let labels = b"M  RGP  8   1   1   2   2   3   3   4   4   5   5   6   6   7   7   8   8";
    let pairs = has_pairs(alloc, labels)?;
    let links = has_links(alloc, b"M  LIN  2   2   3   1   4   9   5   8  10")?;
    let symbols = has_symbols(alloc, b"M  ALS   4  5 F C   Cl      Abcde")?;
    assert!(rt; pairs && links && symbols);
    Ok(())
}
