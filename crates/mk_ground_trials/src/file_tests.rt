// Calls that read and write files, once each, and what no run shows of them: each kind of property
// that is written, and the isotopes of V3000 tables.
use crate::writing_checks::can_be_spelt;
use mk_props::Property;
use mk_rgfile::read_rgfile;
use mk_sdfile::read_sdfile;
use mk_spelling::write_table;
use mk_tables::{RawTable, TableFault, read_table};
use mk_text::lines;
use mk_v3000::read_v3000;
use std::alloc::Global;
use std::test::Fail;

static TABLES: [(&str, &str); 5] = [
    (
        "nothing",
        "  0  0  0  0  0  0            999 V2000\nM  END\n",
    ),
    (
        "two atoms and a bond",
        "  2  1  0  0  0  0            999 V2000\n    0.0000    0.0000    0.0000 C   0  0  0  0  0  0\n    0.0000    0.0000    0.0000 O   0  5  0  1  0 15\n  1  2  1  0  0  2\nM  END\n",
    ),
    (
        "three columns filled",
        "  2  1  2  0  0  0            999 V2000\n    0.0000    0.0000    0.0000 Uuo 0-99  0999  0 -1\n    0.0000    0.0000    0.0000     0100  0 10  0  9\n999-99 -9  0  0 99\n  2 F    1   7\n-99 T    5  -1  10 999 -99   0\nM  END\n",
    ),
    (
        "each kind of pairs",
        "  0  0  0  0  0  0            999 V2000\nM  CHG  1   2  -1\nM  RAD  2   1   2  10   3\nM  ISO  1   1  13\nM  RBC  1   1  -2\nM  SUB  1   4   6\nM  UNS  1   5   1\nM  RGP  8   1   1   2   2   3   3   4   4   5   5   6   6   7   7 999 -99\nM  APO  2   1   1   3   2\nM  AAL   4  2   3   1   1   2\nM  END\n",
    ),
    (
        "each other kind, and lines that would end with blanks",
        "  0  0  0  0  0  0            999 V2000\nM  LIN  2   2   3   1   4   9   5   8  10\nM  ALS   1  2 T C   N\nM  ALS   3  2 F Cl\nM  ALS  12  1 F\nM  ALS 999 16 T H   He  Li  Be  B   C   N   O   F   Ne  Na  Mg  Al  Si  P   long\nM  LOG  1   1   2   0 0-1\nM  LOG  1  32   0   1\nM  LOG  1   3   0   0  >1\nM  END\n",
    ),
];

fn table_of(alloc: Global, text: &[u8]) -> Result<RawTable, TableFault> {
    let spans = lines(alloc, text)?;
    let (table, _next) = read_table(alloc, text, &spans, 0)?;
    Ok(table)
}

// Whether the table of this text is written as this text, behind what stands there before.
fn is_written_again(alloc: Global, text: &[u8]) -> Result<bool, Fail> {
    let table = table_of(alloc, text)?;
    if !can_be_spelt(&table) {
        return Ok(false);
    }
    let mut out = Vec::from_slice(alloc, b"before\n")?;
    write_table(alloc, &mut out, &table)?;
    let mut all = Vec::from_slice(alloc, b"before\n")?;
    all.extend_from_slice(text)?;
    Ok(out.as_slice() == all.as_slice())
}

#[test]
fn tables_are_read_and_written_again(rt: HostRuntime) -> Result<(), Fail> {
    for (name, text) in TABLES.iter() {
        assert!(rt; is_written_again(rt.alloc(), text.as_bytes())?, "{name}");
    }
    Ok(())
}

const QUERY: &str =
    "$MDL\n$MOL\n$HDR\n\n\n\n$END HDR\n$CTAB\n  0\nM  END\n$END CTAB\n$RGP\n  7\n$CTAB\n  0\nM  END\n$END CTAB\n$CTAB\n  0\nM  END\n$END CTAB\n$END RGP\n$END MOL\n";

// Whether the text is a query of one group, which has the number 7 and two members.
fn has_a_group(alloc: Global, text: &[u8]) -> Result<bool, Fail> {
    let query = read_rgfile(alloc, text)?;
    Ok(match query.groups.as_slice() {
        [group] => group.number == 7 && group.members.as_slice().len() == 2,
        _ => false,
    })
}

#[test]
fn a_text_is_a_query(rt: HostRuntime) -> Result<(), Fail> {
    assert!(rt; has_a_group(rt.alloc(), QUERY.as_bytes())?);
    Ok(())
}

// Whether the text has two records, and this is the text of the second.
fn has_a_second(alloc: Global, text: &[u8], second: &[u8]) -> Result<bool, Fail> {
    let records = read_sdfile(alloc, text)?;
    Ok(match records.as_slice() {
        [_, record] => record.text.as_slice() == second,
        _ => false,
    })
}

#[test]
fn a_text_has_records(rt: HostRuntime) -> Result<(), Fail> {
    let text = b"a\n\n\n  0\nM  END\n$$$$\nb\r\n\n\n  0\nM  END\nx\n$$$$ y\n";
    assert!(rt; has_a_second(rt.alloc(), text, b"b\n\n\n  0\nM  END\nx\n")?);
    Ok(())
}

const TWIN: &str =
    "  0  0  0     0  0            999 V3000\nM  V30 BEGIN CTAB\nM  V30 COUNTS 1 0 0 0 0\nM  V30 BEGIN ATOM\nM  V30 7 N 0 0 0 0 CHG=1 RAD=2 MASS=15 VAL=4 CFG=1\nM  V30 END ATOM\nM  V30 END CTAB\nM  END\n";

// Whether this is an `M  ISO` of the first atom and of the mass 15.
fn is_isotope(property: &Property) -> bool {
    match property {
        Property::Isotope(pairs) => match pairs.as_slice() {
            [pair] => pair.atom == 1 && pair.value == 15,
            _ => false,
        },
        _ => false,
    }
}

// Whether the V3000 table goes to the end of the text, and has three properties, of which the last
// is such a one.
fn has_an_isotope(alloc: Global, text: &[u8]) -> Result<bool, Fail> {
    let spans = lines(alloc, text)?;
    let (table, next) = read_v3000(alloc, text, &spans, 0)?;
    Ok(match table.props.as_slice() {
        [_, _, third] => next == spans.len() && is_isotope(third),
        _ => false,
    })
}

#[test]
fn a_mass_is_an_isotope(rt: HostRuntime) -> Result<(), Fail> {
    assert!(rt; has_an_isotope(rt.alloc(), TWIN.as_bytes())?);
    Ok(())
}
