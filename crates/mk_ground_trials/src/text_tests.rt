// Calls that may want memory, once each with enough of it.
use mk_text::{Bytes, Span, kept_lines, lines, put_number, words};
use std::alloc::Global;
use std::test::Fail;

// Whether a text is cut at its line ends, and its lines are kept without the CRs there.
fn is_cut_at_line_ends(alloc: Global, text: &[u8]) -> Result<bool, Fail> {
    let spans = lines(alloc, text)?;
    let kept = kept_lines(alloc, text, &spans)?;
    let wanted = [Span { from: 0, to: 2 }, Span { from: 4, to: 7 }];
    Ok(spans.as_slice() == wanted.as_slice() && kept.as_slice() == b"a\nb\rc\n".as_slice())
}

#[test]
fn a_text_is_cut_at_its_line_ends(rt: HostRuntime) -> Result<(), Fail> {
    assert!(rt; is_cut_at_line_ends(rt.alloc(), b"a\r\r\nb\rc")?);
    Ok(())
}

#[test]
fn a_line_is_cut_at_its_blanks(rt: HostRuntime) -> Result<(), Fail> {
    let spans = words(rt.alloc(), b"  load  c.sdf ")?;
    let wanted = [Span { from: 2, to: 6 }, Span { from: 8, to: 13 }];
    assert!(rt; spans.as_slice() == wanted.as_slice());
    Ok(())
}

#[test]
fn a_list_takes_an_item_and_a_text_a_number(rt: HostRuntime) -> Result<(), Fail> {
    let mut list = Bytes::new(rt.alloc());
    list.push(7)?;
    let mut out = list.into_vec();
    put_number(rt.alloc(), &mut out, 120)?;
    assert!(rt; out.as_slice() == b"\x07120".as_slice());
    Ok(())
}
