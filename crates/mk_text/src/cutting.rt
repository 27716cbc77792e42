// The lines of a text, and the words of a line.
ghost use Rattle.std.specs.Prelude.{◌≡◌, ◌<◌, ◌≤◌, ◌==◌, ℕ, All, IfOk, false, length, slice_index, slice_range};
ghost use Rattle.mk_text.specs.Lines.{lines_of, words_of, without_cr};
ghost use Rattle.mk_text.specs.LineStart.{BeginLines};
ghost use Rattle.mk_text.specs.Spans.{AreApart, AreWithin, parts};

use crate::Memory;
use std::alloc::Global;

/// The bytes of a text from the place `from` on, up to the place `to`. Places count from 0.
#[derive(Clone, Copy, PartialEq, Eq)]
pub struct Span {
    pub from: usize,
    pub to: usize,
}

/// The lines of a text: its pieces between LF bytes, one CR dropped at the end of each.
pub fn lines(alloc: Global, text: &[u8]) -> Result<Vec<Span>, Memory>
    ensures lines { IfOk result (λ spans. parts text.now spans.items ≡ lines_of text.now) }
    ensures within { IfOk result (λ spans. AreWithin text.now spans.items) }
    ensures apart { IfOk result (λ spans. AreApart spans.items) }
    ensures starts { IfOk result (λ spans. BeginLines text.now spans.items) }
{
    let mut spans = Vec::new(alloc);
    let mut from = 0;
    while from < text.len() {
        let lf = first_from(text, from, b'\n');
        let to = end_of_line(text, from, lf);
        spans.push(Span { from, to })?;
        from = lf + 1;
    }
    Ok(spans)
}

// The place of the first such byte from a place on, or the end of the text where there is none.
pub fn first_from(text: &[u8], from: usize, byte: u8) -> usize
    requires { from ≤ length text.now }
    ensures order { from ≤ result }
    ensures within { result ≤ length text.now }
    ensures none { (k : ℕ) → from ≤ k → k < result → (slice_index text.now k == byte) ≡ false }
    ensures found { result < length text.now → slice_index text.now result ≡ byte }
{
    let mut at = from;
    while at < text.len() && text[at] != byte {
        at += 1;
    }
    at
}

// Where the line ends whose piece is `from` to `to`: before its CR, where it has one.
pub fn end_of_line(text: &[u8], from: usize, to: usize) -> usize
    requires order { from ≤ to }
    requires within { to ≤ length text.now }
    ensures line { slice_range text.now from result ≡ without_cr (slice_range text.now from to) }
    ensures order { from ≤ result }
    ensures within { result ≤ to }
{
    if to > from && text[to - 1] == b'\r' {
        to - 1
    } else {
        to
    }
}

/// The words of a line: its longest runs of bytes other than blanks.
pub fn words(alloc: Global, line: &[u8]) -> Result<Vec<Span>, Memory>
    ensures words { IfOk result (λ spans. parts line.now spans.items ≡ words_of line.now) }
    ensures within { IfOk result (λ spans. AreWithin line.now spans.items) }
    ensures apart { IfOk result (λ spans. AreApart spans.items) }
{
    let mut spans = Vec::new(alloc);
    let mut from = 0;
    while from < line.len() {
        let to = first_from(line, from, b' ');
        if from < to {
            spans.push(Span { from, to })?;
        }
        from = to + 1;
    }
    Ok(spans)
}
