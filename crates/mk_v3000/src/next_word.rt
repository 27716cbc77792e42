// The words of a text, one after the other, with no list of them.
ghost use Rattle.std.specs.Prelude.{◌≡◌, ◌≤◌, ◌<◌, ◌∷◌, ◌==◌, ◌-◌, not, [], true, false, IfNone, IfSome, length, slice_range, slice_index_or, drop};
ghost use Rattle.std.specs.List.{list_all};
ghost use Rattle.mk_text.specs.Lines.{words_of};

// The place of the first byte that is no blank, or the text's end.
fn first_byte(text: &[u8]) -> usize
    ensures within { result ≤ length text.now }
    ensures words { words_of (drop result text.now) ≡ words_of text.now }
    ensures other { result < length text.now → (slice_index_or text.now result 0 == 32) ≡ false }
{
    let mut start = 0;
    while start < text.len() && text[start] == b' ' {
        start += 1;
    }
    start
}

// The place of the first blank from there on, or the text's end.
fn end_of_word(text: &[u8], start: usize) -> usize
    requires { start ≤ length text.now }
    ensures order { start ≤ result }
    ensures within { result ≤ length text.now }
    ensures none { list_all (λ c. not (c == 32)) (slice_range text.now start result) ≡ true }
    ensures blank { result < length text.now → (slice_index_or text.now result 0 == 32) ≡ true }
{
    let mut end = start;
    while end < text.len() && text[end] != b' ' {
        end += 1;
    }
    end
}

/// The first word of a text, and what stands behind it; None where there are no words.
pub fn next_word(text: &[u8]) -> Option<(&[u8], &[u8])>
    ensures none { IfNone result (words_of text.now ≡ []) }
    ensures some { IfSome result (λ r. words_of text.now ≡ r.0.now ∷ words_of r.1.now) }
    ensures shorter { IfSome result (λ r. length r.1.now < length text.now) }
{
    let start = first_byte(text);
    if start == text.len() {
        return None;
    }
    let end = end_of_word(text, start);
    Some((&text[start..end], &text[end..]))
}
