// Lines of an input that comes piece by piece. Of a line no more is kept than shows that it is
// over its limit.
ghost use Rattle.std.specs.Prelude.{◌≡◌, ◌≤◌};
ghost use Rattle.std.specs.Vec.{vec_capacity};
ghost use Rattle.mk_text.specs.Lines.{without_cr};
ghost use Rattle.mk_talk.specs.Cutting.{kept_more};

// How many bytes a line may have.
pub const LINE_BYTES: usize = 65_536;

// How many bytes of a line are kept.
pub const KEPT_BYTES: usize = 65_537;

// Keeps one byte more of a line, where there is room.
pub fn keep_byte(line: &mut Vec<u8>, byte: u8)
    requires { 65537 ≤ vec_capacity line.old }
    ensures kept { line.new.items ≡ kept_more 65536 line.old.items byte }
    ensures room { 65537 ≤ vec_capacity line.new }
{
    if line.as_slice().len() > LINE_BYTES {
        return;
    }
    if line.push(byte).is_err() {
        // there is room for it
    }
}

// The line without one CR at its end.
pub fn line_of(piece: &[u8]) -> &[u8]
    ensures { result.now ≡ without_cr piece.now }
{
    if piece.is_empty() {
        return piece;
    }
    let last = piece.len() - 1;
    if piece[last] != b'\r' {
        return piece;
    }
    &piece[..last]
}
