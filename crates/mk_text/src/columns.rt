// The columns of a line. They count from 1, and those past the line's end are blank.
ghost use Rattle.std.specs.Prelude.{◌≡◌, ◌≤◌, ◌+◌, ◌==◌, length};
ghost use Rattle.std.specs.List.{prefix_len, suffix_len};
ghost use Rattle.mk_text.specs.Columns.{columns, standing, is_space, are_blank, trimmed};

/// The bytes of the columns `from` to `to` that stand on the line.
pub fn column(line: &[u8], from: usize, to: usize) -> &[u8]
    requires first { 1 ≤ from }
    requires order { from ≤ to }
    ensures { result.now ≡ standing line.now from to }
{
    let end = to.min(line.len());
    let start = (from - 1).min(end);
    &line[start..end]
}

/// Whether the line holds blanks alone, or nothing.
pub fn is_blank(line: &[u8]) -> bool
    ensures { result ≡ are_blank line.now }
{
    for byte in line {
        if *byte != b' ' {
            return false;
        }
    }
    true
}

/// The columns `from` to `to` without their outer blanks.
pub fn trimmed_column(line: &[u8], from: usize, to: usize) -> &[u8]
    requires first { 1 ≤ from }
    requires order { from ≤ to }
    ensures { result.now ≡ trimmed (columns line.now from to) }
{
    without_outer_blanks(column(line, from, to))
}

/// The cells without their outer blanks.
pub fn without_outer_blanks(cells: &[u8]) -> &[u8]
    ensures { result.now ≡ trimmed cells.now }
{
    let mut start = 0;
    for cell in cells {
        if *cell != b' ' {
            break;
        }
        start += 1;
    }
    let rest = &cells[start..];
    &rest[..length_without_last_blanks(rest)]
}

fn length_without_last_blanks(cells: &[u8]) -> usize
    ensures { result + suffix_len is_space cells.now ≡ length cells.now }
{
    length_without_last(b' ', cells)
}

/// How long the cells are without the last ones that are this byte.
pub fn length_without_last(byte: u8, cells: &[u8]) -> usize
    ensures { result + suffix_len (λ cell. cell == byte) cells.now ≡ length cells.now }
{
    let mut size = cells.len();
    while size > 0 && cells[size - 1] == byte {
        size -= 1;
    }
    size
}
