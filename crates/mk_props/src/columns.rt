// Single columns. They count from 1, and those past the line's end are blank.
ghost use Rattle.std.specs.Prelude.{◌≡◌, ◌≤◌};
ghost use Rattle.mk_text.specs.Columns.{is_space};
ghost use Rattle.mk_props.specs.Reading.{cell_of};

// The byte in a column, a blank past the line's end.
#[tactic(auto, unfolding(crate::specs::Reading::cell_of))]
pub fn cell(line: &[u8], at: usize) -> u8
    requires { 1 ≤ at }
    ensures { result ≡ cell_of line.now at }
{
    line.get(at - 1).copied().unwrap_or(b' ')
}

pub fn is_blank_at(line: &[u8], at: usize) -> bool
    requires { 1 ≤ at }
    ensures { result ≡ is_space (cell_of line.now at) }
{
    cell(line, at) == b' '
}
