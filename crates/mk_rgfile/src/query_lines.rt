// The lines of a query file that stand around its tables, one by one.
ghost use Rattle.std.specs.Prelude.{◌≡◌};
ghost use Rattle.mk_text.specs.Fields.{field_in};
ghost use Rattle.mk_rgfile.specs.QueryLines.{begins_mdl, is_keyword, group_number_of};

use mk_text::{field, is_blank};

// Whether the line begins with `$MDL`. Its other columns aren't read.
pub fn is_mdl_line(line: &[u8]) -> bool
    ensures { result ≡ begins_mdl line.now }
{
    line.starts_with(b"$MDL")
}

// Whether the line is the keyword, and blanks after it.
pub fn is_keyword_line(line: &[u8], word: &[u8]) -> bool
    ensures { result ≡ is_keyword word.now line.now }
{
    if !line.starts_with(word) {
        return false;
    }
    is_blank(&line[word.len()..])
}

// The number that the line is as a whole, or None where it is no numeric field. An empty line is
// the number 0.
#[tactic(auto, using(crate::proofs::QueryLineLemmas::whole_field))]
fn whole_field(line: &[u8]) -> Option<i32>
    ensures { result ≡ field_in line.now }
{
    field(line, 1, line.len().max(1))
}

// The number of a group, from 1 to 32.
#[tactic(auto, unfolding(crate::specs::QueryLines::group_number_of))]
pub fn read_group_number(line: &[u8]) -> Option<u8>
    ensures { result ≡ group_number_of line.now }
{
    let number = whole_field(line)?;
    if number < 1 {
        return None;
    }
    let number = number as u32;
    if number > 32 {
        return None;
    }
    Some(number as u8)
}
