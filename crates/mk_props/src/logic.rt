// The logic of a group.
ghost use Rattle.std.specs.Prelude.{◌≡◌, drop};
ghost use Rattle.mk_props.specs.Reading.{Gives, logic_of};

use crate::columns::is_blank_at;
use crate::entries::{count_at, number_at};
use crate::fault::LineFault;
use crate::property::LogicLine;
use mk_text::Listed;
use std::alloc::Global;

// M  LOG  1 rrr iii hhh range   columns 7-9 the number 1, 11-13 the group, 15-17 its THEN group,
//                               19-21 RestH, 23- the range
#[tactic(auto, unfolding(crate::specs::Reading::logic_of))]
pub fn logic(alloc: Global, line: &[u8]) -> Result<LogicLine, LineFault>
    ensures { Gives result (logic_of line.now) }
{
    let Some(_) = count_at(line, 7, 1) else {
        return Err(LineFault::Bad);
    };
    let Some(group) = number_at(line, 10) else {
        return Err(LineFault::Bad);
    };
    let Some(then_group) = number_at(line, 14) else {
        return Err(LineFault::Bad);
    };
    let Some(rest) = number_at(line, 18) else {
        return Err(LineFault::Bad);
    };
    if !is_blank_at(line, 22) {
        return Err(LineFault::Bad);
    }
    let range = Vec::from_slice(alloc, range_text(line))?;
    Ok(LogicLine {
        group,
        then_group,
        rest,
        range: Listed::of(range),
    })
}

// From column 23 to the line's end, and nothing on a shorter line.
#[tactic(auto, using(std::proofs::lemmas::List::drop_min))]
fn range_text(line: &[u8]) -> &[u8]
    ensures { result.now ≡ drop 22 line.now }
{
    &line[22.min(line.len())..]
}
