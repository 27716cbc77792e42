// One line, by the columns that it begins with.
ghost use Rattle.std.specs.Prelude.{◌≡◌, IfOk, Err};
ghost use Rattle.mk_props.specs.declared.property.Property.{Property};
ghost use Rattle.mk_props.specs.Property.{IsProperty};
ghost use Rattle.mk_props.specs.Reading.{Gives, skip_of, m_line_of, letter_line_of, property_of};

use crate::columns::{cell, is_blank_at};
use crate::entries::{links, order, pairs};
use crate::fault::LineFault;
use crate::lists::list;
use crate::logic::logic;
use crate::property::Property;
use mk_text::field;
use std::alloc::Global;

/// The property that a line is. Bytes behind the last entry that the line counts aren't read.
#[tactic(auto, unfolding(crate::specs::Reading::property_of))]
pub fn read_property(alloc: Global, line: &[u8]) -> Result<Property, LineFault>
    ensures property { IfOk result (IsProperty line.now) }
    ensures bad { result ≡ Err LineFault.Bad → (property : Property) → IsProperty line.now property → ⊥ }
    ensures value { Gives result (property_of line.now) }
{
    // Each kind has two blanks behind its letter.
    if !is_blank_at(line, 2) || !is_blank_at(line, 3) {
        return Err(LineFault::Bad);
    }
    letter_line(alloc, line)
}

// A line that begins with a letter and two blanks.
#[tactic(auto, unfolding(crate::specs::Reading::letter_line_of))]
fn letter_line(alloc: Global, line: &[u8]) -> Result<Property, LineFault>
    ensures { Gives result (letter_line_of line.now) }
{
    match cell(line, 1) {
        b'M' => m_line(alloc, line),
        b'A' | b'G' => Ok(Property::Passed(1)),
        b'V' => Ok(Property::Passed(0)),
        b'S' => match skip(line) {
            Some(after) => Ok(Property::Passed(after)),
            None => Err(LineFault::Bad),
        },
        _ => Err(LineFault::Bad),
    }
}

// A line that begins with `M  `.
#[tactic(auto, unfolding(crate::specs::Reading::m_line_of))]
fn m_line(alloc: Global, line: &[u8]) -> Result<Property, LineFault>
    ensures { Gives result (m_line_of line.now) }
{
    match (cell(line, 4), cell(line, 5), cell(line, 6)) {
        (b'E', b'N', b'D') => Ok(Property::End),
        (b'C', b'H', b'G') => Ok(Property::Charge(pairs(alloc, line, 7, 8)?)),
        (b'R', b'A', b'D') => Ok(Property::Radical(pairs(alloc, line, 7, 8)?)),
        (b'I', b'S', b'O') => Ok(Property::Isotope(pairs(alloc, line, 7, 8)?)),
        (b'R', b'B', b'C') => Ok(Property::RingBonds(pairs(alloc, line, 7, 8)?)),
        (b'S', b'U', b'B') => Ok(Property::Substitution(pairs(alloc, line, 7, 8)?)),
        (b'U', b'N', b'S') => Ok(Property::Unsaturation(pairs(alloc, line, 7, 8)?)),
        (b'R', b'G', b'P') => Ok(Property::Label(pairs(alloc, line, 7, 8)?)),
        (b'A', b'P', b'O') => Ok(Property::Points(pairs(alloc, line, 7, 2)?)),
        (b'L', b'I', b'N') => Ok(Property::Link(links(alloc, line)?)),
        (b'A', b'L', b'S') => Ok(Property::List(list(alloc, line)?)),
        (b'A', b'A', b'L') => Ok(Property::Order(order(alloc, line)?)),
        (b'L', b'O', b'G') => Ok(Property::Logic(logic(alloc, line)?)),
        _ => Ok(Property::Passed(0)),
    }
}

// S  SKPnnn   columns 7-9 how many lines are passed over
#[tactic(auto, unfolding(crate::specs::Reading::skip_of))]
fn skip(line: &[u8]) -> Option<u32>
    ensures { result ≡ skip_of line.now }
{
    let (b'S', b'K', b'P') = (cell(line, 4), cell(line, 5), cell(line, 6)) else {
        return None;
    };
    let after = field(line, 7, 9)?;
    if after < 0 {
        return None;
    }
    Some(after as u32)
}
