// Numbers and texts in their columns, at the end of what is written so far.
ghost use Rattle.std.specs.Prelude.{◌≡◌, ◌++◌, ◌∷◌, ◌≤◌, ◌<ℤ◌, ◌≤ℤ◌, length, pos, neg_ℤ, OnOk, decimal};
ghost use Rattle.mk_text.specs.Spelling.{at_right, right_in};
ghost use Rattle.mk_props.specs.Lists.{flag_text};
ghost use Rattle.mk_spelling.specs.TableSpelling.{three, spaced, count_text, at_left, FitsThree};

use mk_text::{Memory, put_number};
use std::alloc::Global;

/// A number from 0 to 999 at the right of three columns.
pub fn put_right(alloc: Global, out: &mut Vec<u8>, n: u32) -> Result<(), Memory>
    requires { n ≤ 999 }
    ensures { OnOk result (out.new.items ≡ out.old.items ++ right_in 3 n) }
{
    if n < 10 {
        out.extend_from_slice(b"  ")?;
        return put_number(alloc, out, u64::from(n));
    }
    if n < 100 {
        out.extend_from_slice(b" ")?;
        return put_number(alloc, out, u64::from(n));
    }
    put_number(alloc, out, u64::from(n))
}

// A minus sign and a number from 1 to 99 at the right of three columns.
fn put_minus(alloc: Global, out: &mut Vec<u8>, n: u32) -> Result<(), Memory>
    requires { n ≤ 99 }
    ensures { OnOk result (out.new.items ≡ out.old.items ++ at_right 3 (45 ∷ decimal n)) }
{
    if n < 10 {
        out.extend_from_slice(b" -")?;
        return put_number(alloc, out, u64::from(n));
    }
    out.extend_from_slice(b"-")?;
    put_number(alloc, out, u64::from(n))
}

// What stands behind the minus sign of a number below 0.
fn digits_below_zero(number: i32) -> u32
    requires fits { FitsThree number }
    requires below { number <ℤ pos 0 }
    ensures { neg_ℤ number ≡ pos result }
{
    (-number) as u32
}

// The number itself, from 0 on.
fn digits_from_zero(number: i32) -> u32
    requires { pos 0 ≤ℤ number }
    ensures { number ≡ pos result }
{
    number as u32
}

/// A number at the right of three columns.
pub fn put_three(alloc: Global, out: &mut Vec<u8>, number: i32) -> Result<(), Memory>
    requires { FitsThree number }
    ensures { OnOk result (out.new.items ≡ out.old.items ++ three number) }
{
    if number < 0 {
        return put_minus(alloc, out, digits_below_zero(number));
    }
    put_right(alloc, out, digits_from_zero(number))
}

/// A blank, and a number at the right of three columns.
pub fn put_spaced(alloc: Global, out: &mut Vec<u8>, number: i32) -> Result<(), Memory>
    requires { FitsThree number }
    ensures { OnOk result (out.new.items ≡ out.old.items ++ spaced number) }
{
    out.extend_from_slice(b" ")?;
    put_three(alloc, out, number)
}

/// How many there are, at the right of three columns.
#[tactic(auto, unfolding(crate::specs::TableSpelling::three))]
pub fn put_count<T>(alloc: Global, out: &mut Vec<u8>, entries: &[T]) -> Result<(), Memory>
    requires { length entries.now ≤ 999 }
    ensures { OnOk result (out.new.items ≡ out.old.items ++ count_text entries.now) }
{
    put_right(alloc, out, entries.len() as u32)
}

/// T or F.
pub fn put_flag(out: &mut Vec<u8>, not: bool) -> Result<(), Memory>
    ensures { OnOk result (out.new.items ≡ out.old.items ++ flag_text not) }
{
    if not {
        return out.extend_from_slice(b"T");
    }
    out.extend_from_slice(b"F")
}

/// A text at the left of so many columns.
pub fn put_left(out: &mut Vec<u8>, width: usize, text: &[u8]) -> Result<(), Memory>
    ensures { OnOk result (out.new.items ≡ out.old.items ++ at_left width text.now) }
{
    out.extend_from_slice(text)?;
    for i in text.len()..width {
        out.push(b' ')?;
    }
    Ok(())
}
