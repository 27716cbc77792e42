// The text of a structure.
ghost use Rattle.std.specs.Prelude.{◌≡◌, ◌++◌, OnOk};
ghost use Rattle.mk_spelling.specs.TableSpelling.{CanBeSpelt};
ghost use Rattle.mk_enum.specs.Texts.{behind_blank, numbers_text, structure_text};

use mk_model::Memory;
use mk_spelling::write_table;
use mk_tables::RawTable;
use mk_text::put_number;
use std::alloc::Global;

/// Appends the text of the structure of a code: the line `choice` with the code's numbers, two
/// empty lines, the table and the line `$$$$`.
pub fn put_text(
    alloc: Global,
    out: &mut Vec<u8>,
    code: &[u32],
    table: &RawTable,
) -> Result<(), Memory>
    requires { CanBeSpelt table.now }
    ensures { OnOk result (out.new.items ≡ out.old.items ++ structure_text code.now table.now) }
{
    out.extend_from_slice(b"choice")?;
    put_numbers(alloc, out, code)?;
    out.extend_from_slice(b"\n\n\n")?;
    write_table(alloc, out, table)?;
    out.extend_from_slice(b"$$$$\n")
}

/// Appends numbers, each behind a blank.
pub fn put_numbers(alloc: Global, out: &mut Vec<u8>, numbers: &[u32]) -> Result<(), Memory>
    ensures { OnOk result (out.new.items ≡ out.old.items ++ numbers_text numbers.now) }
{
    for number in numbers {
        put_behind_blank(alloc, out, *number)?;
    }
    Ok(())
}

fn put_behind_blank(alloc: Global, out: &mut Vec<u8>, number: u32) -> Result<(), Memory>
    ensures { OnOk result (out.new.items ≡ out.old.items ++ behind_blank number) }
{
    out.push(b' ')?;
    put_number(alloc, out, u64::from(number))
}
