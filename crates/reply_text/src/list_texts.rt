// Texts of lists, each item with a space before it. After a refusal the text must be given up.
ghost use Rattle.std.specs.Prelude.{◌≡◌, ◌++◌, OnOk};
ghost use Rattle.std.specs.Fmt.{decimal};
ghost use Rattle.reply_text.specs.Text.{names_text, numbers_text};

use crate::lists::{NameList, NumberList};
use crate::pieces::{ByteList, push_bytes, push_number, push_text};
use elim_fp::FpRow;
use std::alloc::AllocError;

/// Puts names at the end.
pub(crate) fn push_names(out: &mut ByteList, names: &NameList) -> Result<(), AllocError>
    ensures { OnOk result (out.new ≡ out.old ++ names_text names.now) }
{
    for name in names.as_slice() {
        push_text(out, " ")?;
        push_bytes(out, name.as_bytes())?;
    }
    Ok(())
}

/// Puts numbers at the end.
pub(crate) fn push_numbers(out: &mut ByteList, numbers: &NumberList) -> Result<(), AllocError>
    ensures { OnOk result (out.new ≡ out.old ++ numbers_text numbers.now) }
{
    for n in numbers.as_slice() {
        push_counted(out, " ", *n)?;
    }
    Ok(())
}

/// Puts the values of a row at the end.
pub(crate) fn push_values(out: &mut ByteList, row: &FpRow) -> Result<(), AllocError>
    ensures { OnOk result (out.new ≡ out.old ++ numbers_text row.now.values) }
{
    for place in 0..row.width() {
        push_counted(out, " ", row.entry(place).value as u64)?;
    }
    Ok(())
}

/// Puts a text and a number at the end.
pub(crate) fn push_counted(out: &mut ByteList, text: &str, n: u64) -> Result<(), AllocError>
    ensures { OnOk result (out.new ≡ out.old ++ (text.now ++ decimal n)) }
{
    push_text(out, text)?;
    push_number(out, n)
}
