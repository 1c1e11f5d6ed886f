// Pieces of a text, put at its end. After a refusal the text must be given up.
ghost use Rattle.std.specs.Prelude.{◌≡◌, ◌++◌, OnOk, codes};
ghost use Rattle.std.specs.List.{flat_map};
ghost use Rattle.std.specs.Fmt.{decimal, signed_decimal};
ghost use Rattle.reply_text.specs.CellText.{gap, sign};

use seqs::Seq;
use std::alloc::AllocError;

/// The bytes of a text.
pub type ByteList = Seq<u8>;

/// Puts bytes at the end.
pub(crate) fn push_bytes(out: &mut ByteList, bytes: &[u8]) -> Result<(), AllocError>
    ensures { OnOk result (out.new ≡ out.old ++ bytes.now) }
{
    for byte in bytes {
        out.push(*byte)?;
    }
    Ok(())
}

/// Puts a text at the end.
pub(crate) fn push_text(out: &mut ByteList, text: &str) -> Result<(), AllocError>
    ensures { OnOk result (out.new ≡ out.old ++ text.now) }
{
    push_bytes(out, text.as_bytes())
}

/// Puts the decimal digits of a number at the end.
pub(crate) fn push_number(out: &mut ByteList, n: u64) -> Result<(), AllocError>
    ensures { OnOk result (out.new ≡ out.old ++ decimal n) }
{
    if n < 10 {
        return out.push(b'0' + n as u8);
    }
    push_number(out, n / 10)?;
    out.push(b'0' + (n % 10) as u8)
}

/// Puts the decimal digits of an integer at the end, after a `-` where it is negative.
pub(crate) fn push_integer(out: &mut ByteList, k: i64) -> Result<(), AllocError>
    ensures { OnOk result (out.new ≡ out.old ++ signed_decimal k) }
{
    if k < 0 {
        push_text(out, "-")?;
    }
    push_number(out, k.unsigned_abs())
}

/// Puts a space at the end, unless the first of several texts comes next.
pub(crate) fn push_gap(out: &mut ByteList, is_first: bool) -> Result<(), AllocError>
    ensures { OnOk result (out.new ≡ out.old ++ gap is_first) }
{
    if is_first {
        return Ok(());
    }
    push_text(out, " ")
}

/// Puts the sign of a letter at the end.
pub(crate) fn push_sign(out: &mut ByteList, inverse: bool) -> Result<(), AllocError>
    ensures { OnOk result (out.new ≡ out.old ++ sign inverse) }
{
    if !inverse {
        return Ok(());
    }
    push_text(out, "-")
}

/// Puts the text of a cell of K(Z,1) at the end: its integers between bars.
pub(crate) fn push_integers(out: &mut ByteList, list: &[i64]) -> Result<(), AllocError>
    ensures { OnOk result (out.new ≡ out.old ++ (codes "|" ++ flat_map (λ k. signed_decimal k ++ codes "|") list.now)) }
{
    push_text(out, "|")?;
    for k in list {
        push_integer(out, *k)?;
        push_text(out, "|")?;
    }
    Ok(())
}
