// Texts of words of degeneracies.
ghost use Rattle.std.specs.Prelude.{◌≡◌, ◌≤◌, ◌++◌, OnOk, [], cond};
ghost use Rattle.simp_ops.specs.Bits.{bit, places, mask_word};
ghost use Rattle.reply_text.specs.CellText.{degens_text, degens_left};

use crate::pieces::{ByteList, push_number, push_text};
use simp_ops::Degens;
use std::alloc::AllocError;

/// Puts a word of degeneracies at the end, in decreasing order with `-` between them and a `:` at its
/// end, where there are any.
pub(crate) fn push_degens(out: &mut ByteList, degens: Degens) -> Result<(), AllocError>
    ensures { OnOk result (out.new ≡ out.old ++ degens_text (mask_word degens.mask)) }
{
    push_degens_below(out, degens, 32, true)
}

// The degeneracies below n, and the `:`. `is_first` says that there are none from n on.
fn push_degens_below(
    out: &mut ByteList,
    degens: Degens,
    n: u32,
    is_first: bool,
) -> Result<(), AllocError>
    requires { n ≤ 32 }
    ensures { OnOk result (out.new ≡ out.old ++ degens_left is_first (places n (bit degens.mask))) }
{
    if n == 0 {
        return push_after(out, is_first, ":");
    }
    if !degens.has(n - 1) {
        return push_degens_below(out, degens, n - 1, is_first);
    }
    push_after(out, is_first, "-")?;
    push_number(out, (n - 1) as u64)?;
    push_degens_below(out, degens, n - 1, false)
}

// A text, unless no degeneracy stands before it.
fn push_after(out: &mut ByteList, is_first: bool, text: &str) -> Result<(), AllocError>
    ensures { OnOk result (out.new ≡ out.old ++ cond is_first [] text.now) }
{
    if is_first {
        return Ok(());
    }
    push_text(out, text)
}
