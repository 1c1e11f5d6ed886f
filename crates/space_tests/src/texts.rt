// Lines of text that show what is found.
use std::alloc::{AllocError, Global};
use std::fmt::Debug;

// What a value shows of the structs that it is made of, and what stands for it: a simplex is its mask before its cell, a tensor its parts,
// and a letter whether it is an inverse and its simplex.
const FRAMES: [(&str, &str); 11] = [
    ("Simplex { degens: Degens { mask: ", ""),
    (" }, cell: ", ":"),
    ("Tensor { left: ", ""),
    (", right: ", " * "),
    ("Seq { items: ", ""),
    ("Box { inner: ", ""),
    ("Fp { value: ", ""),
    ("Chain { prime: ", ""),
    (", terms:", ""),
    ("Letter { inverse: ", ""),
    (", simplex: ", " "),
];

/// Writes a line of a name and a value.
pub(crate) fn push_line<T: Debug>(
    out: &mut String,
    name: &str,
    value: &T,
) -> Result<(), AllocError> {
    write!(out, "{name} = {value:?}\n")
}

/// A text without the names of structs: a list is `[..]`, and a chain its field and its terms.
pub(crate) fn unframed(alloc: Global, text: &str) -> Result<String, AllocError> {
    let mut out = text.replace(alloc, "\r", "")?;
    for (frame, short) in FRAMES {
        out = out.replace(alloc, frame, short)?;
    }
    out.replace(alloc, " }", "")
}
