// Cells of a table of results as texts.
use oracle_iface::{CellValue, Outcome};
use std::alloc::{AllocError, Global};
use term_lang::Term;

// What a value shows of the structs that it is made of.
const FRAMES: [&str; 7] = [
    "Seq { items: ",
    "Box { inner: ",
    "Fp { value: ",
    "ChainList { chains: ",
    "Chain { prime: ",
    ", terms:",
    " }",
];

fn name_of(term: &Term) -> &'static str {
    match term {
        Term::Table(_) => "table",
        Term::Sphere(_) => "sphere",
        Term::Suspension(_) => "suspension",
        Term::KZ1 => "K(Z,1)",
        Term::Product(_, _) => "product",
        Term::Bundle(_, _) => "bundle",
        Term::Loop(_) => "loop group",
        Term::Path(_) => "path space",
    }
}

fn push_outcome(out: &mut String, outcome: &Outcome) -> Result<(), AllocError> {
    match outcome {
        Outcome::Value(body) => write!(out, "{body:?}\n"),
        Outcome::Over(over) => {
            let key = &over.key;
            write!(
                out,
                "{:?} {:?} is over {:?} {}\n",
                key.op, key.place, over.kind, over.size
            )
        }
    }
}

/// Writes the key of a cell, and what it comes to.
pub(crate) fn push_cell(out: &mut String, cell: &CellValue) -> Result<(), AllocError> {
    let key = cell.key.get();
    let name = name_of(key.term.get());
    write!(
        out,
        "{:?} {:?} of {name} over {:?} => ",
        key.op, key.place, key.prime
    )?;
    push_outcome(out, &cell.outcome)
}

/// A text without the names of structs: a list is `[..]`, and a chain its field and its terms.
pub(crate) fn unframed(alloc: Global, text: &str) -> Result<String, AllocError> {
    let mut out = text.replace(alloc, "\r", "")?;
    for frame in FRAMES {
        out = out.replace(alloc, frame, "")?;
    }
    Ok(out)
}
