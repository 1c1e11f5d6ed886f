// Texts of cells, put at the end of a text. After a refusal the text must be given up.
ghost use Rattle.std.specs.Prelude.{◌≡◌, ◌++◌, OnOk, map};
ghost use Rattle.reply_text.specs.CellText.{cell_text, simplex_text, letter_text, spaced};
ghost use Rattle.reply_text.specs.Spaces.{printed_space};

use crate::degens::push_degens;
use crate::pieces::{ByteList, push_gap, push_integers, push_number, push_sign, push_text};
use crate::printed::{Printed, below, left, right};
use crate::rows::push_row;
use std::alloc::AllocError;
use term_lang::{Cell, Letter, LetterList, Simplex};

/// Puts the text of a cell of the space at the end.
#[cycle(texts)]
#[tactic(auto, using(crate::proofs::CellTexts::text_row, crate::proofs::CellTexts::text_base))]
pub(crate) fn push_cell<'a>(
    out: &mut ByteList,
    space: Printed<'a>,
    c: &Cell,
) -> Result<(), AllocError>
    ensures { OnOk result (out.new ≡ out.old ++ cell_text c.now (printed_space space.entry)) }
{
    match c {
        Cell::Row(_, row) => push_row(out, space, *row),
        Cell::Base => push_text(out, "*"),
        Cell::Top(n) => {
            push_text(out, "S")?;
            push_number(out, *n as u64)
        }
        Cell::Pair(a, b) => {
            push_text(out, "<")?;
            push_simplex(out, left(space), a.get())?;
            push_text(out, ",")?;
            push_simplex(out, right(space), b.get())?;
            push_text(out, ">")
        }
        Cell::Up(c) => {
            push_text(out, "^")?;
            push_cell(out, below(space), c.get())
        }
        Cell::Ints(list) => push_integers(out, list.as_slice()),
        Cell::Word(letters) => {
            push_text(out, "[")?;
            push_letters(out, below(space), letters)?;
            push_text(out, "]")
        }
    }
}

/// Puts the text of a simplex of the space at the end: its degeneracies and its cell.
#[cycle(texts)]
pub(crate) fn push_simplex<'a>(
    out: &mut ByteList,
    space: Printed<'a>,
    x: &Simplex,
) -> Result<(), AllocError>
    ensures { OnOk result (out.new ≡ out.old ++ simplex_text x.now (printed_space space.entry)) }
{
    push_degens(out, x.degens)?;
    push_cell(out, space, &x.cell)
}

#[cycle(texts)]
fn push_letter<'a>(
    out: &mut ByteList,
    space: Printed<'a>,
    letter: &Letter,
) -> Result<(), AllocError>
    ensures { OnOk result (out.new ≡ out.old ++ letter_text letter.now (printed_space space.entry)) }
{
    push_sign(out, letter.inverse)?;
    push_simplex(out, space, &letter.simplex)
}

#[cycle(texts)]
fn push_letters<'a>(
    out: &mut ByteList,
    space: Printed<'a>,
    letters: &LetterList,
) -> Result<(), AllocError>
    ensures { OnOk result (out.new ≡ out.old ++ spaced (map (λ l. letter_text l (printed_space space.entry)) letters.now)) }
{
    let mut is_first = true;
    for letter in letters.as_slice() {
        push_gap(out, is_first)?;
        push_letter(out, space, letter)?;
        is_first = false;
    }
    Ok(())
}
