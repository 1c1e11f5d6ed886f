// Texts of chains, put at the end of a text. After a refusal the text must be given up.
ghost use Rattle.std.specs.Prelude.{◌≡◌, ◌++◌, OnOk, map};
ghost use Rattle.reply_text.specs.CellText.{chain_text, term_text, spaced};
ghost use Rattle.reply_text.specs.Spaces.{printed_space};
ghost use Rattle.reply_text.specs.Text.{chain_line, cycles_text};

use crate::cell_texts::push_cell;
use crate::pieces::{ByteList, push_gap, push_number, push_text};
use crate::printed::Printed;
use chain_core::Chain;
use fp_field::Fp;
use oracle_iface::ChainList;
use std::alloc::AllocError;
use term_lang::Cell;

/// Puts a term of a chain at the end: a coefficient and a cell in parentheses.
pub(crate) fn push_term<'a>(
    out: &mut ByteList,
    space: Printed<'a>,
    c: &Cell,
    coefficient: Fp,
) -> Result<(), AllocError>
    ensures { OnOk result (out.new ≡ out.old ++ term_text (printed_space space.entry) c.now coefficient.value) }
{
    push_text(out, "(")?;
    push_number(out, coefficient.value as u64)?;
    push_text(out, " ")?;
    push_cell(out, space, c)?;
    push_text(out, ")")
}

fn push_terms<'a>(
    out: &mut ByteList,
    space: Printed<'a>,
    terms: &[(Cell, Fp)],
) -> Result<(), AllocError>
    ensures { OnOk result (out.new ≡ out.old ++ spaced (map (λ t. term_text (printed_space space.entry) t.0 t.1.value) terms.now)) }
{
    let mut is_first = true;
    for (c, coefficient) in terms {
        push_gap(out, is_first)?;
        push_term(out, space, c, *coefficient)?;
        is_first = false;
    }
    Ok(())
}

/// Puts the text of a chain at the end.
pub(crate) fn push_chain<'a>(
    out: &mut ByteList,
    space: Printed<'a>,
    chain: &Chain<Cell>,
) -> Result<(), AllocError>
    ensures { OnOk result (out.new ≡ out.old ++ chain_text (printed_space space.entry) chain.now.terms) }
{
    if chain.is_empty() {
        return push_text(out, "0");
    }
    push_terms(out, space, chain.terms())
}

/// Puts the line of a chain at the end.
pub(crate) fn push_chain_line<'a>(
    out: &mut ByteList,
    space: Printed<'a>,
    chain: &Chain<Cell>,
) -> Result<(), AllocError>
    ensures { OnOk result (out.new ≡ out.old ++ chain_line (printed_space space.entry) chain.now) }
{
    push_text(out, "chain ")?;
    push_chain(out, space, chain)?;
    push_text(out, "\n")
}

/// Puts the lines of cycles at the end.
pub(crate) fn push_cycles<'a>(
    out: &mut ByteList,
    space: Printed<'a>,
    cycles: &ChainList,
) -> Result<(), AllocError>
    ensures { OnOk result (out.new ≡ out.old ++ cycles_text (printed_space space.entry) cycles.now) }
{
    for cycle in cycles.as_slice() {
        push_chain(out, space, cycle)?;
        push_text(out, "\n")?;
    }
    Ok(())
}
