// Names of rows.
ghost use Rattle.std.specs.Prelude.{◌≡◌, ◌++◌, OnOk};
ghost use Rattle.spaces.specs.Spaces.{table};
ghost use Rattle.term_lang.specs.Rows.{rows_of};
ghost use Rattle.term_lang.specs.SpaceOf.{space_of};
ghost use Rattle.reply_text.specs.CellText.{row_text};
ghost use Rattle.reply_text.specs.Spaces.{printed_space};

use crate::pieces::{ByteList, push_bytes};
use crate::printed::Printed;
use std::alloc::AllocError;
use term_lang::{Table, Term};

/// Puts the name of a row of the space at the end. Only tables have rows.
pub(crate) fn push_row<'a>(
    out: &mut ByteList,
    space: Printed<'a>,
    row: u32,
) -> Result<(), AllocError>
    ensures { OnOk result (out.new ≡ out.old ++ row_text (printed_space space.entry) row) }
{
    match space {
        Printed::Rows(table) => push_name(out, table, row),
        Printed::Whole(t) => push_row_of(out, t, row),
        Printed::Integers | Printed::Loops(_) => Ok(()),
    }
}

#[tactic(auto, using(crate::proofs::RowTexts::row_table, crate::proofs::RowTexts::kept_sphere, crate::proofs::RowTexts::kept_product, crate::proofs::RowTexts::kept_suspension, crate::proofs::RowTexts::kept_kz1, crate::proofs::RowTexts::kept_bundle, crate::proofs::RowTexts::kept_loop, crate::proofs::RowTexts::kept_path))]
fn push_row_of(out: &mut ByteList, t: &Term, row: u32) -> Result<(), AllocError>
    ensures { OnOk result (out.new ≡ out.old ++ row_text (space_of t.now) row) }
{
    match t {
        Term::Table(table) => push_name(out, table, row),
        Term::Sphere(_)
        | Term::Product(_, _)
        | Term::Suspension(_)
        | Term::KZ1
        | Term::Bundle(_, _)
        | Term::Loop(_)
        | Term::Path(_) => Ok(()),
    }
}

fn push_name(out: &mut ByteList, rows: &Table, row: u32) -> Result<(), AllocError>
    ensures { OnOk result (out.new ≡ out.old ++ row_text (table (rows_of rows.now)) row) }
{
    match rows.rows().get(row as usize) {
        Some(row) => push_bytes(out, row.name.as_bytes()),
        None => Ok(()),
    }
}
