// Texts of refusals, put at the end of a text. After a refusal the text must be given up.
ghost use Rattle.std.specs.Prelude.{◌≡◌, ◌++◌, OnOk};
ghost use Rattle.std.specs.Fmt.{signed_decimal};
ghost use Rattle.reply_text.specs.Text.{refusal_text, kind_text};

use crate::chain_texts::push_term;
use crate::list_texts::push_counted;
use crate::pieces::{ByteList, push_bytes, push_integer, push_number, push_text};
use crate::printed::Printed;
use crate::refusals::Refusal;
use oracle_iface::Kind;
use std::alloc::AllocError;

/// Puts the text of a refusal at the end, as it stands after the word `error`.
pub(crate) fn push_refusal(out: &mut ByteList, refusal: &Refusal) -> Result<(), AllocError>
    ensures { OnOk result (out.new ≡ out.old ++ refusal_text refusal.now) }
{
    match refusal {
        Refusal::Syntax => push_text(out, "syntax"),
        Refusal::NotBuilt => push_text(out, "not-built"),
        Refusal::UnknownName(name) => {
            push_text(out, "unknown-name ")?;
            push_bytes(out, name.as_bytes())
        }
        Refusal::Field(n) => push_counted(out, "field ", *n),
        Refusal::NoVertex => push_text(out, "table no-vertex"),
        Refusal::BadDimension(r) => push_counted(out, "table bad-dimension ", *r as u64),
        Refusal::UnknownCell(r, i) => {
            push_counted(out, "table unknown-cell ", *r as u64)?;
            push_counted(out, " ", *i as u64)
        }
        Refusal::FaceLaw(r, i, j) => {
            push_counted(out, "table face-law ", *r as u64)?;
            push_counted(out, " ", *i as u64)?;
            push_counted(out, " ", *j as u64)
        }
        Refusal::TooManyCells(n) => push_counted(out, "table too-many-cells ", *n),
        Refusal::DuplicateCell(r) => push_counted(out, "table duplicate-cell ", *r as u64),
        Refusal::CocycleUnknown(k) => push_counted(out, "cocycle unknown-cell ", *k),
        Refusal::CocycleRepeated(k) => push_counted(out, "cocycle repeated-cell ", *k),
        Refusal::NotClosed(r, sum) => {
            push_counted(out, "cocycle not-closed ", *r as u64)?;
            push_text(out, " ")?;
            push_sum(out, sum)
        }
        Refusal::TooDeep(d) => push_counted(out, "term too-deep ", *d as u64),
        Refusal::NotOneVertex(n) => push_counted(out, "term not-one-vertex ", *n),
        Refusal::NotOneReduced(l) => push_counted(out, "term not-one-reduced ", *l as u64),
        Refusal::BaseNotTable => push_text(out, "term base-not-table"),
        Refusal::BadSphere(n) => push_counted(out, "term bad-sphere ", *n),
        Refusal::Degree(n) => push_counted(out, "degree ", *n),
        Refusal::Simplex(k) => push_counted(out, "simplex ", *k),
        Refusal::NotCycle(t, c, x) => {
            push_text(out, "not-a-cycle ")?;
            push_term(out, Printed::Whole(t.get()), x, *c)
        }
        Refusal::Over(_, kind, size) => {
            push_text(out, "over ")?;
            push_kind(out, *kind)?;
            push_number(out, *size)
        }
    }
}

// The sum of the values of a cocycle on a row.
fn push_sum(out: &mut ByteList, sum: &i64) -> Result<(), AllocError>
    ensures { OnOk result (out.new ≡ out.old ++ signed_decimal sum.now) }
{
    push_integer(out, *sum)
}

fn push_kind(out: &mut ByteList, kind: Kind) -> Result<(), AllocError>
    ensures { OnOk result (out.new ≡ out.old ++ kind_text kind) }
{
    match kind {
        Kind::Letters => push_text(out, "letters "),
        Kind::Integer => push_text(out, "integer "),
        Kind::Terms => push_text(out, "terms "),
    }
}
