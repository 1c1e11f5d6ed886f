// The spaces of the parts of a cell.
ghost use Rattle.std.specs.Prelude.{◌≡◌};
ghost use Rattle.term_lang.specs.SpaceOf.{space_of};
ghost use Rattle.reply_text.specs.CellText.{left_part, right_part, part_below};
ghost use Rattle.reply_text.specs.Spaces.{printed_space};

use term_lang::{Table, Term};

/// The space whose cells are printed.
#[derive(Clone, Copy)]
pub(crate) enum Printed<'a> {
    /// The space of a term.
    Whole(&'a Term),
    /// The simplicial set of a table, the base of a bundle.
    Rows(&'a Table),
    /// K(Z,1), the fibre of a bundle.
    Integers,
    /// The loop group of the space of a term, the fibre of a path space.
    Loops(&'a Term),
}

/// The space of the left simplex of a pair: the left part of a product, or the base.
pub(crate) fn left<'a>(space: Printed<'a>) -> Printed<'a>
    ensures { printed_space result ≡ left_part (printed_space space.entry) }
{
    match space {
        Printed::Whole(t) => left_of(t),
        Printed::Rows(_) | Printed::Integers | Printed::Loops(_) => space,
    }
}

#[tactic(auto, using(crate::proofs::Parts::left_table, crate::proofs::Parts::left_sphere, crate::proofs::Parts::left_product, crate::proofs::Parts::left_suspension, crate::proofs::Parts::left_kz1, crate::proofs::Parts::left_bundle, crate::proofs::Parts::left_loop, crate::proofs::Parts::left_path))]
fn left_of<'a>(t: &'a Term) -> Printed<'a>
    ensures { printed_space result ≡ left_part (space_of t.now) }
{
    match t {
        Term::Product(a, _) => Printed::Whole(a.get()),
        Term::Bundle(rows, _) => Printed::Rows(rows),
        Term::Path(a) => Printed::Whole(a.get()),
        Term::Table(_) | Term::Sphere(_) | Term::Suspension(_) | Term::KZ1 | Term::Loop(_) => {
            Printed::Whole(t)
        }
    }
}

/// The space of the right simplex of a pair: the right part of a product, or the fibre.
pub(crate) fn right<'a>(space: Printed<'a>) -> Printed<'a>
    ensures { printed_space result ≡ right_part (printed_space space.entry) }
{
    match space {
        Printed::Whole(t) => right_of(t),
        Printed::Rows(_) | Printed::Integers | Printed::Loops(_) => space,
    }
}

#[tactic(auto, using(crate::proofs::Parts::right_table, crate::proofs::Parts::right_sphere, crate::proofs::Parts::right_product, crate::proofs::Parts::right_suspension, crate::proofs::Parts::right_kz1, crate::proofs::Parts::right_bundle, crate::proofs::Parts::right_loop, crate::proofs::Parts::right_path))]
fn right_of<'a>(t: &'a Term) -> Printed<'a>
    ensures { printed_space result ≡ right_part (space_of t.now) }
{
    match t {
        Term::Product(_, b) => Printed::Whole(b.get()),
        Term::Bundle(_, _) => Printed::Integers,
        Term::Path(a) => Printed::Loops(a.get()),
        Term::Table(_) | Term::Sphere(_) | Term::Suspension(_) | Term::KZ1 | Term::Loop(_) => {
            Printed::Whole(t)
        }
    }
}

/// The space of a suspended cell and of a letter.
pub(crate) fn below<'a>(space: Printed<'a>) -> Printed<'a>
    ensures { printed_space result ≡ part_below (printed_space space.entry) }
{
    match space {
        Printed::Whole(t) => below_of(t),
        Printed::Loops(t) => Printed::Whole(t),
        Printed::Rows(_) | Printed::Integers => space,
    }
}

#[tactic(auto, using(crate::proofs::Parts::below_table, crate::proofs::Parts::below_sphere, crate::proofs::Parts::below_product, crate::proofs::Parts::below_suspension, crate::proofs::Parts::below_kz1, crate::proofs::Parts::below_bundle, crate::proofs::Parts::below_loop, crate::proofs::Parts::below_path))]
fn below_of<'a>(t: &'a Term) -> Printed<'a>
    ensures { printed_space result ≡ part_below (space_of t.now) }
{
    match t {
        Term::Suspension(a) | Term::Loop(a) => Printed::Whole(a.get()),
        Term::Table(_)
        | Term::Sphere(_)
        | Term::Product(_, _)
        | Term::KZ1
        | Term::Bundle(_, _)
        | Term::Path(_) => Printed::Whole(t),
    }
}
