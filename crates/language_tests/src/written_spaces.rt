// The terms of spaces as they are written, for the constructions that simplices are read in.
ghost use Rattle.std.specs.Prelude.{IfSome};
ghost use Rattle.term_lang.specs.SpaceOf.{space_of};
ghost use Rattle.normal_forms.specs.Built.{IsBuilt};

use finite_sets::{build_table, sphere_table};
use script_lang::{Expr, PairTextList};
use seqs::{Box, new_seq};
use std::alloc::Global;
use term_lang::Term;

/// The term of a space, if it has no names, loops or paths and memory suffices. Whether it names a space is not looked at.
#[tactic(auto, using(crate::proofs::Terms::sphere_is, crate::proofs::Terms::table_is, crate::proofs::Terms::integers_are, crate::proofs::Terms::suspension_is, crate::proofs::Terms::product_is))]
pub(crate) fn term_of(alloc: Global, e: &Expr) -> Option<Term>
    ensures { IfSome result (λ t. IsBuilt (space_of t)) }
{
    match e {
        Expr::Sphere(n) => Some(Term::Sphere(u32::try_from(*n).ok()?)),
        Expr::KZ1 => Some(Term::KZ1),
        Expr::Table(rows) => Some(Term::Table(build_table(alloc, rows).ok()?)),
        Expr::Suspension(a) => suspension_of(alloc, term_of(alloc, a.get())?),
        Expr::Product(a, b) => {
            let left = term_of(alloc, a.get())?;
            let right = term_of(alloc, b.get())?;
            product_of(alloc, left, right)
        }
        Expr::Bundle(a, values) => bundle_of(alloc, a.get(), values),
        Expr::Name(_) => None,
        Expr::Loop(_) => None,
        Expr::Path(_) => None,
    }
}

#[tactic(auto, using(crate::proofs::Terms::suspension_is))]
fn suspension_of(alloc: Global, part: Term) -> Option<Term>
    requires { IsBuilt (space_of part) }
    ensures { IfSome result (λ t. IsBuilt (space_of t)) }
{
    let part = Box::new(alloc, part).ok()?;
    Some(Term::Suspension(part))
}

#[tactic(auto, using(crate::proofs::Terms::product_is))]
fn product_of(alloc: Global, left: Term, right: Term) -> Option<Term>
    requires left { IsBuilt (space_of left) }
    requires right { IsBuilt (space_of right) }
    ensures { IfSome result (λ t. IsBuilt (space_of t)) }
{
    let left = Box::new(alloc, left).ok()?;
    let right = Box::new(alloc, right).ok()?;
    Some(Term::Product(left, right))
}

// The bundle over a sphere, with these values on the cells after its vertex.
#[tactic(auto, using(crate::proofs::Terms::bundle_is))]
fn bundle_of(alloc: Global, base: &Expr, pairs: &PairTextList) -> Option<Term>
    ensures { IfSome result (λ t. IsBuilt (space_of t)) }
{
    let Expr::Sphere(n) = base else {
        return None;
    };
    if *n < 1 || *n > 16 {
        return None;
    }
    let mut values = new_seq(alloc);
    values.push(0).ok()?;
    for pair in pairs.as_slice() {
        values.push(pair.value).ok()?;
    }
    let base = sphere_table(alloc, *n as u32).ok()?;
    Some(Term::Bundle(base, values))
}
