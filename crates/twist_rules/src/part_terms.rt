// The terms of base and fibre.
ghost use Rattle.std.specs.Prelude.{◌≡◌, IfOk};
ghost use Rattle.term_lang.specs.SpaceOf.{space_of};
ghost use Rattle.twist_rules.specs.PartSpaces.{IsFibred, base_of, fibre_of};

use seqs::Arc;
use std::alloc::{AllocError, Global};
use term_lang::{Term, copy_table, share};

/// The terms of the base and of the fibre of a product or a circle bundle.
#[derive(Debug, Drop)]
pub(crate) struct PartTerms {
    pub base: Arc<Term>,
    pub fibre: Arc<Term>,
}

/// The terms of the base and of the fibre: the two factors of a product, and the table and K(Z,1) of a
/// bundle.
pub(crate) fn part_terms(alloc: Global, term: &Term) -> Result<PartTerms, AllocError>
    requires { IsFibred (space_of term.now) }
    ensures base { IfOk result (λ parts. space_of parts.base ≡ base_of (space_of term.now)) }
    ensures fibre { IfOk result (λ parts. space_of parts.fibre ≡ fibre_of (space_of term.now)) }
{
    match term {
        Term::Product(left, right) => Ok(PartTerms {
            base: share(alloc, left.get())?,
            fibre: share(alloc, right.get())?,
        }),
        Term::Bundle(table, _) => Ok(PartTerms {
            base: Arc::new(alloc, Term::Table(copy_table(alloc, table)?))?,
            fibre: Arc::new(alloc, Term::KZ1)?,
        }),
        _ => unreachable!(),
    }
}
