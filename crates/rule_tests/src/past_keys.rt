// Keys whose own cell is past the limit on integers, which no session asks for at once.
ghost use Rattle.std.specs.Prelude.{◌≡◌, [], ◌∷◌, IfOk, pos, negsuc};
ghost use Rattle.cells.specs.declared.cells.Cell.TheVariants.{Ints as IntsCell, Up as UpCell};
ghost use Rattle.term_lang.specs.declared.terms.Term.TheVariants.{Suspension as SuspensionTerm, KZ1};
ghost use Rattle.susp_rules.specs.Treated.{IsTreated};

use fp_field::Prime;
use oracle_iface::{Key, Op, Place};
use seqs::{Arc, Box, new_seq};
use std::alloc::{AllocError, Global};
use term_lang::{Cell, Term};

// The cell |100001|.
fn past(alloc: Global) -> Result<Cell, AllocError>
    ensures { IfOk result (λ x. x ≡ IntsCell (pos 100001 ∷ [])) }
{
    let mut list = new_seq(alloc);
    list.push(100_001)?;
    Ok(Cell::Ints(list))
}

// The cell Up of |-100001|.
fn up_past(alloc: Global) -> Result<Cell, AllocError>
    ensures { IfOk result (λ x. x ≡ UpCell (IntsCell (negsuc 100000 ∷ []))) }
{
    let mut list = new_seq(alloc);
    list.push(-100_001)?;
    Ok(Cell::Up(Box::new(alloc, Cell::Ints(list))?))
}

// The suspension of K(Z,1).
fn suspended_integers(alloc: Global) -> Result<Term, AllocError>
    ensures { IfOk result (λ t. t ≡ SuspensionTerm KZ1) }
{
    Ok(Term::Suspension(Box::new(alloc, Term::KZ1)?))
}

/// The key of H at |100001|, in K(Z,1), over F_2.
pub(crate) fn homotopy_past(alloc: Global) -> Result<Key, AllocError>
    ensures { IfOk result IsTreated }
{
    Ok(Key {
        op: Op::H,
        prime: Prime::Two,
        place: Place::Big(past(alloc)?),
        term: Arc::new(alloc, Term::KZ1)?,
    })
}

/// The key of F at Up of |-100001|, in the suspension of K(Z,1), over F_3.
pub(crate) fn suspended_past(alloc: Global) -> Result<Key, AllocError>
    ensures { IfOk result IsTreated }
{
    let term = suspended_integers(alloc)?;
    Ok(Key {
        op: Op::F,
        prime: Prime::Three,
        place: Place::Big(up_past(alloc)?),
        term: Arc::new(alloc, term)?,
    })
}
