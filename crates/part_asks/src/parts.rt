// The maps of a part, each by one question.
ghost use Rattle.std.specs.Prelude.{IfOk};
ghost use Rattle.homology_rules.specs.Asking.{MayForceEach, AskedFirst, EachAnswered, up_to_refusal};
ghost use Rattle.oracle_iface.specs.Keys.{quote_chain, quote_small_chain, formal};
ghost use Rattle.term_lang.specs.SpaceOf.{space_of};
ghost use Rattle.part_asks.specs.OneKey.{f_at, h_at, g_at, small_d_at, IsOwnCell, IsOwnSmall};
ghost use Rattle.part_asks.specs.Reading.{keys_of, IsFound};

use crate::answers::{big_answer, small_answer};
use crate::found::Found;
use chain_core::Chain;
use fp_field::Prime;
use oracle_iface::{Forcer, Key, Op, Place};
use seqs::Arc;
use std::alloc::{AllocError, Global};
use term_lang::{Cell, SmallCell, Term, copy_cell, copy_small};

/// F of the space of a term at a cell of it.
pub fn part_f<F: Forcer>(
    alloc: Global,
    p: Prime,
    term: &Arc<Term>,
    x: &Cell,
    forcer: &mut F,
) -> Result<Found<Chain<SmallCell>>, AllocError>
    requires cell { IsOwnCell (space_of term.now) x.now }
    requires asks { MayForceEach F.may_force F.forces forcer.old (keys_of p (f_at (space_of term.now) x.now)) }
    ensures asked { AskedFirst F.forces (keys_of p (f_at (space_of term.now) x.now)) forcer.old forcer.new }
    ensures through { IfOk result (λ o. EachAnswered F.forces forcer.old (up_to_refusal (keys_of p (f_at (space_of term.now) x.now))) forcer.new) }
    ensures found { IfOk result (λ o. IsFound (λ c. formal p (quote_small_chain (space_of term.now) c)) p (f_at (space_of term.now) x.now) o) }
{
    let key = Key {
        op: Op::F,
        prime: p,
        place: Place::Big(copy_cell(alloc, x)?),
        term: term.clone()?,
    };
    small_answer(alloc, key, forcer)
}

/// H of the space of a term at a cell of it.
pub fn part_h<F: Forcer>(
    alloc: Global,
    p: Prime,
    term: &Arc<Term>,
    x: &Cell,
    forcer: &mut F,
) -> Result<Found<Chain<Cell>>, AllocError>
    requires cell { IsOwnCell (space_of term.now) x.now }
    requires asks { MayForceEach F.may_force F.forces forcer.old (keys_of p (h_at (space_of term.now) x.now)) }
    ensures asked { AskedFirst F.forces (keys_of p (h_at (space_of term.now) x.now)) forcer.old forcer.new }
    ensures through { IfOk result (λ o. EachAnswered F.forces forcer.old (up_to_refusal (keys_of p (h_at (space_of term.now) x.now))) forcer.new) }
    ensures found { IfOk result (λ o. IsFound (λ c. formal p (quote_chain (space_of term.now) c)) p (h_at (space_of term.now) x.now) o) }
{
    let key = Key {
        op: Op::H,
        prime: p,
        place: Place::Big(copy_cell(alloc, x)?),
        term: term.clone()?,
    };
    big_answer(alloc, key, forcer)
}

/// G of the space of a term at a small cell of it.
pub fn part_g<F: Forcer>(
    alloc: Global,
    p: Prime,
    term: &Arc<Term>,
    y: &SmallCell,
    forcer: &mut F,
) -> Result<Found<Chain<Cell>>, AllocError>
    requires cell { IsOwnSmall (space_of term.now) y.now }
    requires asks { MayForceEach F.may_force F.forces forcer.old (keys_of p (g_at (space_of term.now) y.now)) }
    ensures asked { AskedFirst F.forces (keys_of p (g_at (space_of term.now) y.now)) forcer.old forcer.new }
    ensures through { IfOk result (λ o. EachAnswered F.forces forcer.old (up_to_refusal (keys_of p (g_at (space_of term.now) y.now))) forcer.new) }
    ensures found { IfOk result (λ o. IsFound (λ c. formal p (quote_chain (space_of term.now) c)) p (g_at (space_of term.now) y.now) o) }
{
    let key = Key {
        op: Op::G,
        prime: p,
        place: Place::Small(copy_small(alloc, y)?),
        term: term.clone()?,
    };
    big_answer(alloc, key, forcer)
}

/// The small differential of the space of a term at a small cell of it.
pub fn part_small_d<F: Forcer>(
    alloc: Global,
    p: Prime,
    term: &Arc<Term>,
    y: &SmallCell,
    forcer: &mut F,
) -> Result<Found<Chain<SmallCell>>, AllocError>
    requires cell { IsOwnSmall (space_of term.now) y.now }
    requires asks { MayForceEach F.may_force F.forces forcer.old (keys_of p (small_d_at (space_of term.now) y.now)) }
    ensures asked { AskedFirst F.forces (keys_of p (small_d_at (space_of term.now) y.now)) forcer.old forcer.new }
    ensures through { IfOk result (λ o. EachAnswered F.forces forcer.old (up_to_refusal (keys_of p (small_d_at (space_of term.now) y.now))) forcer.new) }
    ensures found { IfOk result (λ o. IsFound (λ c. formal p (quote_small_chain (space_of term.now) c)) p (small_d_at (space_of term.now) y.now) o) }
{
    let key = Key {
        op: Op::SmallD,
        prime: p,
        place: Place::Small(copy_small(alloc, y)?),
        term: term.clone()?,
    };
    small_answer(alloc, key, forcer)
}
