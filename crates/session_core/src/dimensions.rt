// The dimensions of homology.
ghost use Rattle.std.specs.Prelude.{◌≡◌, ◌≤◌, IfOk};
ghost use Rattle.fp_field.specs.Field.{number};
ghost use Rattle.term_lang.specs.SpaceOf.{space_of};
ghost use Rattle.homology_rules.specs.Asking.{MayForceEach, AskedFirst, EachAnswered, up_to_refusal};
ghost use Rattle.session_core.specs.Answer.{told_value};
ghost use Rattle.session_core.specs.Dimensions.{key_about as key_of_space};
ghost use Rattle.session_core.specs.Lines.{keys_asked};
ghost use Rattle.session_core.specs.Questions.{dimensions};
ghost use Rattle.session_core.specs.Telling.{Comes};
ghost use Rattle.session_core.specs.Whole.{IsReady};

use crate::answered::Answered;
use crate::keyed_dimensions::count_dimensions;
use fp_field::Prime;
use oracle_iface::{Forcer, Key, Op, Place};
use reply_text::NumberList;
use seqs::Arc;
use std::alloc::{AllocError, Global};
use term_lang::Term;

/// A key of a space, over a field.
pub(crate) fn key_about(term: &Arc<Term>, p: Prime) -> Result<Key, AllocError>
    ensures { IfOk result (λ k. k ≡ key_of_space term.now p 0) }
{
    Ok(Key {
        op: Op::Basis,
        prime: p,
        place: Place::Degree(0),
        term: term.clone()?,
    })
}

/// The dimensions of the homology of a space in the degrees from one to another, by asking for keys up to the first
/// refusal.
pub(crate) fn dimensions_by_asking<F: Forcer>(
    alloc: Global,
    p: Prime,
    term: &Arc<Term>,
    low: u32,
    high: u32,
    forcer: &mut F,
) -> Result<Answered<NumberList>, AllocError>
    requires ready { IsReady (space_of term.now) }
    requires low { low ≤ 16 }
    requires high { high ≤ 16 }
    requires forcer { MayForceEach F.may_force F.forces forcer.old (keys_asked p (dimensions (number p) (space_of term.now) low high)) }
    ensures answer { IfOk result (λ a. Comes (told_value p term.now 0 (dimensions (number p) (space_of term.now) low high)) a) }
    ensures asked { AskedFirst F.forces (keys_asked p (dimensions (number p) (space_of term.now) low high)) forcer.old forcer.new }
    ensures through { IfOk result (λ a. EachAnswered F.forces forcer.old (up_to_refusal (keys_asked p (dimensions (number p) (space_of term.now) low high))) forcer.new) }
{
    let key = key_about(term, p)?;
    let answer = count_dimensions(alloc, &key, low, high, forcer)?;
    Ok(answer)
}
