// The parts of a cycle.
ghost use Rattle.std.specs.Prelude.{◌≡◌, ◌≤◌, IfOk};
ghost use Rattle.fp_field.specs.Chains.{EachKey};
ghost use Rattle.fp_field.specs.Field.{number};
ghost use Rattle.term_lang.specs.SpaceOf.{space_of};
ghost use Rattle.homology_rules.specs.Asking.{MayForceEach, AskedFirst, EachAnswered, up_to_refusal};
ghost use Rattle.space_faces.specs.Boundaries.{IsLowCell, graded_chain};
ghost use Rattle.session_core.specs.Answer.{told_value};
ghost use Rattle.session_core.specs.Expressing.{AreParts, keys_of_parts};
ghost use Rattle.session_core.specs.Questions.{expressed};
ghost use Rattle.session_core.specs.Telling.{ComesTo};
ghost use Rattle.session_core.specs.Whole.{IsReady};

use crate::answered::Answered;
use crate::dimensions::key_about;
use crate::keyed_parts::express_by_asking;
use chain_core::Chain;
use elim_fp::FpRow;
use fp_field::Prime;
use oracle_iface::Forcer;
use seqs::Arc;
use std::alloc::{AllocError, Global};
use term_lang::{Cell, Term};

/// A cycle in its parts: its coefficients over the listed cycles, and a chain whose boundary is the rest.
#[derive(Debug, Drop)]
pub struct Expressed {
    pub class: FpRow,
    pub rest: Chain<Cell>,
}

/// The parts of a cycle of a space in a degree, by asking for keys up to the first refusal.
pub(crate) fn parts_by_asking<F: Forcer>(
    alloc: Global,
    p: Prime,
    term: &Arc<Term>,
    n: u32,
    z: &Chain<Cell>,
    forcer: &mut F,
) -> Result<Answered<Expressed>, AllocError>
    requires ready { IsReady (space_of term.now) }
    requires degree { n ≤ 16 }
    requires prime { z.now.prime ≡ p }
    requires cells { EachKey (IsLowCell (space_of term.now)) z.now.terms }
    requires degrees { EachKey (λ x. x.0 ≡ n) (graded_chain (space_of term.now) z.now.terms) }
    requires forcer { MayForceEach F.may_force F.forces forcer.old (keys_of_parts p term.now n (graded_chain (space_of term.now) z.now.terms)) }
    ensures answer { IfOk result (λ a. ComesTo (AreParts p (space_of term.now)) (told_value p term.now n (expressed (number p) (space_of term.now) n (graded_chain (space_of term.now) z.now.terms))) a) }
    ensures asked { AskedFirst F.forces (keys_of_parts p term.now n (graded_chain (space_of term.now) z.now.terms)) forcer.old forcer.new }
    ensures through { IfOk result (λ a. EachAnswered F.forces forcer.old (up_to_refusal (keys_of_parts p term.now n (graded_chain (space_of term.now) z.now.terms))) forcer.new) }
{
    let key = key_about(term, p)?;
    let answer = express_by_asking(alloc, &key, n, z, forcer)?;
    Ok(answer)
}
