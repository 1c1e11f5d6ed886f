// Products, and bundles over a table.
ghost use Rattle.std.specs.Prelude.{◌≡◌, None, IfOk, IfErr, OnOk};
ghost use Rattle.spaces.specs.Allowed.{IsAllowed, IsTable};
ghost use Rattle.term_lang.specs.Rows.{rows_of};
ghost use Rattle.term_lang.specs.SpaceOf.{space_of};
ghost use Rattle.term_lang.specs.declared.terms.Term.TheVariants.{Product as ProductTerm};
ghost use Rattle.twist_maps.specs.Values.{AreValues, first_open};
ghost use Rattle.session_core.specs.Answer.{told, told_whole, told_base, told_closed, told_bundle};
ghost use Rattle.session_core.specs.Telling.{Stops};
ghost use Rattle.session_core.specs.Whole.{IsReady};

use crate::pairs::bundle_values;
use crate::parts::term_refusal;
use crate::stops::Stop;
use cells::IntList;
use finite_sets::{BaseFault, bundle_base};
use reply_text::Refusal;
use script_lang::PairTextList;
use seqs::{Arc, Box};
use std::alloc::Global;
use term_lang::{Table, Term, check_term, copy_term};
use twist_maps::check_cocycle;

/// The product of two spaces, unless it is too deep.
pub(crate) fn told_product(
    alloc: Global,
    left: &Arc<Term>,
    right: &Arc<Term>,
) -> Result<Arc<Term>, Stop>
    requires left { IsReady (space_of left.now) }
    requires right { IsReady (space_of right.now) }
    ensures told { IfOk result (λ t. told_whole (ProductTerm left.now right.now) ≡ told t) }
    ensures ready { IfOk result (λ t. IsReady (space_of t)) }
    ensures stops { IfErr result (λ s. Stops s (told_whole (ProductTerm left.now right.now))) }
{
    let first = Box::new(alloc, copy_term(alloc, left.get())?)?;
    let second = Box::new(alloc, copy_term(alloc, right.get())?)?;
    let whole = Arc::new(alloc, Term::Product(first, second))?;
    match check_term(whole.get()) {
        Ok(()) => Ok(whole),
        Err(fault) => Err(Stop::Refused(term_refusal(fault))),
    }
}

/// The bundle over a base by the values that pairs give to its cells, or its first fault: a base that is neither
/// a table nor a sphere, then that of the pairs, then a row of dimension 3 on which the values are not closed.
pub(crate) fn told_bundle(
    alloc: Global,
    part: &Arc<Term>,
    pairs: &PairTextList,
) -> Result<Arc<Term>, Stop>
    requires { IsReady (space_of part.now) }
    ensures told { IfOk result (λ t. told_bundle pairs.now (told part.now) ≡ told t) }
    ensures ready { IfOk result (λ t. IsReady (space_of t)) }
    ensures stops { IfErr result (λ s. Stops s (told_bundle pairs.now (told part.now))) }
{
    let base = told_base(alloc, part.get())?;
    let values = bundle_values(alloc, &base, pairs)?;
    check_closed(&base, &values)?;
    Ok(Arc::new(alloc, Term::Bundle(base, values))?)
}

// The table of a base.
fn told_base(alloc: Global, t: &Term) -> Result<Table, Stop>
    requires { IsAllowed (space_of t.now) }
    ensures told { IfOk result (λ base. told_base t.now ≡ told (rows_of base)) }
    ensures form { IfOk result (λ base. IsTable (rows_of base)) }
    ensures stops { IfErr result (λ s. Stops s (told_base t.now)) }
{
    match bundle_base(alloc, t) {
        Ok(base) => Ok(base),
        Err(BaseFault::BaseNotTable) => Err(Stop::Refused(Refusal::BaseNotTable)),
        Err(BaseFault::Memory) => Err(Stop::Memory),
    }
}

// Stops where values are not closed.
fn check_closed(base: &Table, values: &IntList) -> Result<(), Stop>
    requires { AreValues (rows_of base.now) values.now }
    ensures closed { OnOk result (first_open (rows_of base.now) values.now ≡ None) }
    ensures stops { IfErr result (λ s. Stops s (told_closed (rows_of base.now) values.now)) }
{
    match check_cocycle(base, values) {
        Ok(()) => Ok(()),
        Err(open) => Err(Stop::Refused(Refusal::NotClosed(open.row, open.sum))),
    }
}
