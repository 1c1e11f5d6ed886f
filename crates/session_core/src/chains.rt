// Chains of a command.
ghost use Rattle.std.specs.Prelude.{◌≡◌, ◌<◌, ◌≤◌, ◌++◌, [], true, All, IfOk, IfErr, OnOk};
ghost use Rattle.fp_field.specs.Field.{number};
ghost use Rattle.chain_core.specs.Formal.{numbers};
ghost use Rattle.term_lang.specs.SpaceOf.{space_of};
ghost use Rattle.space_faces.specs.CodeBoundaries.{kept};
ghost use Rattle.session_core.specs.Answer.{told, told_term, told_terms, told_chain};
ghost use Rattle.session_core.specs.Telling.{Stops, IsToldChain, ArePushed, within_limits, no_cycle, is_big};
ghost use Rattle.session_core.specs.Whole.{IsReady};

use crate::stops::Stop;
use cells::Simplex;
use chain_core::Chain;
use fp_field::{Fp, Prime, reduce};
use oracle_iface::{Body, past, size_of};
use reply_text::Refusal;
use script_lang::{ChainText, ResolveFault, TermText, resolve};
use seqs::Arc;
use std::alloc::{AllocError, Global};
use term_lang::{Cell, Term, copy_cell};

/// The chain of degree n of a space that a text means. Degenerate simplices count as 0, equal ones add up, and
/// coefficients are reduced modulo p.
pub(crate) fn told_chain(
    alloc: Global,
    p: Prime,
    t: &Term,
    n: u32,
    text: &ChainText,
) -> Result<Chain<Cell>, Stop>
    requires ready { IsReady (space_of t.now) }
    requires degree { n ≤ 16 }
    ensures told { IfOk result (IsToldChain p (space_of t.now) (told_chain p t.now n text.now)) }
    ensures stops { IfErr result (λ s. Stops s (told_chain p t.now n text.now)) }
{
    match text {
        ChainText::Zero => Ok(Chain::new(alloc, p)),
        ChainText::Terms(texts) => {
            let terms = told_terms(alloc, p, t, n, texts.as_slice())?;
            Ok(Chain::from_terms(alloc, p, terms)?)
        }
    }
}

// The terms that texts mean, in order, without degenerate ones.
fn told_terms(
    alloc: Global,
    p: Prime,
    t: &Term,
    n: u32,
    texts: &[TermText],
) -> Result<Vec<(Cell, Fp)>, Stop>
    requires ready { IsReady (space_of t.now) }
    requires degree { n ≤ 16 }
    ensures elements { IfOk result (λ terms. All (λ t. t.1.value < number p) terms.items) }
    ensures told { IfOk result (λ terms. ArePushed (space_of t.now) (told_terms p t.now n 1 texts.now) [] terms.items) }
    ensures stops { IfErr result (λ s. Stops s (told_terms p t.now n 1 texts.now)) }
{
    let mut terms = Vec::new(alloc);
    for i in 0..texts.len() {
        push_term(alloc, p, t, n, i as u64 + 1, &texts[i], &mut terms)?;
    }
    Ok(terms)
}

// Pushes the k-th term.
fn push_term(
    alloc: Global,
    p: Prime,
    t: &Term,
    n: u32,
    k: u64,
    text: &TermText,
    terms: &mut Vec<(Cell, Fp)>,
) -> Result<(), Stop>
    requires ready { IsReady (space_of t.now) }
    requires degree { n ≤ 16 }
    requires elements { All (λ t. t.1.value < number p) terms.old.items }
    ensures elements { OnOk result (All (λ t. t.1.value < number p) terms.new.items) }
    ensures told { OnOk result (ArePushed (space_of t.now) (told_term p t.now n k text.now) terms.old.items terms.new.items) }
    ensures stops { IfErr result (λ s. Stops s (told_term p t.now n k text.now)) }
{
    match resolve(alloc, t, n, &text.simplex) {
        Ok(x) => Ok(push_kept(x, reduce(p, text.coeff), terms)?),
        Err(ResolveFault::NoSimplex) => Err(Stop::Refused(Refusal::Simplex(k))),
        Err(ResolveFault::Over(kind, size)) => Err(Stop::Refused(Refusal::Over(None, kind, size))),
        Err(ResolveFault::Memory) => Err(Stop::Memory),
    }
}

// Pushes the cell of a simplex that is not degenerate.
fn push_kept(x: Simplex, coefficient: Fp, terms: &mut Vec<(Cell, Fp)>) -> Result<(), AllocError>
    ensures { OnOk result (terms.new.items ≡ terms.old.items ++ kept x coefficient) }
{
    if x.degens.mask == 0 {
        terms.push((x.cell, coefficient))?;
    }
    Ok(())
}

/// A chain that is to be printed, unless it is past a limit.
pub(crate) fn within_limits(chain: Chain<Cell>) -> Result<Chain<Cell>, Stop>
    ensures told { IfOk result (λ c. within_limits chain ≡ told c) }
    ensures stops { IfErr result (λ s. Stops s (within_limits chain)) }
{
    let body = Body::Big(chain);
    match past(&size_of(&body)) {
        Some((kind, size)) => Err(Stop::Refused(Refusal::Over(None, kind, size))),
        None => Ok(big_of(body)),
    }
}

// The chain of a value that is a chain of the space.
fn big_of(body: Body) -> Chain<Cell>
    requires { is_big body ≡ true }
    ensures { body ≡ Body.Big result }
{
    match body {
        Body::Cells(_) => unreachable!(),
        Body::Small(_) => unreachable!(),
        Body::Big(chain) => chain,
        Body::Many(_) => unreachable!(),
    }
}

/// Stops where a boundary is not 0.
pub(crate) fn check_boundary(alloc: Global, t: &Arc<Term>, d: &Chain<Cell>) -> Result<(), Stop>
    ensures zero { OnOk result (d.now.terms ≡ []) }
    ensures stops { IfErr result (λ s. Stops s (no_cycle t.now d.now.terms)) }
{
    match d.first() {
        Some((cell, coefficient)) => Err(Stop::Refused(Refusal::NotCycle(
            t.clone()?,
            coefficient,
            copy_cell(alloc, cell)?,
        ))),
        None => Ok(()),
    }
}
