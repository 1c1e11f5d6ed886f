// The dimension of a degree.
ghost use Rattle.std.specs.Prelude.{◌≡◌, IfOk, IfSome, All, length};
ghost use Rattle.std.specs.List.Sorted.{IsStrictlySortedBy};
ghost use Rattle.fp_field.specs.Field.{number};
ghost use Rattle.cells.specs.Small.{small_cmp};
ghost use Rattle.homology_rules.specs.Held.{HasSmallOver};
ghost use Rattle.homology_rules.specs.CycleVectors.{small_chains};
ghost use Rattle.session_core.specs.Dimensions.{rank_over, nullity_over, dimension_over};

use crate::ranks::{is_covered, nullity, rank};
use fp_field::Prime;
use oracle_iface::CellValue;
use seqs::Arc;
use std::alloc::{AllocError, Global};
use term_lang::SmallCell;

/// The dimension of a degree, and the nullity of the next one where it comes with it.
#[derive(Debug, Drop)]
pub struct Counted {
    pub dimension: usize,
    pub next: Option<usize>,
}

/// The nullity of small chains, from their rank over cells where these are all that occur in the chains.
fn nullity_from(
    cells: &[SmallCell],
    p: Prime,
    chains: &[Arc<CellValue>],
    rank: usize,
) -> Option<usize>
    requires rising { IsStrictlySortedBy small_cmp cells.now }
    requires chains { All (λ v. HasSmallOver p v.outcome) chains.now }
    requires rank { rank ≡ rank_over small_cmp (number p) cells.now (small_chains chains.now) }
    ensures { IfSome result (λ n. n ≡ nullity_over small_cmp (number p) (length chains.now) (small_chains chains.now)) }
{
    let _ = p;
    if is_covered(cells, chains) && rank <= chains.len() {
        Some(chains.len() - rank)
    } else {
        None
    }
}

/// The dimension of the homology of a degree, over its small cells, with their small differentials and those
/// of the next degree, as cells of the table hold them. The nullity of the degree may be known.
pub(crate) fn count_degree(
    alloc: Global,
    p: Prime,
    cells: &[SmallCell],
    chains: &[Arc<CellValue>],
    next: &[Arc<CellValue>],
    known: Option<usize>,
) -> Result<Counted, AllocError>
    requires rising { IsStrictlySortedBy small_cmp cells.now }
    requires lengths { length chains.now ≡ length cells.now }
    requires chains { All (λ v. HasSmallOver p v.outcome) chains.now }
    requires next { All (λ v. HasSmallOver p v.outcome) next.now }
    requires known { IfSome known (λ n. n ≡ nullity_over small_cmp (number p) (length chains.now) (small_chains chains.now)) }
    ensures dimension { IfOk result (λ c. c.dimension ≡ dimension_over small_cmp (number p) cells.now (small_chains chains.now) (small_chains next.now)) }
    ensures next { IfOk result (λ c. IfSome c.next (λ n. n ≡ nullity_over small_cmp (number p) (length next.now) (small_chains next.now))) }
{
    let nullity = match known {
        Some(n) => n,
        None => nullity(alloc, p, chains)?,
    };
    let rank = rank(alloc, p, cells, next)?;
    Ok(Counted {
        dimension: nullity.saturating_sub(rank),
        next: nullity_from(cells, p, next, rank),
    })
}
