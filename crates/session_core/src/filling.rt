// The last parts of a cycle, by asking for G.
ghost use Rattle.std.specs.Prelude.{◌≡◌, ◌++◌, IfOk};
ghost use Rattle.std.specs.List.Sorted.{IsStrictlySortedBy};
ghost use Rattle.fp_field.specs.Field.{number};
ghost use Rattle.fp_field.specs.Normal.{normal};
ghost use Rattle.cells.specs.Order.{cell_cmp};
ghost use Rattle.cells.specs.Small.{small_cmp};
ghost use Rattle.homology_rules.specs.Asking.{MayForceEach, AskedFirst};
ghost use Rattle.homology_rules.specs.Degrees.{cells_at};
ghost use Rattle.session_core.specs.Along.{ComesAlong};
ghost use Rattle.session_core.specs.Dimensions.{AreDegrees};
ghost use Rattle.session_core.specs.KeyedParts.{keys_of_filling, IsFilled};

use crate::answered::Answered;
use crate::degrees::TwoDegrees;
use crate::divisions::{Divided, divide};
use crate::images::Images;
use crate::parts_of_cycles::Expressed;
use chain_core::Chain;
use fp_field::Prime;
use homology_rules::{Carried, carry, small_cells};
use oracle_iface::{CellValue, Forcer, Key};
use seqs::Arc;
use std::alloc::{AllocError, Global};
use term_lang::Cell;

/// The sum of two chains.
fn sum_of_both(
    alloc: Global,
    p: Prime,
    first: Chain<Cell>,
    second: Chain<Cell>,
) -> Result<Chain<Cell>, AllocError>
    requires first { first.prime ≡ p }
    requires second { second.prime ≡ p }
    ensures prime { IfOk result (λ c. c.prime ≡ p) }
    ensures terms { IfOk result (λ c. c.terms ≡ normal cell_cmp (number p) (first.terms ++ second.terms)) }
{
    let mut terms = first.into_terms();
    let mut more = second.into_terms();
    terms.append(&mut more)?;
    Chain::from_terms(alloc, p, terms)
}

/// The parts of a cycle whose values under F and H are known: asks for G at the small cells of the filling.
pub(crate) fn fill<F: Forcer>(
    alloc: Global,
    key: &Key,
    n: u32,
    degrees: &TwoDegrees,
    images: Images,
    forcer: &mut F,
) -> Result<Answered<Expressed>, AllocError>
    requires degrees { AreDegrees F.forces key.now n degrees.now }
    requires rising { IsStrictlySortedBy small_cmp (cells_at key.now n) }
    requires image { images.image.prime ≡ key.now.prime }
    requires homotopy { images.homotopy.prime ≡ key.now.prime }
    requires forcer { MayForceEach F.may_force F.forces forcer.old (keys_of_filling key.now n images.image.terms) }
    ensures asked { AskedFirst F.forces (keys_of_filling key.now n images.image.terms) forcer.old forcer.new }
    ensures answer { IfOk result (λ a. ComesAlong F.forces (keys_of_filling key.now n images.image.terms) (λ x. IsFilled key.now n images.image.terms images.homotopy.terms x) forcer.old forcer.new a) }
{
    let _ = n;
    let Images { image, homotopy } = images;
    let cells = small_cells(degrees.cells.get()).as_slice();
    let chains: &[Arc<CellValue>] = &degrees.chains;
    let next_chains: &[Arc<CellValue>] = &degrees.next_chains;
    let divided = divide(alloc, key.prime, cells, chains, next_chains, &image)?;
    let next_cells = small_cells(degrees.next_cells.get()).as_slice();
    let Divided { class, filling } = divided;
    match carry(alloc, key, next_cells, &filling, forcer)? {
        Carried::Over(over) => Ok(Answered::Over(over)),
        Carried::Sum(chain) => {
            let rest = sum_of_both(alloc, key.prime, homotopy, chain)?;
            Ok(Answered::Told(Expressed { class, rest }))
        }
    }
}
