// The values of keys that need nothing of the part.
ghost use Rattle.std.specs.Prelude.{◌≡◌, ℕ, IfOk};
ghost use Rattle.oracle_iface.specs.declared.keys.Op.TheVariants.{Cycles};
ghost use Rattle.susp_rules.specs.Bodies.{base_body, base_cells};

use chain_core::Chain;
use fp_field::{Fp, Prime};
use oracle_iface::{Body, Op, Place};
use seqs::new_seq;
use std::alloc::{AllocError, Global};
use term_lang::{Cell, SmallCell, SmallList};

/// The base in degree 0, and no small cell in degree 1.
fn base_list(alloc: Global, place: &Place) -> Result<SmallList, AllocError>
    ensures { IfOk result (λ l. l ≡ base_cells place.now) }
{
    let mut cells = new_seq(alloc);
    if let Place::Degree(0) = place {
        cells.push(SmallCell::One(Cell::Base))?;
    }
    Ok(cells)
}

/// The value at the base, and in the degrees 0 and 1.
pub(crate) fn base_value(alloc: Global, p: Prime, op: Op, place: &Place) -> Result<Body, AllocError>
    requires { op ≡ Cycles → ⊥ }
    ensures { IfOk result (λ b. b ≡ base_body p op place.now) }
{
    match op {
        Op::Basis => Ok(Body::Cells(base_list(alloc, place)?)),
        Op::SmallD => Ok(Body::Small(Chain::new(alloc, p))),
        Op::F => {
            let mut chain = Chain::new(alloc, p);
            chain.add_term(SmallCell::One(Cell::Base), Fp { value: 1 })?;
            Ok(Body::Small(chain))
        }
        Op::G => {
            let mut chain = Chain::new(alloc, p);
            chain.add_term(Cell::Base, Fp { value: 1 })?;
            Ok(Body::Big(chain))
        }
        Op::H => Ok(Body::Big(Chain::new(alloc, p))),
        Op::Cycles => unreachable!(),
    }
}
