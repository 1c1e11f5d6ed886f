// The complex of one edge, on which reductions are tried.
ghost use Rattle.std.specs.Prelude.{◌≡◌, []};
ghost use Rattle.std.specs.declared.cmp.Ordering.TheVariants.{Equal};
ghost use Rattle.std.proofs.Common.{sym};
ghost use Rattle.std.proofs.lemmas.Cmp.{ranked};
ghost use Rattle.fp_field.specs.declared.prime.Prime.TheVariants.{Three};
ghost use Rattle.reduct_laws.specs.Edge.{edge_d};

use crate::answers::ONE;
use chain_core::{Chain, Degrees, LinearMap};
use fp_field::Prime;
use reduct_laws::Identity;
use std::alloc::{AllocError, Global};

/// The generators: b in degree 0 and a in degree 1.
pub const B: u32 = 0;

pub const A: u32 = 1;

/// The complex over F_3 with d(a) = b.
#[derive(Drop)]
pub struct Edge;

impl Degrees for Edge {
    type Gen = u32;

    ghost generator = { λ m n k. k ≡ n };

    ghost degree_of = { λ m k. k };

    fn degree(&self, k: &u32) -> u32 {
        *k
    }

    ghost graded = { λ m n k g. g };
}

impl LinearMap<(), u32, u32> for Edge {
    type Stop = AllocError;

    ghost prime = { λ m. Three };

    ghost may_be_asked = { λ m k. Unit {0} };

    ghost image_of = { λ m k. edge_d k };

    ghost asks = { λ m k. [] };

    fn image(&self, alloc: Global, source: &mut (), k: &u32) -> Result<Chain<u32>, AllocError> {
        let _ = source;
        let mut image = Chain::new(alloc, Prime::Three);
        if *k == A {
            image.add_term(B, ONE)?;
        }
        Ok(image)
    }

    ghost one_key = { λ x y e. ranked x y Equal (sym e) };
}

/// The identity on it.
pub fn whole() -> Identity<Edge>
    ensures { result.p ≡ Three }
{
    Identity {
        p: Prime::Three,
        d: Edge,
    }
}
