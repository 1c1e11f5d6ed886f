// The twist of a product.
ghost use Rattle.std.specs.Prelude.{[]};

use chain_core::{Chain, Source};
use fp_field::Prime;
use perturb::Perturb;
use reduct_laws::Reduction;
use std::alloc::Global;

/// Nothing is added to the differential: the twist of a product.
#[derive(Drop)]
pub struct NoTwist {
    pub p: Prime,
}

impl<S: Source, R: Reduction<S>> Perturb<S, R> for NoTwist {
    ghost prime_of = { λ t. t.p };

    ghost delta_of = { λ t x. [] };

    ghost may_be_asked = { λ t x. Unit {0} };

    ghost asks = { λ t x. [] };

    fn delta(&self, alloc: Global, source: &mut S, x: &R::Big) -> Result<Chain<R::Big>, R::Stop> {
        let _ = source;
        let _ = x;
        Ok(Chain::new(alloc, self.p))
    }

    fn is_none(&self) -> bool {
        true
    }
}
