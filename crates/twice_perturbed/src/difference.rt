// What the twist adds to the differential of the big complex of the second reduction.
ghost use Rattle.std.specs.Prelude.{[]};
ghost use Rattle.twice_perturbed.specs.Firsts.{difference, MayDiffer};

use crate::first::FirstMaps;
use crate::twice::Twice;
use chain_core::{Chain, Source};
use perturb::ChainMap;
use reduct_laws::Reduction;
use std::alloc::Global;

/// f q P g of the first reduction, as what is added to the big differential of the second, with so many terms of the series. It asks nothing.
#[derive(Drop)]
pub struct Difference<'a, D, T> {
    pub of: &'a Twice<'a, D, T>,
    pub rank: u64,
}

impl<'a, S: Source, D: FirstMaps, T: Reduction<S, Big = D::Middle>> ChainMap<S, D::Middle>
    for Difference<'a, D, T> {
    type Stop = T::Stop;

    ghost prime = { λ d. (D.maps d.of.now.first.now).prime };

    ghost may_be_asked = { λ d x. MayDiffer D.Big.cmp D.Middle.cmp (D.maps d.of.now.first.now) d.rank x };

    ghost image_of = { λ d x. difference D.Big.cmp D.Middle.cmp (D.maps d.of.now.first.now) d.rank x };

    ghost asks = { λ d x. [] };

    fn along(
        &self,
        alloc: Global,
        source: &mut S,
        chain: &Chain<D::Middle>,
    ) -> Result<Chain<D::Middle>, T::Stop> {
        let _ = source;
        if chain.is_empty() {
            return Ok(Chain::new(alloc, chain.prime()));
        }
        Ok(self.of.first.difference(alloc, self.rank, chain)?)
    }

    ghost one_key = { D.one_middle };
}
