// The twist of a circle bundle as what is added to the differential of pairs.
ghost use Rattle.std.specs.Prelude.{◌≡◌, ℕ, ◌≤◌, ◌^◌, [], ℤ, List};
ghost use Rattle.fp_field.specs.Field.{number};
ghost use Rattle.term_lang.specs.Rows.{rows_of};
ghost use Rattle.twist_maps.specs.Values.{AreValues};
ghost use Rattle.twist_chains.specs.Bundles.{IsBundlePair, fibre_integer, twist_on};

use crate::twists::bundle_twist;
use cells::{Cell, IntList};
use chain_core::{Chain, Source};
use ez_flow::FlowFaces;
use ez_maps::Pairs;
use fp_field::Prime;
use perturb::Perturb;
use std::alloc::{AllocError, Global};
use term_lang::Table;

/// The twist of the circle bundle of a cocycle, which is added to the differential of the pairs of base and fibre (Rubio and Sergeraert,
/// Constructive Homological Algebra and Applications, chapter 3). It asks nothing of its source. It may be asked on a pair of degree at
/// most 32, where the integers of the fibre are at most 2^60 in magnitude.
#[derive(Drop)]
pub struct BundleTwist<'a> {
    pub base: &'a Table,
    pub values: &'a IntList,
    pub p: Prime,
}

impl<'a, S: Source, X: FlowFaces> Perturb<S, Pairs<X>> for BundleTwist<'a> {
    ghost prime_of = { λ t. t.p };

    ghost delta_of = { λ t c. twist_on (number t.p) (rows_of t.base.now) t.values.now c };

    ghost may_be_asked = { λ t c. AreValues (rows_of t.base.now) t.values.now × ((n : ℕ) × IsBundlePair (rows_of t.base.now) n c × (n ≤ 32)) × (fibre_integer c ≤ 2 ^ 60) };

    ghost asks = { λ t c. [] };

    fn delta(&self, alloc: Global, source: &mut S, x: &Cell) -> Result<Chain<Cell>, AllocError> {
        let _ = source;
        Ok(bundle_twist(alloc, self.base, self.values, self.p, x)?)
    }
}
