// Maps of keys to chains, as maps of whole chains.
ghost use Rattle.std.specs.Prelude.{◌≡◌, ℕ, List, IfOk};
ghost use Rattle.std.specs.declared.cmp.Ordering.TheVariants.{Equal};
ghost use Rattle.fp_field.specs.declared.prime.Prime.{Prime};
ghost use Rattle.fp_field.specs.Field.{number};
ghost use Rattle.fp_field.specs.Chains.{Terms, EachKey};
ghost use Rattle.fp_field.specs.Normal.{apply};
ghost use Rattle.chain_core.specs.Asks.{MayAsk, Asked, asks_along};

use chain_core::{Chain, LinearMap, Source, Stops};
use reduct_laws::apply;
use std::alloc::Global;

/// A map of keys to chains of keys, of which whole chains are asked for. It draws on a source and does not depend on it.
///
/// It asks of its source what its calls on the keys would ask, in order; how it comes to its value is its own.
pub trait ChainMap<S: Source, K: Ord> {
    type Stop: Stops<S>;

    ghost prime: { Self → Prime };

    ghost may_be_asked: { Self → K → Type 0 };

    ghost image_of: { Self → K → Terms K };

    /// What is asked of the source on a key, in order.
    ghost asks: { Self → K → List S.Ask };

    /// The image of a chain of keys that may be asked.
    fn along(&self, alloc: Global, source: &mut S, chain: &Chain<K>) -> Result<Chain<K>, Self::Stop>
        requires prime { prime self.now ≡ chain.now.prime }
        requires keys { EachKey (may_be_asked self.now) chain.now.terms }
        requires source { MayAsk S.can_ask S.runs source.old (asks_along (asks self.now) chain.now.terms) }
        ensures prime { IfOk result (λ c. c.prime ≡ chain.now.prime) }
        ensures sum { IfOk result (λ c. c.terms ≡ apply K.cmp (number chain.now.prime) (image_of self.now) chain.now.terms) }
        ensures source { Asked S.runs S.refusal Self.Stop.refused source.old (asks_along (asks self.now) chain.now.terms) source.new result };

    /// Keys that compare equal are one key.
    ghost one_key: { (x y : K) → K.cmp x y ≡ Equal → x ≡ y };
}

/// A linear map, key by key in order.
#[derive(Drop)]
pub struct OnKeys<'a, M> {
    pub of: &'a M,
}

impl<'a, S: Source, K: Ord + Drop, M: LinearMap<S, K, K>> ChainMap<S, K> for OnKeys<'a, M> {
    type Stop = <M as LinearMap<S, K, K>>::Stop;

    ghost prime = { λ m. M.prime m.of.now };

    ghost may_be_asked = { λ m x. M.may_be_asked m.of.now x };

    ghost image_of = { λ m x. M.image_of m.of.now x };

    ghost asks = { λ m x. M.asks m.of.now x };

    fn along(
        &self,
        alloc: Global,
        source: &mut S,
        chain: &Chain<K>,
    ) -> Result<Chain<K>, Self::Stop> {
        apply(alloc, source, self.of, chain)
    }

    ghost one_key = { M.one_key };
}
