// Maps on chains that draw on a source, and their linear extension.
ghost use Rattle.std.specs.Prelude.{◌≡◌, ◌+◌, ◌*◌, ◌<◌, ◌^◌, ℕ, List, [], ◌++◌, All, Option, None, IfOk, IfErr, OnOk, refl};
ghost use Rattle.std.proofs.Common.{◌∙◌, ap};
ghost use Rattle.std.specs.declared.cmp.Ordering.TheVariants.{Equal};
ghost use Rattle.std.specs.declared.alloc.AllocError.{AllocError};
ghost use Rattle.fp_field.specs.declared.prime.Prime.{Prime};
ghost use Rattle.fp_field.specs.Field.{number, SameMod};
ghost use Rattle.fp_field.specs.Chains.{Terms, weigh, extend, EachKey};
ghost use Rattle.fp_field.specs.Normal.{normal};
ghost use Rattle.chain_core.specs.Formal.{numbers};
ghost use Rattle.chain_core.specs.Asks.{MayAsk, Asked, asks_along};
ghost use Rattle.chain_core.specs.Faults.{stop_of, StopsAtKey};

use crate::chain::Chain;
use fp_field::{Fp, mul};
use std::alloc::{AllocError, Global};
use std::convert::Infallible;

/// What a map draws on, such as a table of values. It is asked, and an ask may meet a refusal.
pub trait Source {
    type Ask;

    type Refusal;

    /// Which asks may be made.
    ghost can_ask: { Self → Self.Ask → Type 0 };

    /// The refusal that an ask meets, where it meets one.
    ghost refusal: { Self.Ask → Option Self.Refusal };

    /// A state, the asks that were made of it in order, and the state after them.
    ghost runs: { Self → List Self.Ask → Self → Type 0 };

    ghost runs_none: { (s : Self) → runs s [] s };

    ghost runs_both: { (s t u : Self) (a b : List Self.Ask) → runs s a t → runs t b u → runs s (a ++ b) u };
}

/// The source that is asked nothing.
impl Source for () {
    type Ask = Infallible;

    type Refusal = Infallible;

    ghost can_ask = { λ s a. ⊥ };

    ghost refusal = { λ a. None };

    ghost runs = { λ s asks t. asks ≡ [] };

    ghost runs_none = { λ s. refl };

    ghost runs_both = { λ s t u a b h g. ap (λ l. l ++ b) h ∙ g };
}

/// What a map answers in place of a chain: want of memory, or a refusal of the source.
pub trait Stops<S: Source>: From<AllocError> {
    /// The refusal that a stop is, or none where it is want of memory.
    ghost refused: { Self → Option S.Refusal };

    ghost memory: { (e : AllocError) (s : Self) → Self.from_gives e s → refused s ≡ None };
}

impl<S: Source> Stops<S> for AllocError {
    ghost refused = { λ s. None };

    ghost memory = { λ e s h. refl };
}

/// A map of keys to chains over one field, which draws on a source and does not depend on it.
pub trait LinearMap<S: Source, K, J: Ord> {
    type Stop: Stops<S>;

    ghost prime: { Self → Prime };

    ghost may_be_asked: { Self → K → Type 0 };

    ghost image_of: { Self → K → Terms J };

    /// What the call on a key asks of the source, in order.
    ghost asks: { Self → K → List S.Ask };

    /// The image of a key that may be asked.
    fn image(&self, alloc: Global, source: &mut S, k: &K) -> Result<Chain<J>, Self::Stop>
        requires key { may_be_asked self.now k.now }
        requires source { MayAsk S.can_ask S.runs source.old (asks self.now k.now) }
        ensures prime { IfOk result (λ c. c.prime ≡ prime self.now) }
        ensures image { IfOk result (λ c. c.terms ≡ normal J.cmp (number (prime self.now)) (image_of self.now k.now)) }
        ensures source { Asked S.runs S.refusal Self.Stop.refused source.old (asks self.now k.now) source.new result };

    /// Keys that compare equal are one key.
    ghost one_key: { (x y : J) → J.cmp x y ≡ Equal → x ≡ y };
}

/// Keys with degrees.
pub trait Degrees {
    type Gen: Ord;

    /// The generators of each degree.
    ghost generator: { Self → ℕ → Self.Gen → Type 0 };

    ghost degree_of: { Self → Self.Gen → ℕ };

    /// The degree of a key.
    fn degree(&self, k: &Self::Gen) -> u32
        requires { degree_of self.now k.now < 2 ^ 32 }
        ensures { result ≡ degree_of self.now k.now };

    ghost graded: { (m : Self) (n : ℕ) (x : Self.Gen) → generator m n x → degree_of m x ≡ n };
}

/// Why the linear extension of a map gave no chain.
#[derive(Debug, Drop)]
pub enum MapFault<E> {
    /// What the map answered on the first key on which it stopped.
    Stop(E),
    /// Want of memory.
    Memory,
}

impl<K: Ord> Chain<K> {
    /// The sum of the images of the keys, each times its coefficient. The keys are mapped in order, up to the first
    /// on which the map stops.
    pub fn map_linear<S: Source, J: Ord + Drop, M: LinearMap<S, K, J>>(
        &self,
        alloc: Global,
        source: &mut S,
        map: &M,
    ) -> Result<Chain<J>, MapFault<M::Stop>>
        requires prime { M.prime map.now ≡ self.now.prime }
        requires keys { EachKey (M.may_be_asked map.now) self.now.terms }
        requires source { MayAsk S.can_ask S.runs source.old (asks_along (M.asks map.now) self.now.terms) }
        ensures prime { IfOk result (λ c. c.prime ≡ self.now.prime) }
        ensures sum { IfOk result (λ c. c.terms ≡ normal J.cmp (number self.now.prime) (extend (M.image_of map.now) self.now.terms)) }
        ensures source { Asked S.runs S.refusal (stop_of M.Stop.refused) source.old (asks_along (M.asks map.now) self.now.terms) source.new result }
        ensures stop { IfErr result (StopsAtKey S.runs S.refusal M.Stop.refused (M.asks map.now) source.old self.now.terms source.new) }
    {
        let mut terms = Vec::new(alloc);
        for (k, c) in self.terms() {
            let image = match map.image(alloc, source, k) {
                Ok(image) => image,
                Err(stop) => return Err(MapFault::Stop(stop)),
            };
            match push_scaled(&mut terms, image, *c) {
                Ok(()) => {}
                Err(_) => return Err(MapFault::Memory),
            }
        }
        match Chain::from_terms(alloc, self.prime(), terms) {
            Ok(sum) => Ok(sum),
            Err(_) => Err(MapFault::Memory),
        }
    }
}

/// Pushes the terms of a chain, each times c, the highest key first.
fn push_scaled<K: Ord + Drop>(
    terms: &mut Vec<(K, Fp)>,
    chain: Chain<K>,
    c: Fp,
) -> Result<(), AllocError>
    requires element { c.value < number chain.prime }
    requires elements { All (λ t. t.1.value < number chain.prime) terms.old.items }
    ensures elements { OnOk result (All (λ t. t.1.value < number chain.prime) terms.new.items) }
    ensures sum { OnOk result ((w : K → ℕ) → SameMod (number chain.prime) (weigh w (numbers terms.new.items)) (weigh w (numbers terms.old.items) + c.value * weigh w chain.terms)) }
{
    let p = chain.prime();
    let mut left = chain.into_terms();
    terms.reserve(left.len())?;
    while let Some((key, number)) = left.pop() {
        terms.push((key, mul(p, c, number)))?;
    }
    Ok(())
}
