// Chains: finite maps from keys to the elements of a field that are not 0.
ghost use Rattle.std.specs.Prelude.{◌≡◌, ◌++◌, ◌<◌, ◌↔◌, [], ◌∷◌, length, slice_get, Some, IsNone, IfSome, IfOk, IsTrue, OnOk, OnErr, All, option_map};
ghost use Rattle.std.specs.Ordering.{eq_by_cmp};
ghost use Rattle.std.specs.declared.cmp.Ordering.TheVariants.{Equal};
ghost use Rattle.fp_field.specs.Field.{number};
ghost use Rattle.fp_field.specs.Chains.{scale, coeff};
ghost use Rattle.fp_field.specs.Normal.{normal, IsNormal};
ghost use Rattle.chain_core.specs.Formal.{numbers};

use crate::places::place_of;
use crate::sums::{add_to, merge_ends, multiply};
use fp_field::{Fp, Prime};
use std::alloc::{AllocError, Global};
use std::marker::Model;

/// A chain over F_p: a prime and the terms, each a key and an element of F_p that is not 0, the keys strictly rising.
#[derive(Debug, Drop)]
pub struct Chain<K: Ord> {
    prime: Prime,
    terms: Vec<(K, Fp)>,
}

impl<K: Ord> Model for Chain<K> {
    ghost use Rattle.chain_core.specs.Formal.{Formal, numbers};
    ghost use Rattle.fp_field.specs.Field.{number};
    ghost use Rattle.fp_field.specs.Normal.{IsNormal};

    ghost Value = { Formal K };

    ghost view = { λ c. record { prime = c.prime; terms = numbers c.terms.items } };

    ghost invariant = { λ c. IsNormal K.cmp (number c.prime) (numbers c.terms.items) };
}

impl<K: Ord> Chain<K> {
    /// The zero chain over F_p.
    pub fn new(alloc: Global, p: Prime) -> Chain<K>
        ensures prime { result.prime ≡ p }
        ensures zero { result.terms ≡ [] }
    {
        Chain {
            prime: p,
            terms: Vec::new(alloc),
        }
    }

    /// How many terms the chain has.
    pub fn len(&self) -> usize
        ensures { result ≡ length self.now.terms }
    {
        self.terms.len()
    }

    /// Whether the chain is zero.
    pub fn is_empty(&self) -> bool
        ensures { IsTrue result ↔ (self.now.terms ≡ []) }
    {
        self.terms.is_empty()
    }

    /// The prime of the field.
    pub fn prime(&self) -> Prime
        ensures { result ≡ self.now.prime }
    {
        self.prime
    }

    /// The terms in order of keys.
    pub fn terms(&self) -> &[(K, Fp)]
        ensures terms { numbers result.now ≡ self.now.terms }
        ensures normal { IsNormal K.cmp (number self.now.prime) self.now.terms }
        ensures elements { All (λ t. t.1.value < number self.now.prime) result.now }
        ensures nonzero { All (λ t. 0 < t.1.value) result.now }
    {
        &self.terms
    }

    /// The term at a place in the order of keys.
    pub fn term(&self, i: usize) -> (&K, Fp)
        requires { i < length self.now.terms }
        ensures value { slice_get self.now.terms i ≡ Some (result.0.now, result.1.value) }
        ensures element { result.1.value < number self.now.prime }
        ensures nonzero { 0 < result.1.value }
    {
        let (k, c) = &self.terms[i];
        (k, *c)
    }

    /// The least key with its coefficient. None exactly where the chain is zero.
    pub fn first(&self) -> Option<(&K, Fp)>
        ensures none { IsNone result ↔ (self.now.terms ≡ []) }
        ensures value { option_map (λ t. (t.0.now, t.1.value)) result ≡ slice_get self.now.terms 0 }
        ensures element { IfSome result (λ t. t.1.value < number self.now.prime) }
        ensures nonzero { IfSome result (λ t. 0 < t.1.value) }
    {
        let (k, c) = self.terms.first()?;
        Some((k, *c))
    }

    /// The coefficient at a key, 0 where the chain has no such key.
    pub fn coeff(&self, k: &K) -> Fp
        ensures value { result.value ≡ coeff (eq_by_cmp K.cmp) self.now.terms k.now }
        ensures element { result.value < number self.now.prime }
    {
        match place_of(&self.terms, k) {
            Ok(i) => self.terms[i].1,
            Err(_) => Fp { value: 0 },
        }
    }

    /// Adds c to the coefficient at k.
    pub fn add_term(&mut self, k: K, c: Fp) -> Result<(), AllocError>
    where
        K: Drop,
        requires { c.value < number self.old.prime }
        ensures sum { OnOk result (self.new.terms ≡ normal K.cmp (number self.old.prime) ((k, c.value) ∷ self.old.terms)) }
        ensures prime { self.new.prime ≡ self.old.prime }
        ensures err { OnErr result (self.new ≡ self.old) }
    {
        add_to(self.prime, &mut self.terms, k, c)
    }

    /// Adds c times the other chain. After a refusal the chain is some chain over its field and must be given up.
    pub fn add_scaled(&mut self, other: &Chain<K>, c: Fp) -> Result<(), AllocError>
    where
        K: Clone,
        requires prime { other.now.prime ≡ self.old.prime }
        requires element { c.value < number self.old.prime }
        requires clones { (x y : K) → K.is_clone x y → y ≡ x }
        ensures sum { OnOk result (self.new.terms ≡ normal K.cmp (number self.old.prime) (scale c.value other.now.terms ++ self.old.terms)) }
        ensures prime { self.new.prime ≡ self.old.prime }
    {
        let p = self.prime;
        if c.value == 0 || other.is_empty() {
            return Ok(());
        }
        let mut ends = merge_ends(p, &mut self.terms, &other.terms, c)?;
        self.terms.append(&mut ends)
    }

    /// Multiplies each coefficient by c.
    pub fn scale(&mut self, c: Fp)
    where
        K: Drop,
        requires { c.value < number self.old.prime }
        ensures terms { self.new.terms ≡ normal K.cmp (number self.old.prime) (scale c.value self.old.terms) }
        ensures prime { self.new.prime ≡ self.old.prime }
    {
        multiply(self.prime, &mut self.terms, c);
    }

    /// The chain with these terms, in any order: the sum of the terms at one key is its coefficient.
    pub fn from_terms(alloc: Global, p: Prime, terms: Vec<(K, Fp)>) -> Result<Chain<K>, AllocError>
    where
        K: Drop,
        requires elements { All (λ t. t.1.value < number p) terms.items }
        requires one_key { (x y : K) → K.cmp x y ≡ Equal → x ≡ y }
        ensures prime { IfOk result (λ c. c.prime ≡ p) }
        ensures sum { IfOk result (λ c. c.terms ≡ normal K.cmp (number p) (numbers terms.items)) }
    {
        let mut terms = terms;
        // The least key stands last and is taken first, so that each term goes to the end of the chain.
        terms.sort_by(|s, t| t.0.cmp(&s.0))?;
        add_all(Chain::new(alloc, p), terms)
    }

    /// The terms by value, in order of keys.
    pub fn into_terms(self) -> Vec<(K, Fp)>
        ensures terms { numbers result.items ≡ self.terms }
        ensures elements { All (λ t. t.1.value < number self.prime) result.items }
        ensures nonzero { All (λ t. 0 < t.1.value) result.items }
    {
        let Chain { prime: _, terms } = self;
        terms
    }
}

impl<K: Ord + Clone> Clone for Chain<K> {
    ghost is_clone = { λ a b. ((x y : K) → K.is_clone x y → y ≡ x) → b ≡ a };

    /// A copy, equal to the chain where clones of keys equal them.
    fn clone(&self) -> Result<Chain<K>, AllocError> {
        let mut copy = Chain {
            prime: self.prime,
            terms: Vec::with_capacity(*self.terms.allocator(), self.terms.len())?,
        };
        for (k, c) in self.terms() {
            copy.add_term(k.clone()?, *c)?;
        }
        Ok(copy)
    }
}

/// Adds all terms to a chain, the last one first.
fn add_all<K: Ord + Drop>(chain: Chain<K>, terms: Vec<(K, Fp)>) -> Result<Chain<K>, AllocError>
    requires elements { All (λ t. t.1.value < number chain.prime) terms.items }
    requires normal { IsNormal K.cmp (number chain.prime) chain.terms }
    ensures prime { IfOk result (λ c. c.prime ≡ chain.prime) }
    ensures sum { IfOk result (λ c. c.terms ≡ normal K.cmp (number chain.prime) (numbers terms.items ++ chain.terms)) }
{
    let mut sum = chain;
    let mut terms = terms;
    while let Some((k, c)) = terms.pop() {
        sum.add_term(k, c)?;
    }
    Ok(sum)
}

/// The terms of a chain are determined by its coefficients.
pub fn coefficients_determine<K: Ord>(a: &Chain<K>, b: &Chain<K>)
    requires one_key { (x y : K) → K.cmp x y ≡ Equal → x ≡ y }
    requires prime { b.now.prime ≡ a.now.prime }
    requires coefficients { (k : K) → coeff (eq_by_cmp K.cmp) a.now.terms k ≡ coeff (eq_by_cmp K.cmp) b.now.terms k }
    ensures { a.now ≡ b.now }
{
    let _ = &a.terms;
    let _ = &b.terms;
}
