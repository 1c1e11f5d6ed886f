// Reductions whose maps draw on a source, and their maps one by one.
ghost use Rattle.std.specs.Prelude.{◌≡◌, ◌<◌, ◌^◌, ℕ, List, IfOk};
ghost use Rattle.std.specs.Ordering.{eq_by_cmp};
ghost use Rattle.std.specs.declared.cmp.Ordering.TheVariants.{Equal};
ghost use Rattle.fp_field.specs.declared.prime.Prime.{Prime};
ghost use Rattle.fp_field.specs.Field.{number};
ghost use Rattle.fp_field.specs.Chains.{Terms};
ghost use Rattle.fp_field.specs.Normal.{normal};
ghost use Rattle.fp_field.specs.Reduction.{Maps};
ghost use Rattle.chain_core.specs.Asks.{MayAsk, Asked};
ghost use Rattle.reduct_laws.specs.Lists.{Lists};

use chain_core::{Chain, LinearMap, Source, Stops};
use fp_field as field;
use std::alloc::Global;

/// The maps of a reduction of a big chain complex to a small one, on generators: the two differentials, f from the big one to the
/// small one, g back, and the homotopy h of the big one (Rubio and Sergeraert, Constructive Homological Algebra and Applications,
/// chapter 2). The maps draw on a source, which is lent to each call, and do not depend on it.
///
/// That the maps meet the equations of a reduction is a statement about it and no condition of this trait.
pub trait Reduction<S: Source> {
    type Big: Ord;

    type Small: Ord;

    type Stop: Stops<S>;

    ghost prime_of: { Self → Prime };

    /// The two complexes and the maps between them.
    ghost maps: { Self → Maps Self.Big Self.Small };

    ghost degree_of: { Self → Self.Big → ℕ };

    ghost small_degree_of: { Self → Self.Small → ℕ };

    /// The generators whose degree may be asked: those whose degree is below 2^32, and was below it before each shift down.
    ghost may_ask_degree: { Self → Self.Big → Type 0 };

    ghost may_ask_small_degree: { Self → Self.Small → Type 0 };

    /// The generators on which the maps may be asked.
    ghost may_ask_big: { Self → Self.Big → Type 0 };

    ghost may_ask_small: { Self → Self.Small → Type 0 };

    /// What each map asks of the source on each generator, in order.
    ghost lists: { Self → Lists Self.Big Self.Small S.Ask };

    /// The prime of the field.
    fn prime(&self) -> field::Prime
        ensures { result ≡ prime_of self.now };

    /// The degree of a big generator.
    fn degree(&self, x: &Self::Big) -> u32
        requires { may_ask_degree self.now x.now }
        ensures { result ≡ degree_of self.now x.now };

    /// The degree of a small generator.
    fn small_degree(&self, y: &Self::Small) -> u32
        requires { may_ask_small_degree self.now y.now }
        ensures { result ≡ small_degree_of self.now y.now };

    /// The differential of a big generator that may be asked.
    fn big_d(
        &self,
        alloc: Global,
        source: &mut S,
        x: &Self::Big,
    ) -> Result<Chain<Self::Big>, Self::Stop>
        requires key { may_ask_big self.now x.now }
        requires source { MayAsk S.can_ask S.runs source.old ((lists self.now).big_d x.now) }
        ensures prime { IfOk result (λ c. c.prime ≡ prime_of self.now) }
        ensures value { IfOk result (λ c. c.terms ≡ normal Self.Big.cmp (number (prime_of self.now)) ((maps self.now).big.d x.now)) }
        ensures source { Asked S.runs S.refusal Self.Stop.refused source.old ((lists self.now).big_d x.now) source.new result };

    /// The differential of a small generator that may be asked.
    fn small_d(
        &self,
        alloc: Global,
        source: &mut S,
        y: &Self::Small,
    ) -> Result<Chain<Self::Small>, Self::Stop>
        requires key { may_ask_small self.now y.now }
        requires source { MayAsk S.can_ask S.runs source.old ((lists self.now).small_d y.now) }
        ensures prime { IfOk result (λ c. c.prime ≡ prime_of self.now) }
        ensures value { IfOk result (λ c. c.terms ≡ normal Self.Small.cmp (number (prime_of self.now)) ((maps self.now).small.d y.now)) }
        ensures source { Asked S.runs S.refusal Self.Stop.refused source.old ((lists self.now).small_d y.now) source.new result };

    /// The image under f of a big generator that may be asked.
    fn f(
        &self,
        alloc: Global,
        source: &mut S,
        x: &Self::Big,
    ) -> Result<Chain<Self::Small>, Self::Stop>
        requires key { may_ask_big self.now x.now }
        requires source { MayAsk S.can_ask S.runs source.old ((lists self.now).f x.now) }
        ensures prime { IfOk result (λ c. c.prime ≡ prime_of self.now) }
        ensures value { IfOk result (λ c. c.terms ≡ normal Self.Small.cmp (number (prime_of self.now)) ((maps self.now).f x.now)) }
        ensures source { Asked S.runs S.refusal Self.Stop.refused source.old ((lists self.now).f x.now) source.new result };

    /// The image under g of a small generator that may be asked.
    fn g(
        &self,
        alloc: Global,
        source: &mut S,
        y: &Self::Small,
    ) -> Result<Chain<Self::Big>, Self::Stop>
        requires key { may_ask_small self.now y.now }
        requires source { MayAsk S.can_ask S.runs source.old ((lists self.now).g y.now) }
        ensures prime { IfOk result (λ c. c.prime ≡ prime_of self.now) }
        ensures value { IfOk result (λ c. c.terms ≡ normal Self.Big.cmp (number (prime_of self.now)) ((maps self.now).g y.now)) }
        ensures source { Asked S.runs S.refusal Self.Stop.refused source.old ((lists self.now).g y.now) source.new result };

    /// The homotopy of a big generator that may be asked.
    fn h(
        &self,
        alloc: Global,
        source: &mut S,
        x: &Self::Big,
    ) -> Result<Chain<Self::Big>, Self::Stop>
        requires key { may_ask_big self.now x.now }
        requires source { MayAsk S.can_ask S.runs source.old ((lists self.now).h x.now) }
        ensures prime { IfOk result (λ c. c.prime ≡ prime_of self.now) }
        ensures value { IfOk result (λ c. c.terms ≡ normal Self.Big.cmp (number (prime_of self.now)) ((maps self.now).h x.now)) }
        ensures source { Asked S.runs S.refusal Self.Stop.refused source.old ((lists self.now).h x.now) source.new result };

    /// Generators that compare equal are one generator.
    ghost one_big: { (x y : Self.Big) → Self.Big.cmp x y ≡ Equal → x ≡ y };

    ghost one_small: { (x y : Self.Small) → Self.Small.cmp x y ≡ Equal → x ≡ y };

    ghost same_big: { (r : Self) (x y : Self.Big) → (maps r).big.same x y ≡ eq_by_cmp Self.Big.cmp x y };

    ghost same_small: { (r : Self) (x y : Self.Small) → (maps r).small.same x y ≡ eq_by_cmp Self.Small.cmp x y };

    ghost graded_big: { (r : Self) (n : ℕ) (x : Self.Big) → (maps r).big.generator n x → degree_of r x ≡ n };

    ghost graded_small: { (r : Self) (n : ℕ) (y : Self.Small) → (maps r).small.generator n y → small_degree_of r y ≡ n };

    ghost degree_below: { (r : Self) (x : Self.Big) → may_ask_degree r x → degree_of r x < 2 ^ 32 };

    ghost small_degree_below: { (r : Self) (y : Self.Small) → may_ask_small_degree r y → small_degree_of r y < 2 ^ 32 };

    /// A generator that may be asked may be asked for its degree.
    ghost degree_asked: { (r : Self) (x : Self.Big) → may_ask_big r x → may_ask_degree r x };

    ghost small_degree_asked: { (r : Self) (y : Self.Small) → may_ask_small r y → may_ask_small_degree r y };
}

/// The map f of a reduction, as a map of its own.
#[derive(Drop)]
pub struct MapF<'a, R> {
    pub of: &'a R,
}

impl<'a, S: Source, R: Reduction<S>> LinearMap<S, R::Big, R::Small> for MapF<'a, R> {
    type Stop = R::Stop;

    ghost prime = { λ m. R.prime_of m.of.now };

    ghost may_be_asked = { λ m x. R.may_ask_big m.of.now x };

    ghost image_of = { λ m x. (R.maps m.of.now).f x };

    ghost asks = { λ m x. (R.lists m.of.now).f x };

    fn image(&self, alloc: Global, source: &mut S, k: &R::Big) -> Result<Chain<R::Small>, R::Stop> {
        self.of.f(alloc, source, k)
    }

    ghost one_key = { R.one_small };
}

/// The map g of a reduction, as a map of its own.
#[derive(Drop)]
pub struct MapG<'a, R> {
    pub of: &'a R,
}

impl<'a, S: Source, R: Reduction<S>> LinearMap<S, R::Small, R::Big> for MapG<'a, R> {
    type Stop = R::Stop;

    ghost prime = { λ m. R.prime_of m.of.now };

    ghost may_be_asked = { λ m y. R.may_ask_small m.of.now y };

    ghost image_of = { λ m y. (R.maps m.of.now).g y };

    ghost asks = { λ m y. (R.lists m.of.now).g y };

    fn image(&self, alloc: Global, source: &mut S, k: &R::Small) -> Result<Chain<R::Big>, R::Stop> {
        self.of.g(alloc, source, k)
    }

    ghost one_key = { R.one_big };
}

/// The homotopy of a reduction, as a map of its own.
#[derive(Drop)]
pub struct MapH<'a, R> {
    pub of: &'a R,
}

impl<'a, S: Source, R: Reduction<S>> LinearMap<S, R::Big, R::Big> for MapH<'a, R> {
    type Stop = R::Stop;

    ghost prime = { λ m. R.prime_of m.of.now };

    ghost may_be_asked = { λ m x. R.may_ask_big m.of.now x };

    ghost image_of = { λ m x. (R.maps m.of.now).h x };

    ghost asks = { λ m x. (R.lists m.of.now).h x };

    fn image(&self, alloc: Global, source: &mut S, k: &R::Big) -> Result<Chain<R::Big>, R::Stop> {
        self.of.h(alloc, source, k)
    }

    ghost one_key = { R.one_big };
}
