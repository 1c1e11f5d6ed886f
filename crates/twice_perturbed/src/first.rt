// The first perturbation, on whole chains.
ghost use Rattle.std.specs.Prelude.{◌≡◌, ◌<◌, ℕ, IfOk};
ghost use Rattle.std.specs.declared.cmp.Ordering.TheVariants.{Equal};
ghost use Rattle.fp_field.specs.Chains.{EachKey};
ghost use Rattle.twice_perturbed.specs.Firsts.{First as FirstOf, lowered, lifted, raised, difference_along, MayLower, MayLift, MayRaise};

use chain_core::Chain;
use perturb::series::series;
use perturb::{MapDelta, Perturb};
use reduct_laws::{MapF, MapG, MapH, Reduction, apply};
use std::alloc::{AllocError, Global};

/// The maps of a reduction to whose big differential a twist is added, on whole chains: with P the series of 1 + h q and S that of 1 + q h, of
/// a stated number of terms (Rubio and Sergeraert, Constructive Homological Algebra and Applications, 2.4). Nothing is asked.
pub trait FirstMaps {
    type Big: Ord;

    type Middle: Ord;

    ghost maps: { Self → FirstOf Self.Big Self.Middle };

    /// f S of a chain.
    fn lowered(
        &self,
        alloc: Global,
        rank: u64,
        c: &Chain<Self::Big>,
    ) -> Result<Chain<Self::Middle>, AllocError>
        requires whole { (maps self.now).whole }
        requires rank { 0 < rank }
        requires prime { c.now.prime ≡ (maps self.now).prime }
        requires keys { MayLower Self.Big.cmp Self.Middle.cmp (maps self.now) rank c.now.terms }
        ensures prime { IfOk result (λ r. r.prime ≡ (maps self.now).prime) }
        ensures value { IfOk result (λ r. r.terms ≡ lowered Self.Big.cmp Self.Middle.cmp (maps self.now) rank c.now.terms) };

    /// P g of a chain.
    fn lifted(
        &self,
        alloc: Global,
        rank: u64,
        c: &Chain<Self::Middle>,
    ) -> Result<Chain<Self::Big>, AllocError>
        requires whole { (maps self.now).whole }
        requires prime { c.now.prime ≡ (maps self.now).prime }
        requires keys { EachKey (MayLift Self.Big.cmp Self.Middle.cmp (maps self.now) rank) c.now.terms }
        ensures prime { IfOk result (λ r. r.prime ≡ (maps self.now).prime) }
        ensures value { IfOk result (λ r. r.terms ≡ lifted Self.Big.cmp Self.Middle.cmp (maps self.now) rank c.now.terms) };

    /// P h of a chain.
    fn raised(
        &self,
        alloc: Global,
        rank: u64,
        c: &Chain<Self::Big>,
    ) -> Result<Chain<Self::Big>, AllocError>
        requires whole { (maps self.now).whole }
        requires prime { c.now.prime ≡ (maps self.now).prime }
        requires keys { MayRaise Self.Big.cmp Self.Middle.cmp (maps self.now) rank c.now.terms }
        ensures prime { IfOk result (λ r. r.prime ≡ (maps self.now).prime) }
        ensures value { IfOk result (λ r. r.terms ≡ raised Self.Big.cmp Self.Middle.cmp (maps self.now) rank c.now.terms) };

    /// f q P g of a chain, q the twist: what it adds to the differential of the small complex.
    fn difference(
        &self,
        alloc: Global,
        rank: u64,
        c: &Chain<Self::Middle>,
    ) -> Result<Chain<Self::Middle>, AllocError>
        requires whole { (maps self.now).whole }
        requires prime { c.now.prime ≡ (maps self.now).prime }
        requires keys { EachKey (MayLift Self.Big.cmp Self.Middle.cmp (maps self.now) rank) c.now.terms }
        ensures prime { IfOk result (λ r. r.prime ≡ (maps self.now).prime) }
        ensures value { IfOk result (λ r. r.terms ≡ difference_along Self.Big.cmp Self.Middle.cmp (maps self.now) rank c.now.terms) };

    /// Generators that compare equal are one generator.
    ghost one_big: { (x y : Self.Big) → Self.Big.cmp x y ≡ Equal → x ≡ y };

    ghost one_middle: { (x y : Self.Middle) → Self.Middle.cmp x y ≡ Equal → x ≡ y };
}

/// A reduction that asks nothing, and the twist that is added to its big differential.
#[derive(Drop)]
pub struct First<'a, Z, Q> {
    pub of: &'a Z,
    pub twist: &'a Q,
}

impl<'a, Z: Reduction<(), Stop = AllocError>, Q: Perturb<(), Z>> FirstMaps for First<'a, Z, Q>
where
    Z::Big: Clone + Drop,
    Z::Small: Drop,
{
    type Big = Z::Big;

    type Middle = Z::Small;

    ghost maps = { λ f. record {
      prime = Z.prime_of f.of.now;
      maps = Z.maps f.of.now;
      twist = Q.delta_of f.twist.now;
      may_big = Z.may_ask_big f.of.now;
      may_middle = Z.may_ask_small f.of.now;
      may_twist = Q.may_be_asked f.twist.now;
      whole = (Q.prime_of f.twist.now ≡ Z.prime_of f.of.now) × ((x y : Z.Big) → Z.Big.is_clone x y → y ≡ x);
    } };

    fn lowered(
        &self,
        alloc: Global,
        rank: u64,
        c: &Chain<Z::Big>,
    ) -> Result<Chain<Z::Small>, AllocError> {
        let front = MapF { of: self.of };
        if self.twist.is_none() {
            return apply(alloc, &mut (), &front, c);
        }
        let twist = MapDelta {
            of: self.of,
            by: self.twist,
        };
        let sum = series(
            alloc,
            &mut (),
            &MapH { of: self.of },
            &twist,
            rank,
            c.clone()?,
        )?;
        apply(alloc, &mut (), &front, &sum)
    }

    fn lifted(
        &self,
        alloc: Global,
        rank: u64,
        c: &Chain<Z::Small>,
    ) -> Result<Chain<Z::Big>, AllocError> {
        let start = apply(alloc, &mut (), &MapG { of: self.of }, c)?;
        let twist = MapDelta {
            of: self.of,
            by: self.twist,
        };
        series(alloc, &mut (), &twist, &MapH { of: self.of }, rank, start)
    }

    fn raised(
        &self,
        alloc: Global,
        rank: u64,
        c: &Chain<Z::Big>,
    ) -> Result<Chain<Z::Big>, AllocError> {
        let flow = MapH { of: self.of };
        let start = apply(alloc, &mut (), &flow, c)?;
        let twist = MapDelta {
            of: self.of,
            by: self.twist,
        };
        series(alloc, &mut (), &twist, &flow, rank, start)
    }

    fn difference(
        &self,
        alloc: Global,
        rank: u64,
        c: &Chain<Z::Small>,
    ) -> Result<Chain<Z::Small>, AllocError> {
        if self.twist.is_none() {
            return Ok(Chain::new(alloc, c.prime()));
        }
        let lifted = self.lifted(alloc, rank, c)?;
        let twist = MapDelta {
            of: self.of,
            by: self.twist,
        };
        let turned = apply(alloc, &mut (), &twist, &lifted)?;
        apply(alloc, &mut (), &MapF { of: self.of }, &turned)
    }

    ghost one_big = { Z.one_big };

    ghost one_middle = { Z.one_small };
}
