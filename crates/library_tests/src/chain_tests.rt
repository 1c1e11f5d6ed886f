ghost use Rattle.std.specs.Prelude.{◌≡◌, [], ◌∷◌, IfOk};
ghost use Rattle.fp_field.specs.declared.prime.Prime.TheVariants.{Three};
ghost use Rattle.fp_field.specs.Normal.{normal};
ghost use Rattle.std.specs.declared.cmp.Ordering.TheVariants.{Equal};
ghost use Rattle.std.proofs.Common.{sym};
ghost use Rattle.std.proofs.lemmas.Cmp.{ranked};

use crate::answers::{ONE, TWO, crosses, has};
use chain_core::{Chain, LinearMap};
use fp_field::Prime;
use std::alloc::{AllocError, Global};
use std::test::Fail;

/// The identity on chains of numbers over F_3.
struct Same;

impl LinearMap<(), u32, u32> for Same {
    type Stop = AllocError;

    ghost prime = { λ m. Three };

    ghost may_be_asked = { λ m k. Unit {0} };

    ghost image_of = { λ m k. (k, 1) ∷ [] };

    ghost asks = { λ m k. [] };

    fn image(&self, alloc: Global, source: &mut (), k: &u32) -> Result<Chain<u32>, AllocError> {
        let _ = source;
        let mut image = Chain::new(alloc, Prime::Three);
        image.add_term(*k, ONE)?;
        Ok(image)
    }

    ghost one_key = { λ x y e. ranked x y Equal (sym e) };
}

// 2 and 1 times one key.
fn sevens_are_added(chain: &mut Chain<u32>) -> bool
    requires { chain.old.prime ≡ Three }
    ensures { chain.new.prime ≡ Three }
{
    chain.add_term(7, TWO).is_ok() && chain.add_term(7, ONE).is_ok()
}

fn twice_nine_is_added(alloc: Global, chain: &mut Chain<u32>) -> bool
    requires { chain.old.prime ≡ Three }
    ensures { chain.new.prime ≡ Three }
{
    let mut nine = Chain::new(alloc, Prime::Three);
    nine.add_term(9, ONE).is_ok() && chain.add_scaled(&nine, TWO).is_ok()
}

#[test]
fn a_sum_over_three(rt: HostRuntime) {
    let mut chain = Chain::new(rt.alloc(), Prime::Three);
    assert!(rt; sevens_are_added(&mut chain));
    assert!(rt; chain.is_empty() && chain.first().is_none());
    assert!(rt; twice_nine_is_added(rt.alloc(), &mut chain));
    assert_eq!(rt; chain.coeff(&9), TWO);
    assert_eq!(rt; chain.len(), 1);
    chain.scale(TWO);
    assert_eq!(rt; chain.coeff(&9), ONE);
    crosses(&chain);
    assert_eq!(rt; chain.into_terms().as_slice(), [(9, ONE)].as_slice());
}

fn sorted(alloc: Global) -> Result<Chain<u32>, AllocError>
    ensures prime { IfOk result (λ c. c.prime ≡ Three) }
    ensures terms { IfOk result (λ c. c.terms ≡ normal ⟦<u32 as Ord>⟧.cmp 3 ((9, 2) ∷ (7, 2) ∷ (9, 2) ∷ (8, 1) ∷ (8, 2) ∷ [])) }
{
    let terms = [(9, TWO), (7, TWO), (9, TWO), (8, ONE), (8, TWO)];
    Chain::from_terms(alloc, Prime::Three, Vec::from_array(alloc, terms)?)
}

#[test]
fn the_identity_gives_the_same_chain(rt: HostRuntime) -> Result<(), Fail> {
    let chain = sorted(rt.alloc())?;
    assert_eq!(rt; chain.len(), 2);
    assert!(rt; has(chain.clone(), &[(7, TWO), (9, ONE)]));
    assert!(rt;
        has(
            chain.map_linear(rt.alloc(), &mut (), &Same),
            &[(7, TWO), (9, ONE)]
        )
    );
    Ok(())
}
