// Sums of chains, each times a number.
ghost use Rattle.std.specs.Prelude.{◌≡◌, ◌+◌, ◌*◌, ◌<◌, ℕ, All, OnOk};
ghost use Rattle.fp_field.specs.Field.{number, SameMod};
ghost use Rattle.fp_field.specs.Chains.{weigh};
ghost use Rattle.chain_core.specs.Formal.{numbers};

use chain_core::Chain;
use fp_field::{Fp, mul};
use std::alloc::AllocError;

/// Pushes the terms of a chain, each times c.
pub fn push_scaled<K: Ord + Clone + Drop>(
    sum: &mut Vec<(K, Fp)>,
    chain: &Chain<K>,
    c: Fp,
) -> Result<(), AllocError>
    requires element { c.value < number chain.now.prime }
    requires elements { All (λ t. t.1.value < number chain.now.prime) sum.old.items }
    requires clones { (x y : K) → K.is_clone x y → y ≡ x }
    ensures elements { OnOk result (All (λ t. t.1.value < number chain.now.prime) sum.new.items) }
    ensures sum { OnOk result ((w : K → ℕ) → SameMod (number chain.now.prime) (weigh w (numbers sum.new.items)) (weigh w (numbers sum.old.items) + c.value * weigh w chain.now.terms)) }
{
    let p = chain.prime();
    sum.reserve(chain.len())?;
    for (key, coefficient) in chain.terms() {
        sum.push((key.clone()?, mul(p, c, *coefficient)))?;
    }
    Ok(())
}
