// G along a chain of the small complex of a part.
ghost use Rattle.std.specs.Prelude.{◌≡◌, IfOk};
ghost use Rattle.fp_field.specs.Field.{number};
ghost use Rattle.fp_field.specs.Chains.{EachKey};
ghost use Rattle.homology_rules.specs.Asking.{MayForceEach, AskedFirst, EachAnswered, up_to_refusal};
ghost use Rattle.homology_rules.specs.Shown.{HasShownValues};
ghost use Rattle.oracle_iface.specs.Keys.{quote_chain, formal};
ghost use Rattle.term_lang.specs.SpaceOf.{space_of};
ghost use Rattle.part_asks.specs.Along.{AsksValid, g_along, read_smalls};
ghost use Rattle.part_asks.specs.OneKey.{IsOwnSmall};
ghost use Rattle.part_asks.specs.Reading.{keys_of, IsFound};

use crate::found::Found;
use chain_core::Chain;
use homology_rules::{Answers, ask_all, keys_of_terms, sum_of};
use oracle_iface::{Forcer, Key, Op};
use std::alloc::{AllocError, Global};
use term_lang::{Cell, SmallCell};

/// The sum of G of the small cells of a chain, each times its number.
pub fn along_g<F: Forcer>(
    alloc: Global,
    key: &Key,
    chain: &Chain<SmallCell>,
    forcer: &mut F,
) -> Result<Found<Chain<Cell>>, AllocError>
    requires prime { chain.now.prime ≡ key.now.prime }
    requires part { HasShownValues (number key.now.prime) (space_of key.now.term) }
    requires cells { EachKey (IsOwnSmall (space_of key.now.term)) chain.now.terms }
    requires valid { AsksValid key.now.prime (g_along key.now.prime (space_of key.now.term) (read_smalls (space_of key.now.term) chain.now.terms)) }
    requires asks { MayForceEach F.may_force F.forces forcer.old (keys_of key.now.prime (g_along key.now.prime (space_of key.now.term) (read_smalls (space_of key.now.term) chain.now.terms))) }
    ensures asked { AskedFirst F.forces (keys_of key.now.prime (g_along key.now.prime (space_of key.now.term) (read_smalls (space_of key.now.term) chain.now.terms))) forcer.old forcer.new }
    ensures through { IfOk result (λ o. EachAnswered F.forces forcer.old (up_to_refusal (keys_of key.now.prime (g_along key.now.prime (space_of key.now.term) (read_smalls (space_of key.now.term) chain.now.terms)))) forcer.new) }
    ensures found { IfOk result (λ o. IsFound (λ c. formal key.now.prime (quote_chain (space_of key.now.term) c)) key.now.prime (g_along key.now.prime (space_of key.now.term) (read_smalls (space_of key.now.term) chain.now.terms)) o) }
{
    let keys = keys_of_terms(alloc, key, Op::G, chain.terms())?;
    match ask_all(alloc, &keys, forcer)? {
        Answers::Over(over) => Ok(Found::Over(over)),
        Answers::Values(images) => {
            let sum = sum_of(alloc, key.prime, chain.terms(), &images)?;
            Ok(Found::Value(sum))
        }
    }
}
