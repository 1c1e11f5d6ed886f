// Where a key stands among terms whose keys rise.
ghost use Rattle.std.specs.Prelude.{length};
ghost use Rattle.std.specs.List.Sorted.{IsSearchInRange};
ghost use Rattle.chain_core.specs.Formal.{numbers};
ghost use Rattle.chain_core.specs.Places.{Ascends, IsPlace};

use fp_field::Fp;
use std::cmp::Ordering;

/// The place of a key, or the place before which it belongs. Keys often come in order, so the last one is looked at first.
pub fn place_of<K: Ord>(terms: &[(K, Fp)], k: &K) -> Result<usize, usize>
    requires { Ascends K.cmp (numbers terms.now) }
    ensures within { IsSearchInRange result (length terms.now) }
    ensures place { IsPlace K.cmp (numbers terms.now) k.now result }
{
    if let Some((last, _)) = terms.last() {
        match k.cmp(last) {
            Ordering::Less => {}
            Ordering::Equal => return Ok(terms.len() - 1),
            Ordering::Greater => return Err(terms.len()),
        }
    }
    terms.binary_search_by(|t| t.0.cmp(k))
}
