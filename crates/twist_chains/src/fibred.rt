// Products and circle bundles: base, fibre and twist.
ghost use Rattle.std.specs.Prelude.{◌≡◌, ◌≤◌, ◌^◌, ℤ, List, Option};
ghost use Rattle.std.specs.Option.{option_copied};
ghost use Rattle.twist_chains.specs.Fibred.{growth, room};

use cells::IntList;
use fp_field::Prime;
use space_faces::faces_of;
use space_pairs::SpacePair;

/// A product, or the circle bundle of a cocycle over a table: the faces of base and fibre, for a bundle the values of the cocycle on the
/// rows of the base, and the prime of the field.
#[derive(Drop)]
pub struct Fibred<'a> {
    pub pair: SpacePair<'a>,
    pub values: Option<&'a IntList>,
    pub p: Prime,
}

/// How much one twist adds to the reach of a pair at most.
fn growth(values: Option<&IntList>) -> u64
    ensures { result ≡ growth (option_copied values.entry) }
{
    match values {
        None => 0,
        Some(_) => 6_200_000,
    }
}

/// The same faces for pairs with as much reach as the twists of degree n can make.
pub fn widened<'a>(f: &Fibred<'a>, n: u32) -> SpacePair<'a>
    requires most { n ≤ 32 }
    requires room { room (option_copied f.now.values) n f.now.pair.most ≤ 2 ^ 40 }
    ensures left { result.left.term.now ≡ f.now.pair.left.term.now }
    ensures right { result.right.term.now ≡ f.now.pair.right.term.now }
    ensures most { result.most ≡ room (option_copied f.now.values) n f.now.pair.most }
{
    let most = f.pair.most + (n as u64 + 2) * growth(f.values);
    SpacePair {
        left: faces_of(f.pair.left.term),
        right: faces_of(f.pair.right.term),
        most,
    }
}
