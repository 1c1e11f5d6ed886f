// Places of keys: their sizes against the limits, and the cells at them.
ghost use Rattle.std.specs.Prelude.{◌≡◌, ℕ};
ghost use Rattle.oracle_iface.specs.Limits.{kind_past};
ghost use Rattle.oracle_iface.specs.declared.keys.Place.TheVariants.{Degree as DegreePlace, Small as SmallPlace, Big as BigPlace};
ghost use Rattle.cells.specs.declared.cells.Cell.{Cell as CellOf};
ghost use Rattle.cells.specs.declared.cells.SmallCell.{SmallCell as SmallCellOf};
ghost use Rattle.cells.specs.declared.cells.SmallCell.TheVariants.{Pair as SmallPair};
ghost use Rattle.susp_rules.specs.Places.{size_at};

use oracle_iface::{
    Kind, Place, Size, integer_of, letters_of, past, small_integer_of, small_letters_of,
};
use term_lang::{Cell, SmallCell};

/// The size of what is at a place.
fn size_at(place: &Place) -> Size
    ensures { let s = size_at place.now in (result.letters ≡ s.letters) × (result.integer ≡ s.integer) × (result.terms ≡ s.terms) }
{
    match place {
        Place::Degree(_) => Size {
            letters: 0,
            integer: 0,
            terms: 0,
        },
        Place::Small(y) => Size {
            letters: small_letters_of(y),
            integer: small_integer_of(y),
            terms: 0,
        },
        Place::Big(x) => Size {
            letters: letters_of(x),
            integer: integer_of(x),
            terms: 0,
        },
    }
}

/// The first kind whose limit what is at a place is past, with its size in this kind.
pub(crate) fn place_past(place: &Place) -> Option<(Kind, u64)>
    ensures { result ≡ kind_past (size_at place.now) }
{
    past(&size_at(place))
}

/// The degree at a place in a degree.
pub(crate) fn degree_at(place: &Place) -> u32
    requires { (n : ℕ) × (place.now ≡ DegreePlace n) }
    ensures { place.now ≡ DegreePlace result }
{
    match place {
        Place::Degree(n) => *n,
        _ => unreachable!(),
    }
}

/// The cell at a place of the space.
pub(crate) fn cell_at(place: &Place) -> &Cell
    requires { (x : CellOf) × (place.now ≡ BigPlace x) }
    ensures { place.now ≡ BigPlace result.now }
{
    match place {
        Place::Big(x) => x,
        _ => unreachable!(),
    }
}

/// The pair of small cells at a place of the small complex.
pub(crate) fn smalls_at(place: &Place) -> (&SmallCell, &SmallCell)
    requires { (y : SmallCellOf) × (z : SmallCellOf) × (place.now ≡ SmallPlace (SmallPair y z)) }
    ensures { place.now ≡ SmallPlace (SmallPair result.0.now result.1.now) }
{
    match place {
        Place::Small(SmallCell::Pair(y, z)) => (y.get(), z.get()),
        _ => unreachable!(),
    }
}
