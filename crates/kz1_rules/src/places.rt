// What is at the place of a key.
ghost use Rattle.std.specs.Prelude.{◌≡◌, ℕ, ℤ, List};
ghost use Rattle.cells.specs.declared.cells.Cell.{Cell as AnyCell};
ghost use Rattle.cells.specs.declared.cells.Cell.TheVariants.{Ints as IntsCell};
ghost use Rattle.cells.specs.declared.cells.SmallCell.TheVariants.{One as OneCell};
ghost use Rattle.oracle_iface.specs.declared.keys.Place.TheVariants.{Degree as DegreePlace, Small as SmallPlace, Big as BigPlace};

use oracle_iface::Place;
use term_lang::{Cell, IntList, SmallCell};

/// The degree at a place in a degree.
pub(crate) fn degree_at(place: &Place) -> u32
    requires { (n : ℕ) × (place.now ≡ DegreePlace n) }
    ensures { place.now ≡ DegreePlace result }
{
    match place {
        Place::Degree(n) => *n,
        _ => unreachable!(),
    }
}

/// The list at a place at a cell.
pub(crate) fn list_at(place: &Place) -> &IntList
    requires { (x : List ℤ) × (place.now ≡ BigPlace (IntsCell x)) }
    ensures { place.now ≡ BigPlace (IntsCell result.now) }
{
    match place {
        Place::Big(Cell::Ints(list)) => list,
        _ => unreachable!(),
    }
}

/// The cell at a place at a small cell that is a cell of the space.
pub(crate) fn small_at(place: &Place) -> &Cell
    requires { (x : AnyCell) × (place.now ≡ SmallPlace (OneCell x)) }
    ensures { place.now ≡ SmallPlace (OneCell result.now) }
{
    match place {
        Place::Small(SmallCell::One(x)) => x,
        _ => unreachable!(),
    }
}
