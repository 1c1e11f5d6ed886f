// Places in a suspension.
ghost use Rattle.std.specs.Prelude.{◌≡◌, IfOk};
ghost use Rattle.oracle_iface.specs.Limits.{kind_past};
ghost use Rattle.susp_rules.specs.Places.{part_place, size_at};

use oracle_iface::{
    Kind, Place, Size, integer_of, letters_of, past, small_integer_of, small_letters_of,
};
use std::alloc::{AllocError, Global};
use term_lang::{Cell, SmallCell, copy_cell, copy_small};

/// The place in the part that a place lies over, or None where it lies over nothing.
pub(crate) fn part_place(alloc: Global, place: &Place) -> Result<Option<Place>, AllocError>
    ensures { IfOk result (λ o. o ≡ part_place place.now) }
{
    match place {
        Place::Degree(n) => {
            if *n < 2 {
                Ok(None)
            } else {
                Ok(Some(Place::Degree(*n - 1)))
            }
        }
        Place::Small(SmallCell::Up(y)) => Ok(Some(Place::Small(copy_small(alloc, y.get())?))),
        Place::Small(SmallCell::One(_) | SmallCell::Pair(_, _) | SmallCell::Word(_)) => Ok(None),
        Place::Big(Cell::Up(x)) => Ok(Some(Place::Big(copy_cell(alloc, x.get())?))),
        Place::Big(
            Cell::Row(_, _)
            | Cell::Base
            | Cell::Top(_)
            | Cell::Pair(_, _)
            | Cell::Ints(_)
            | Cell::Word(_),
        ) => Ok(None),
    }
}

/// The size of what is at a place.
fn size_at(place: &Place) -> Size
    ensures { let s = size_at place.now in (result.letters ≡ s.letters) × (result.integer ≡ s.integer) × (result.terms ≡ s.terms) }
{
    match place {
        Place::Degree(_) => Size {
            letters: 0,
            integer: 0,
            terms: 0,
        },
        Place::Small(y) => Size {
            letters: small_letters_of(y),
            integer: small_integer_of(y),
            terms: 0,
        },
        Place::Big(x) => Size {
            letters: letters_of(x),
            integer: integer_of(x),
            terms: 0,
        },
    }
}

/// The first kind whose limit what is at a place is past, with its size in this kind.
pub(crate) fn place_past(place: &Place) -> Option<(Kind, u64)>
    ensures { result ≡ kind_past (size_at place.now) }
{
    past(&size_at(place))
}
