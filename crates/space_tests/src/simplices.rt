// Simplices that the tests share.
ghost use Rattle.std.specs.Prelude.{◌≡◌, ◌<◌, ◌^◌};
ghost use Rattle.cells.specs.declared.cells.Cell.TheVariants.{Top};

use cells::{Cell, Simplex};
use simp_ops::Degens;

/// A degeneracy of the cell of the circle.
pub fn edge(mask: u64) -> Simplex
    requires { mask < 2 ^ 32 }
    ensures mask { result.degens.mask ≡ mask }
    ensures cell { result.cell ≡ Top 1 }
{
    Simplex {
        degens: Degens { mask },
        cell: Cell::Top(1),
    }
}
