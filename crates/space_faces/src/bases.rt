// Degeneracies of the vertex.
ghost use Rattle.std.specs.Prelude.{◌≡◌, ◌<◌};
ghost use Rattle.simp_ops.specs.Bits.{mask_word};
ghost use Rattle.spaces.specs.Tables.{all_degeneracies};
ghost use Rattle.cells.specs.declared.cells.Cell.TheVariants.{Base};

use cells::{Cell, Simplex};
use simp_ops::Degens;

// The simplex of degree n that is a degeneracy of the vertex of a sphere, or of the base of a suspension.
pub(crate) fn degenerate_vertex(n: u32) -> Simplex
    requires { n < 32 }
    ensures mask { mask_word result.degens.mask ≡ all_degeneracies n }
    ensures cell { result.cell ≡ Base }
{
    Simplex {
        degens: Degens { mask: (1 << n) - 1 },
        cell: Cell::Base,
    }
}
