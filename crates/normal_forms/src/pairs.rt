// Pairs of simplices of one degree, in their normal form.
ghost use Rattle.std.specs.Prelude.{◌≡◌, IfOk};
ghost use Rattle.simp_ops.specs.Words.{IsWord, compose_words};
ghost use Rattle.simp_ops.specs.Bits.{mask_word};
ghost use Rattle.normal_forms.specs.Paired.{IsPaired, HasParts};

use cells::{Cell, Simplex, copy_cell};
use seqs::Box;
use simp_ops::{Degens, common, compose, strip};
use std::alloc::{AllocError, Global};

/// The pair of two simplices of one degree in normal form: their common degeneracies before the pair
/// of what is left of the two (May, Simplicial Objects, chapter I). What it is in a product and in a
/// bundle, and how large its integers are, say the laws `pairs_of_products`, `pairs_of_bundles` and
/// `pair_sizes`.
pub fn paired(alloc: Global, x: Simplex, y: Simplex) -> Result<Simplex, AllocError>
    ensures { IfOk result (IsPaired x y) }
{
    let both = common(x.degens, y.degens);
    let left = Simplex {
        degens: strip(x.degens, both),
        cell: x.cell,
    };
    let right = Simplex {
        degens: strip(y.degens, both),
        cell: y.cell,
    };
    let left = Box::new(alloc, left)?;
    let right = Box::new(alloc, right)?;
    Ok(Simplex {
        degens: both,
        cell: Cell::Pair(left, right),
    })
}

/// The two simplices that a simplex of a product or of a bundle is the pair of, both of its degree.
pub fn parts_of(alloc: Global, z: &Simplex) -> Result<(Simplex, Simplex), AllocError>
    requires { HasParts z.now }
    ensures { IfOk result (λ p. IsPaired p.0 p.1 z.now) }
{
    match &z.cell {
        Cell::Pair(left, right) => {
            let left = behind(alloc, z.degens, left.get())?;
            let right = behind(alloc, z.degens, right.get())?;
            Ok((left, right))
        }
        _ => unreachable!(),
    }
}

// A copy of a simplex with degeneracies before it.
fn behind(alloc: Global, degens: Degens, x: &Simplex) -> Result<Simplex, AllocError>
    requires { IsWord 32 (compose_words (mask_word degens.mask) (mask_word x.now.degens.mask)) }
    ensures word { IfOk result (λ y. mask_word y.degens.mask ≡ compose_words (mask_word degens.mask) (mask_word x.now.degens.mask)) }
    ensures cell { IfOk result (λ y. y.cell ≡ x.now.cell) }
{
    let cell = copy_cell(alloc, &x.cell)?;
    Ok(Simplex {
        degens: compose(degens, x.degens),
        cell,
    })
}
