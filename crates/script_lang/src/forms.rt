// Normal forms of what bodies mean.
ghost use Rattle.std.specs.Prelude.{◌≡◌, ◌<◌, ◌≤◌, ◌^◌, map, suc, IfOk, IfSome};
ghost use Rattle.simp_ops.specs.Bits.{mask_word};
ghost use Rattle.simp_ops.specs.Words.{IsWord, compose_words, degeneracy_word};
ghost use Rattle.spaces.specs.Spaces.{kz1};
ghost use Rattle.cells.specs.Dim.{dim_of};
ghost use Rattle.cells.specs.declared.cells.Cell.TheVariants.{Base, Up};
ghost use Rattle.script_lang.specs.Meaning.{mapped};
ghost use Rattle.script_lang.specs.Resolved.{IsFound, IsJoined, IsPrefixed, body_meaning, bare_simplex};

use crate::simplices::BodyText;
use cells::{Cell, Simplex, dim};
use kz1_group::ints_norm;
use normal_forms::paired;
use seqs::Box;
use simp_ops::{Degens, compose, degenerate};
use std::alloc::{AllocError, Global};

// A cell as a simplex, with no degeneracies.
pub(crate) fn bare(cell: Option<Cell>) -> Option<Simplex>
    ensures { result ≡ mapped bare_simplex cell }
{
    match cell {
        Some(cell) => Some(Simplex {
            degens: Degens { mask: 0 },
            cell,
        }),
        None => None,
    }
}

// In K(Z,1) a list means itself in the degree of its length, with a degeneracy at each 0.
pub(crate) fn listed(alloc: Global, n: u32, body: &BodyText) -> Result<Option<Simplex>, AllocError>
    requires { n ≤ 16 }
    ensures { IfOk result (λ x. IsFound kz1 n (body_meaning body.now kz1 n) x) }
{
    match body {
        BodyText::Ints(list) => {
            if list.len() == n as usize {
                Ok(Some(ints_norm(alloc, list)?))
            } else {
                Ok(None)
            }
        }
        _ => Ok(None),
    }
}

// Up of a simplex: of a degeneracy of the vertex that of the base with one place more, and of s_w c the
// word moved up by one before Up of c.
pub(crate) fn raised(alloc: Global, x: Simplex) -> Result<Simplex, AllocError>
    requires { x.degens.mask < 2 ^ 31 }
    ensures base { IfOk result (λ y. dim_of x.cell ≡ 0 → y.cell ≡ Base) }
    ensures base_word { IfOk result (λ y. dim_of x.cell ≡ 0 → mask_word y.degens.mask ≡ degeneracy_word 0 (mask_word x.degens.mask)) }
    ensures up { IfOk result (λ y. 0 < dim_of x.cell → y.cell ≡ Up x.cell) }
    ensures up_word { IfOk result (λ y. 0 < dim_of x.cell → mask_word y.degens.mask ≡ map suc (mask_word x.degens.mask)) }
{
    if dim(&x.cell) == 0 {
        return Ok(Simplex {
            degens: degenerate(0, x.degens),
            cell: Cell::Base,
        });
    }
    let mask = x.degens.mask << 1;
    Ok(Simplex {
        degens: Degens { mask },
        cell: Cell::Up(Box::new(alloc, x.cell)?),
    })
}

// A word before what is found, if anything is.
pub(crate) fn prefixed(degens: Degens, found: Option<Simplex>) -> Option<Simplex>
    requires { IfSome found (λ x. IsWord 32 (compose_words (mask_word degens.mask) (mask_word x.degens.mask))) }
    ensures { IsPrefixed degens found result }
{
    match found {
        Some(x) => Some(Simplex {
            degens: compose(degens, x.degens),
            cell: x.cell,
        }),
        None => None,
    }
}

// The pair of what is found for two parts, in normal form, if both are found.
pub(crate) fn joined(
    alloc: Global,
    x: Option<Simplex>,
    y: Option<Simplex>,
) -> Result<Option<Simplex>, AllocError>
    ensures { IfOk result (IsJoined x y) }
{
    match (x, y) {
        (Some(x), Some(y)) => Ok(Some(paired(alloc, x, y)?)),
        _ => Ok(None),
    }
}
