// Simplices of the fibre K(Z,1) as lists of integers.
ghost use Rattle.std.specs.Prelude.{◌≡◌, ◌≤◌, IfOk};
ghost use Rattle.spaces.specs.Spaces.{kz1};
ghost use Rattle.term_lang.specs.Belongs.{IsSimplex};
ghost use Rattle.term_lang.specs.Forms.{form};

use cells::{Cell, IntList, Simplex};
use seqs::new_seq;
use std::alloc::{AllocError, Global};

/// The list of n integers that a simplex of K(Z,1) of degree n stands for: those of its cell in order, with a
/// zero at each place of its mask.
pub fn ints_of(alloc: Global, n: u32, x: &Simplex) -> Result<IntList, AllocError>
    requires simplex { IsSimplex kz1 n x.now }
    requires most { n ≤ 32 }
    ensures { IfOk result (λ list. list ≡ form x.now kz1) }
{
    let cell = match &x.cell {
        Cell::Ints(list) => list,
        _ => unreachable!(),
    };
    let items = cell.as_slice();
    let mut list = new_seq(alloc);
    let mut k = 0;
    for i in 0..n {
        if x.degens.has(i) {
            list.push(0)?;
        } else {
            list.push(items[k])?;
            k += 1;
        }
    }
    Ok(list)
}
