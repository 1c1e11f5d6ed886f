// The values of keys of tables: the small cells are the rows, the small differential is the alternating sum of the faces that are
// rows, F and G are the identity, and H is 0.
ghost use Rattle.std.specs.Prelude.{◌≡◌, ◌≢◌, ◌<◌, IfOk, length};
ghost use Rattle.fp_field.specs.Field.{number, SameMod, sign};
ghost use Rattle.fp_field.specs.Normal.{normal};
ghost use Rattle.spaces.specs.Spaces.{table};
ghost use Rattle.spaces.specs.SmallCells.{small_cmp};
ghost use Rattle.term_lang.specs.Rows.{rows_of};
ghost use Rattle.values.specs.Rules.{rows_of_dim, row_d};
ghost use Rattle.oracle_iface.specs.Keys.{quote_basis, quote_small_chain};

use chain_core::Chain;
use fp_field::{Fp, Prime, value};
use seqs::new_seq;
use std::alloc::{AllocError, Global};
use term_lang::{Cell, SmallCell, SmallList, Table};

/// The rows of a dimension, in order.
pub(crate) fn rows_of_dim(alloc: Global, t: &Table, n: u32) -> Result<SmallList, AllocError>
    ensures { IfOk result (λ l. l ≡ quote_basis (table (rows_of t.now)) (rows_of_dim (rows_of t.now) n)) }
{
    let mut cells = new_seq(alloc);
    let rows = t.rows().as_slice();
    for i in 0..rows.len() {
        if rows[i].dim == n {
            cells.push(SmallCell::One(Cell::Row(n, i as u32)))?;
        }
    }
    Ok(cells)
}

/// The coefficient of the i-th face.
fn sign(p: Prime, i: usize) -> Fp
    ensures element { result.value < number p }
    ensures value { SameMod (number p) result.value (sign (number p) i) }
{
    if i % 2 == 0 {
        Fp { value: 1 }
    } else {
        Fp {
            value: value(p) - 1,
        }
    }
}

/// The small differential of a row.
pub(crate) fn row_boundary(
    alloc: Global,
    p: Prime,
    t: &Table,
    r: u32,
) -> Result<Chain<SmallCell>, AllocError>
    requires row { r < length t.now }
    ensures prime { IfOk result (λ c. c.prime ≡ p) }
    ensures sum { IfOk result (λ c. c.terms ≡ quote_small_chain (table (rows_of t.now)) (normal (small_cmp (table (rows_of t.now))) (number p) (row_d (number p) (rows_of t.now) r))) }
{
    let row = &t.rows().as_slice()[r as usize];
    let faces = row.faces.as_slice();
    let mut terms = Vec::new(alloc);
    let mut i = faces.len();
    while i > 0 {
        i -= 1;
        if faces[i].degens.mask == 0 {
            let cell = SmallCell::One(Cell::Row(row.dim - 1, faces[i].row));
            terms.push((cell, sign(p, i)))?;
        }
    }
    Chain::from_terms(alloc, p, terms)
}
