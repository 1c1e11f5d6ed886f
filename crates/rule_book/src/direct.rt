// The values of keys about tables and spheres, which need no other keys: the small cells are the cells, F and G are the identity, and H
// is 0.
ghost use Rattle.std.specs.Prelude.{◌≡◌, ◌<◌, IfOk};
ghost use Rattle.spaces.specs.Spaces.{sphere};
ghost use Rattle.spaces.specs.Tables.{sphere_rows};
ghost use Rattle.values.specs.Rules.{rows_of_dim};
ghost use Rattle.oracle_iface.specs.Keys.{quote_basis};
ghost use Rattle.oracle_iface.specs.declared.keys.Op.TheVariants.{Basis, SmallD, Cycles};
ghost use Rattle.oracle_iface.specs.declared.bodies.Body.TheVariants.{Cells as CellsBody, Small as SmallBody};
ghost use Rattle.rule_book.specs.RowSpaces.{IsRowKey};
ghost use Rattle.rule_book.specs.Values.{HasValue};

use crate::places::{cell_at, degree_at, row_of, small_at};
use crate::rows::{row_boundary, rows_of_dim};
use crate::units::{cell_chain, small_chain};
use chain_core::Chain;
use oracle_iface::{Body, Key, Op};
use seqs::new_seq;
use std::alloc::{AllocError, Global};
use term_lang::{Cell, SmallCell, SmallList, Term};

/// The small cells of degree n of the sphere of dimension m.
fn sphere_cells(alloc: Global, m: u32, n: u32) -> Result<SmallList, AllocError>
    requires { 0 < m }
    ensures { IfOk result (λ ys. ys ≡ quote_basis (sphere m) (rows_of_dim (sphere_rows m) n)) }
{
    let mut cells = new_seq(alloc);
    if n == 0 {
        cells.push(SmallCell::One(Cell::Base))?;
    } else if n == m {
        cells.push(SmallCell::One(Cell::Top(m)))?;
    }
    Ok(cells)
}

/// The small cells of the degree of a key.
fn basis(alloc: Global, key: &Key) -> Result<SmallList, AllocError>
    requires key { IsRowKey key.now }
    requires op { key.now.op ≡ Basis }
    ensures { IfOk result (λ ys. HasValue key.now (CellsBody ys)) }
{
    let n = degree_at(&key.place);
    match key.term.get() {
        Term::Table(t) => rows_of_dim(alloc, t, n),
        Term::Sphere(m) => sphere_cells(alloc, *m, n),
        _ => unreachable!(),
    }
}

/// The small differential at the small cell of a key. That of a sphere is 0.
fn small_boundary(alloc: Global, key: &Key) -> Result<Chain<SmallCell>, AllocError>
    requires key { IsRowKey key.now }
    requires op { key.now.op ≡ SmallD }
    ensures { IfOk result (λ c. HasValue key.now (SmallBody c)) }
{
    match key.term.get() {
        Term::Table(t) => row_boundary(alloc, key.prime, t, row_of(small_at(&key.place))),
        Term::Sphere(_) => Ok(Chain::new(alloc, key.prime)),
        _ => unreachable!(),
    }
}

/// The value of a key about a table or a sphere, other than that of cycles: the rows of a degree, the small
/// differential of a row, the cell itself for F and G, and 0 for H. Keys about other spaces are not for it.
pub fn direct_value(alloc: Global, key: &Key) -> Result<Body, AllocError>
    requires key { IsRowKey key.now }
    requires op { key.now.op ≡ Cycles → ⊥ }
    ensures { IfOk result (λ b. HasValue key.now b) }
{
    match key.op {
        Op::Basis => Ok(Body::Cells(basis(alloc, key)?)),
        Op::SmallD => Ok(Body::Small(small_boundary(alloc, key)?)),
        Op::F => Ok(Body::Small(small_chain(alloc, key.prime, cell_at(&key.place))?)),
        Op::G => Ok(Body::Big(cell_chain(alloc, key.prime, small_at(&key.place))?)),
        Op::H => Ok(Body::Big(Chain::new(alloc, key.prime))),
        Op::Cycles => unreachable!(),
    }
}
