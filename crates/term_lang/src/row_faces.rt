// The faces of the simplices of a table.
ghost use Rattle.std.specs.Prelude.{◌≡◌, ◌+◌, ◌-◌, ◌<◌, ◌≤◌, length};
ghost use Rattle.simp_ops.specs.Bits.{mask_word};
ghost use Rattle.simp_ops.specs.Words.{IsWord, compose_words};
ghost use Rattle.spaces.specs.Allowed.{IsTable};
ghost use Rattle.spaces.specs.Spaces.{table, set_of};
ghost use Rattle.spaces.specs.Tables.{row_at, listed_face};
ghost use Rattle.cells.specs.Dim.{degree_of};
ghost use Rattle.cells.specs.declared.cells.Cell.TheVariants.{Row as RowCell};
ghost use Rattle.term_lang.specs.Belongs.{IsSimplex};
ghost use Rattle.term_lang.specs.Forms.{form};
ghost use Rattle.term_lang.specs.Rows.{rows_of};

use crate::tables::{Row, Table};
use cells::{Cell, Simplex};
use simp_ops::{Degens, FacePast, compose, face_past};

/// The face d_i of a simplex of a table, of degree 1 to 32, with i at most the degree: what the
/// simplicial identities leave of the degeneracies, before the row or its listed face (May,
/// Simplicial Objects, chapter I).
pub fn table_face(t: &Table, i: u32, x: &Simplex) -> Simplex
    requires simplex { IsSimplex (table (rows_of t.now)) (degree_of x.now) x.now }
    requires positive { 1 ≤ degree_of x.now }
    requires most { degree_of x.now ≤ 32 }
    requires index { i ≤ degree_of x.now }
    ensures form { let X = table (rows_of t.now) in form result X ≡ (set_of X).face i (form x.now X) }
    ensures simplex { IsSimplex (table (rows_of t.now)) (degree_of x.now - 1) result }
{
    let rows = t.rows().as_slice();
    let (dim, row) = match &x.cell {
        Cell::Row(dim, row) => (*dim, *row),
        _ => unreachable!(),
    };
    match face_past(i, x.degens) {
        FacePast::Absorbed(degens) => Simplex {
            degens,
            cell: Cell::Row(dim, row),
        },
        FacePast::Through(j, degens) => before_listed(rows, degens, j, row),
    }
}

// A word of degeneracies before the listed face j of a row of a table.
fn before_listed(rows: &[Row], word: Degens, j: u32, row: u32) -> Simplex
    requires form { IsTable (rows_of rows.now) }
    requires row { row < length rows.now }
    requires face { j < length (row_at (rows_of rows.now) row).faces }
    requires fits { IsWord 32 (compose_words (mask_word word.mask) (listed_face (rows_of rows.now) j row).0) }
    ensures word { mask_word result.degens.mask ≡ compose_words (mask_word word.mask) (listed_face (rows_of rows.now) j row).0 }
    ensures cell { let r = (listed_face (rows_of rows.now) j row).1 in result.cell ≡ RowCell (row_at (rows_of rows.now) r).dim r }
{
    let faces = rows[row as usize].faces.as_slice();
    let face = faces[j as usize];
    Simplex {
        degens: compose(word, face.degens),
        cell: Cell::Row(rows[face.row as usize].dim, face.row),
    }
}
