// The law between two faces of a row.
ghost use Rattle.std.specs.Prelude.{◌≡◌, ◌<◌, ◌≤◌, length};
ghost use Rattle.spaces.specs.Tables.{row_at, listed_face};
ghost use Rattle.term_lang.specs.Rows.{rows_of, face_of};
ghost use Rattle.finite_sets.specs.Faults.{is_law, law_fault_at, law_fault};
ghost use Rattle.finite_sets.specs.Progress.{HasSimplices};

use crate::faces::face_on;
use crate::faults::TableFault;
use term_lang::{RowList, TableFace};

fn listed(rows: &RowList, r: usize, j: u32) -> TableFace
    requires row { r < length rows.now }
    requires face { j < length (row_at (rows_of rows.now) r).faces }
    ensures { face_of result ≡ listed_face (rows_of rows.now) j r }
{
    *rows.get(r).unwrap().faces.get(j as usize).unwrap()
}

// Whether d_i d_j is d_{j-1} d_i on the row r.
fn is_law(rows: &RowList, r: usize, i: u32, j: u32) -> bool
    requires rows { HasSimplices (rows_of rows.now) }
    requires row { r < length rows.now }
    requires above { 2 ≤ (row_at (rows_of rows.now) r).dim }
    requires pair { i < j }
    requires last { j ≤ (row_at (rows_of rows.now) r).dim }
    ensures { result ≡ is_law (rows_of rows.now) r i j }
{
    let x = listed(rows, r, i);
    let y = listed(rows, r, j);
    face_on(rows, i, y) == face_on(rows, j - 1, x)
}

fn law_fault_at(rows: &RowList, r: usize, dim: u32, i: u32) -> Option<TableFault>
    requires rows { HasSimplices (rows_of rows.now) }
    requires row { r < length rows.now }
    requires few { r < 256 }
    requires dim { (row_at (rows_of rows.now) r).dim ≡ dim }
    requires above { 2 ≤ dim }
    requires first { i ≤ dim }
    ensures { result ≡ law_fault_at (rows_of rows.now) r i }
{
    for j in i + 1..dim + 1 {
        if !is_law(rows, r, i, j) {
            return Some(TableFault::FaceLaw(r as u32, i, j));
        }
    }
    None
}

/// The first two faces of the row r, by i and then j, for which d_i d_j is not d_{j-1} d_i.
pub fn law_fault(rows: &RowList, r: usize) -> Option<TableFault>
    requires rows { HasSimplices (rows_of rows.now) }
    requires row { r < length rows.now }
    requires few { r < 256 }
    ensures { result ≡ law_fault (rows_of rows.now) r }
{
    let dim = rows.get(r).unwrap().dim;
    if dim < 2 {
        return None;
    }
    for i in 0..dim + 1 {
        if let Some(fault) = law_fault_at(rows, r, dim, i) {
            return Some(fault);
        }
    }
    None
}
