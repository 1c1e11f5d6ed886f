// Whether values on the rows of a table are a cocycle.
ghost use Rattle.std.specs.Prelude.{◌≡◌, ◌<◌, ◌≤◌, nat_abs, length};
ghost use Rattle.std.specs.Result.{result_err};
ghost use Rattle.spaces.specs.Tables.{row_at};
ghost use Rattle.cells.specs.declared.cells.Cell.TheVariants.{Row as RowCell};
ghost use Rattle.term_lang.specs.Rows.{rows_of};
ghost use Rattle.term_lang.specs.TermFaults.{face_sum, on_face};
ghost use Rattle.twist_maps.specs.Values.{AreValues, first_open};

use crate::values::value_on;
use cells::{Cell, IntList, Simplex};
use simp_ops::Degens;
use term_lang::{NotCocycle, Table, table_face};

/// Whether values on the rows of a table, one for each row and at most 100,000 in magnitude, are closed:
/// `NotCocycle` exactly where a row of dimension 3 has a sum c(d_0) - c(d_1) + c(d_2) - c(d_3) other than 0,
/// where c is 0 on degenerate faces. It carries the first such row, from 0, and its sum (May, Simplicial Objects, chapter IV, 18
/// and 21). It takes no memory.
pub fn check_cocycle(base: &Table, values: &IntList) -> Result<(), NotCocycle>
    requires values { AreValues (rows_of base.now) values.now }
    ensures { result_err result ≡ first_open (rows_of base.now) values.now }
{
    let rows = base.rows().as_slice();
    for r in 0..rows.len() {
        if rows[r].dim == 3 {
            let sum = sum_on_faces(base, values, r as u32);
            if sum != 0 {
                return Err(NotCocycle { row: r as u32, sum });
            }
        }
    }
    Ok(())
}

// The alternating sum over the faces of a row of dimension 3.
fn sum_on_faces(base: &Table, values: &IntList, row: u32) -> i64
    requires values { AreValues (rows_of base.now) values.now }
    requires row { row < length base.now }
    requires dimension { (row_at (rows_of base.now) row).dim ≡ 3 }
    ensures { result ≡ face_sum (rows_of base.now) values.now row }
{
    let front = value_on_face(base, values, row, 0) - value_on_face(base, values, row, 1);
    let back = value_on_face(base, values, row, 2) - value_on_face(base, values, row, 3);
    front + back
}

// The value on the face d_i of a row of dimension 3.
fn value_on_face(base: &Table, values: &IntList, row: u32, i: u32) -> i64
    requires values { AreValues (rows_of base.now) values.now }
    requires row { row < length base.now }
    requires dimension { (row_at (rows_of base.now) row).dim ≡ 3 }
    requires face { i ≤ 3 }
    ensures value { result ≡ on_face (rows_of base.now) values.now row i }
    ensures small { nat_abs result ≤ 100000 }
{
    base.rows();
    value_on(base, values, &table_face(base, i, &solid(row)))
}

// A row of dimension 3 as a simplex.
fn solid(row: u32) -> Simplex
    ensures mask { result.degens.mask ≡ 0 }
    ensures cell { result.cell ≡ RowCell 3 row }
{
    Simplex {
        degens: Degens { mask: 0 },
        cell: Cell::Row(3, row),
    }
}
