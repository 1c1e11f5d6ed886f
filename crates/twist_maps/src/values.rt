// The value of a cocycle on a simplex of degree 2.
ghost use Rattle.std.specs.Prelude.{◌≡◌, ◌≤◌, nat_abs, length};
ghost use Rattle.spaces.specs.Nerves.{integers};
ghost use Rattle.spaces.specs.Cocycles.{cocycle};
ghost use Rattle.spaces.specs.Spaces.{table};
ghost use Rattle.term_lang.specs.Belongs.{IsSimplex};
ghost use Rattle.term_lang.specs.Forms.{form};
ghost use Rattle.term_lang.specs.Rows.{rows_of};
ghost use Rattle.twist_maps.specs.Values.{AreValues};

use cells::{Cell, IntList, Simplex};
use term_lang::Table;

/// The value of a cocycle on a simplex of its table, of degree 2: 0 where the simplex is degenerate.
pub(crate) fn value_on(base: &Table, values: &IntList, x: &Simplex) -> i64
    requires values { AreValues (rows_of base.now) values.now }
    requires simplex { IsSimplex (table (rows_of base.now)) 2 x.now }
    ensures value { result ≡ cocycle integers (rows_of base.now) values.now (form x.now (table (rows_of base.now))) }
    ensures small { nat_abs result ≤ 100000 }
{
    base.rows();
    let row = match &x.cell {
        Cell::Row(_, row) => *row,
        _ => unreachable!(),
    };
    if x.degens.mask != 0 {
        return 0;
    }
    values.as_slice()[row as usize]
}
