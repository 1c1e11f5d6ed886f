// Names, tables of vertices, and bundles.
ghost use Rattle.std.specs.Prelude.{◌≡◌, ◌≢◌, ◌≤◌, length};

use seqs::new_seq;
use std::alloc::{AllocError, Global};
use term_lang::{Name, Row, RowList, Table, Term, name_of, table_of};

/// The name of these bytes.
pub fn named(bytes: &[u8]) -> Name
    requires some { 1 ≤ length bytes.now }
    requires most { length bytes.now ≤ 16 }
    ensures { result ≡ bytes.now }
{
    name_of(bytes).unwrap()
}

/// The table of one vertex.
pub fn point(alloc: Global, name: Name) -> Result<Table, AllocError> {
    let mut rows = RowList::new(alloc);
    rows.push(Row {
        name,
        dim: 0,
        faces: new_seq(alloc),
    })?;
    table_of(alloc, rows)
}

/// The table of two vertices.
pub fn two_points(alloc: Global, a: Name, b: Name) -> Result<Table, AllocError>
    requires { a ≢ b }
{
    let mut rows = RowList::new(alloc);
    rows.push(Row {
        name: a,
        dim: 0,
        faces: new_seq(alloc),
    })?;
    rows.push(Row {
        name: b,
        dim: 0,
        faces: new_seq(alloc),
    })?;
    table_of(alloc, rows)
}

/// The circle bundle of these values over a table.
pub fn bundle(alloc: Global, base: Table, numbers: &[i64]) -> Result<Term, AllocError> {
    let mut values = new_seq(alloc);
    for number in numbers {
        values.push(*number)?;
    }
    Ok(Term::Bundle(base, values))
}
