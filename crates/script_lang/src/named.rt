// The cells that names and `*` stand for in tables and spheres.
ghost use Rattle.std.specs.Prelude.{◌≡◌, ◌≤◌, ◌++◌, length, codes, nat_eq, IfOk};
ghost use Rattle.std.specs.Cmp.Lexicographic.{pointwise};
ghost use Rattle.std.specs.Fmt.{decimal};
ghost use Rattle.spaces.specs.Spaces.{table, sphere};
ghost use Rattle.term_lang.specs.Quote.{row_cell};
ghost use Rattle.term_lang.specs.Rows.{rows_of};
ghost use Rattle.script_lang.specs.Meaning.{mapped, named_row};
ghost use Rattle.script_lang.specs.Resolved.{body_cell};

use crate::simplices::BodyText;
use cells::Cell;
use std::alloc::{AllocError, Global};
use term_lang::{Name, Row, Table};

// In a table a body means the row of its name, and `*` the row of the name `*`.
pub(crate) fn table_cell(t: &Table, n: u32, body: &BodyText) -> Option<Cell>
    ensures { result ≡ body_cell body.now (table (rows_of t.now)) n }
{
    let rows = t.rows().as_slice();
    match body {
        BodyText::Star => named_cell(rows, b"*", n),
        BodyText::Name(name) => named_cell(rows, name.as_bytes(), n),
        _ => None,
    }
}

// The cell of the first row of a name, if it has the dimension n.
fn named_cell(rows: &[Row], name: &[u8], n: u32) -> Option<Cell>
    requires { length rows.now ≤ 256 }
    ensures { result ≡ mapped (row_cell n) (named_row (rows_of rows.now) name.now n) }
{
    for (r, row) in rows.iter().enumerate() {
        if row.name.as_bytes() == name {
            return if row.dim == n {
                Some(Cell::Row(n, r as u32))
            } else {
                None
            };
        }
    }
    None
}

// In a sphere of dimension m a body means the base, or the cell by its name.
pub(crate) fn sphere_cell(
    alloc: Global,
    m: u32,
    n: u32,
    body: &BodyText,
) -> Result<Option<Cell>, AllocError>
    requires { 1 ≤ m }
    ensures { IfOk result (λ cell. cell ≡ body_cell body.now (sphere m) n) }
{
    match body {
        BodyText::Star => {
            if n == 0 {
                Ok(Some(Cell::Base))
            } else {
                Ok(None)
            }
        }
        BodyText::Name(name) => {
            if n == m && is_top(alloc, m, name)? {
                Ok(Some(Cell::Top(n)))
            } else {
                Ok(None)
            }
        }
        _ => Ok(None),
    }
}

// Whether a name is `S` and the dimension of the sphere in decimals.
fn is_top(alloc: Global, m: u32, name: &Name) -> Result<bool, AllocError>
    ensures { IfOk result (λ yes. yes ≡ pointwise nat_eq name.now (codes "S" ++ decimal m)) }
{
    let top = format!(in alloc; "S{m}")?;
    Ok(name.as_bytes() == top.as_bytes())
}
