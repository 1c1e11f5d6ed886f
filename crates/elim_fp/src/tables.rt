// Tables of rows by leading place.
ghost use Rattle.std.specs.Prelude.{◌≡◌, ◌≢◌, ◌<◌, ◌↔◌, suc, [], ◌∷◌, All, length, drop, slice_index_or, IfOk};
ghost use Rattle.fp_field.specs.Field.{number};
ghost use Rattle.echelons.specs.Echelon.{Vector, lead, remainder, IsReducedEchelon, IsCombination};
ghost use Rattle.elim_fp.specs.Rows.{vectors_of, IsRow};
ghost use Rattle.elim_fp.specs.Tables.{IsTable, nonzero, leading_rows};

use crate::rows::FpRow;
use crate::transposes::zero_rows;
use fp_field::{Prime, inv};
use std::alloc::{AllocError, Global};

/// What is left of a row when no row of the table leads where it does: as long as one does, a multiple
/// of that row is taken away.
fn lowered(table: &[FpRow], p: Prime, row: &FpRow) -> Result<FpRow, AllocError>
    requires table { IsTable p (length row.now.values) table.now }
    requires row { IsRow p (length row.now.values) row.now }
    ensures row { IfOk result (λ r. IsRow p (length row.now.values) r) }
    ensures free { IfOk result (λ r. lead r.values < length row.now.values → lead (slice_index_or (vectors_of table.now) (lead r.values) []) ≢ lead r.values) }
    ensures span { IfOk result (λ r. (x : Vector) → IsCombination (number p) (length row.now.values) (r.values ∷ vectors_of table.now) x ↔ IsCombination (number p) (length row.now.values) (row.now.values ∷ vectors_of table.now) x) }
{
    let _ = p;
    let mut rest = row.clone()?;
    let mut place = rest.lead();
    while place < table.len() && table[place].lead() == place {
        let coefficient = rest.entry(place);
        rest.take_away(&table[place], coefficient)?;
        place = rest.lead();
    }
    Ok(rest)
}

/// The table of the rows of a table and one row more.
fn with_row(table: Vec<FpRow>, p: Prime, row: &FpRow) -> Result<Vec<FpRow>, AllocError>
    requires table { IsTable p (length row.now.values) table.items }
    requires row { IsRow p (length row.now.values) row.now }
    ensures table { IfOk result (λ t. IsTable p (length row.now.values) t.items) }
    ensures span { IfOk result (λ t. (x : Vector) → IsCombination (number p) (length row.now.values) (vectors_of t.items) x ↔ IsCombination (number p) (length row.now.values) (row.now.values ∷ vectors_of table.items) x) }
{
    let mut table = table;
    let mut rest = lowered(&table, p, row)?;
    let place = rest.lead();
    if place >= table.len() {
        return Ok(table);
    }
    let leading = rest.entry(place);
    rest.scale(inv(p, leading));
    table[place] = rest;
    Ok(table)
}

/// The table of rows with the span of these rows. The last row comes first: the rows of a differential rise
/// with their cells, and from the last one on fewer multiples are taken away from each.
pub fn table_of(
    alloc: Global,
    p: Prime,
    width: usize,
    rows: &[FpRow],
) -> Result<Vec<FpRow>, AllocError>
    requires { All (IsRow p width) rows.now }
    ensures table { IfOk result (λ t. IsTable p width t.items) }
    ensures span { IfOk result (λ t. (x : Vector) → IsCombination (number p) width (vectors_of t.items) x ↔ IsCombination (number p) width (vectors_of rows.now) x) }
{
    let mut table = zero_rows(alloc, p, width, width)?;
    let mut left = rows.len();
    while left > 0 {
        left -= 1;
        table = with_row(table, p, &rows[left])?;
    }
    Ok(table)
}

/// The row of a table at a place, after as much of each later row as makes it 0 where that row leads.
fn reduced(table: &[FpRow], p: Prime, place: usize) -> Result<FpRow, AllocError>
    requires table { IsTable p (length table.now) table.now }
    requires place { place < length table.now }
    requires later { IsReducedEchelon (number p) (length table.now) (nonzero (length table.now) (drop (suc place) (vectors_of table.now))) }
    ensures prime { IfOk result (λ r. r.prime ≡ p) }
    ensures values { IfOk result (λ r. r.values ≡ remainder (number p) (length table.now) (nonzero (length table.now) (drop (suc place) (vectors_of table.now))) (slice_index_or (vectors_of table.now) place [])) }
{
    let _ = p;
    let row = &table[place];
    let mut rest = row.clone()?;
    for (at, c) in row.terms() {
        if place < *at && *at < table.len() {
            rest.take_away(&table[*at], *c)?;
        }
    }
    Ok(rest)
}

/// The table whose rows are 0 where the others lead, with the same span. The last row is treated first.
pub fn reduce_table(table: Vec<FpRow>, p: Prime) -> Result<Vec<FpRow>, AllocError>
    requires { IsTable p (length table.items) table.items }
    ensures table { IfOk result (λ t. IsTable p (length table.items) t.items) }
    ensures echelon { IfOk result (λ t. IsReducedEchelon (number p) (length table.items) (nonzero (length table.items) (vectors_of t.items))) }
    ensures span { IfOk result (λ t. (x : Vector) → IsCombination (number p) (length table.items) (vectors_of t.items) x ↔ IsCombination (number p) (length table.items) (vectors_of table.items) x) }
{
    let mut table = table;
    let mut place = table.len();
    while place > 0 {
        place -= 1;
        let row = reduced(&table, p, place)?;
        table[place] = row;
    }
    Ok(table)
}

/// The rows that are not 0, in order.
pub fn nonzero_rows(alloc: Global, table: &[FpRow], width: usize) -> Result<Vec<FpRow>, AllocError>
    ensures { IfOk result (λ l. l.items ≡ leading_rows width table.now) }
{
    let mut rows = Vec::new(alloc);
    for row in table {
        if row.lead() < width {
            rows.push(row.clone()?)?;
        }
    }
    Ok(rows)
}

/// How many rows of a table are not 0.
pub fn nonzero_count(table: &[FpRow], width: usize) -> usize
    ensures { result ≡ length (leading_rows width table.now) }
{
    let mut count = 0;
    for row in table {
        if row.lead() < width {
            count += 1;
        }
    }
    count
}
