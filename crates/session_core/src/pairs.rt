// The values that pairs give to the cells of a base.
ghost use Rattle.std.specs.Prelude.{◌≡◌, ◌<◌, length, IfOk, IfErr};
ghost use Rattle.std.specs.List.{list_any};
ghost use Rattle.term_lang.specs.Rows.{row_of, rows_of};
ghost use Rattle.session_core.specs.Answer.{told, told_values};
ghost use Rattle.session_core.specs.Bundles.{is_cell, is_for, value_of, row_value, values_on, pair_fault, pairs_fault};
ghost use Rattle.session_core.specs.Telling.{Stops};

use crate::stops::Stop;
use cells::IntList;
use oracle_iface::Kind;
use reply_text::Refusal;
use script_lang::{PairText, PairTextList};
use seqs::new_seq;
use std::alloc::{AllocError, Global};
use term_lang::{Name, Row, Table};

const MOST_VALUE: u64 = 100_000;

/// The values that pairs give to the rows of a base, or the refusal of the first pair at fault: one whose name
/// no cell of dimension 2 has, or an earlier pair, or one with a value above 100,000 in magnitude.
pub(crate) fn bundle_values(
    alloc: Global,
    base: &Table,
    pairs: &PairTextList,
) -> Result<IntList, Stop>
    ensures told { IfOk result (λ values. told_values (rows_of base.now) pairs.now ≡ told values) }
    ensures stops { IfErr result (λ s. Stops s (told_values (rows_of base.now) pairs.now)) }
{
    let rows = base.rows().as_slice();
    let pairs = pairs.as_slice();
    match pairs_fault(rows, pairs) {
        Some(fault) => Err(Stop::Refused(fault)),
        None => Ok(values_on(alloc, rows, pairs)?),
    }
}

// The fault of the first pair that has one.
fn pairs_fault(rows: &[Row], pairs: &[PairText]) -> Option<Refusal>
    ensures { result ≡ pairs_fault (rows_of rows.now) pairs.now }
{
    for k in 0..pairs.len() {
        if let Some(fault) = pair_fault(rows, pairs, k) {
            return Some(fault);
        }
    }
    None
}

// The fault of one pair.
fn pair_fault(rows: &[Row], pairs: &[PairText], k: usize) -> Option<Refusal>
    requires { k < length pairs.now }
    ensures { result ≡ pair_fault (rows_of rows.now) pairs.now k }
{
    let pair = &pairs[k];
    if !has_cell(rows, &pair.cell) {
        return Some(Refusal::CocycleUnknown(k as u64 + 1));
    }
    if is_named(&pairs[..k], &pair.cell) {
        return Some(Refusal::CocycleRepeated(k as u64 + 1));
    }
    let size = pair.value.unsigned_abs();
    if size > MOST_VALUE {
        return Some(Refusal::Over(None, Kind::Integer, size));
    }
    None
}

// Whether a row of dimension 2 has the name.
fn has_cell(rows: &[Row], name: &Name) -> bool
    ensures { result ≡ list_any (is_cell name.now) (rows_of rows.now) }
{
    for row in rows {
        if is_cell(row, name) {
            return true;
        }
    }
    false
}

// Whether the row has dimension 2 and the name.
fn is_cell(row: &Row, name: &Name) -> bool
    ensures { result ≡ is_cell name.now (row_of row.now) }
{
    row.dim == 2 && row.name == *name
}

// Whether a pair names this cell.
fn is_named(pairs: &[PairText], name: &Name) -> bool
    ensures { result ≡ list_any (is_for name.now) pairs.now }
{
    for pair in pairs {
        if pair.cell == *name {
            return true;
        }
    }
    false
}

// One value for each row.
fn values_on(alloc: Global, rows: &[Row], pairs: &[PairText]) -> Result<IntList, AllocError>
    ensures { IfOk result (λ values. values ≡ values_on pairs.now (rows_of rows.now)) }
{
    let mut values = new_seq(alloc);
    for row in rows {
        values.push(row_value(pairs, row))?;
    }
    Ok(values)
}

// The value on a row: 0 where its dimension is not 2.
fn row_value(pairs: &[PairText], row: &Row) -> i64
    ensures { result ≡ row_value pairs.now (row_of row.now) }
{
    if row.dim != 2 {
        return 0;
    }
    value_of(pairs, &row.name)
}

// The value of the pair that names this cell, or 0.
fn value_of(pairs: &[PairText], name: &Name) -> i64
    ensures { result ≡ value_of pairs.now name.now }
{
    for pair in pairs {
        if pair.cell == *name {
            return pair.value;
        }
    }
    0
}
