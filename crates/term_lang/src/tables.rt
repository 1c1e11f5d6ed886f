// Tables: lists of rows, each a non-degenerate simplex with its faces.
ghost use Rattle.std.specs.Prelude.{◌≡◌, [], ◌∷◌, ◌++◌, ◌<◌, ◌↔◌, length, slice_get, IsSome, IfOk, OnOk, OnErr};
ghost use Rattle.std.specs.Option.{option_copied};
ghost use Rattle.spaces.specs.Allowed.{IsTable};
ghost use Rattle.term_lang.specs.Rows.{rows_of};
ghost use Rattle.term_lang.specs.Codes.{code_of, mark_of};

use crate::codes::{code_rows, mark_code};
use crate::names::Name;
use seqs::{Arc, Seq, new_seq};
use simp_ops::Degens;
use std::alloc::{AllocError, Global};
use std::marker::Model;

/// A face of a row: a degeneracy word before an earlier row, which is given by its place from 0.
#[derive(Clone, Copy, Debug, PartialEq, Eq, PartialOrd, Ord)]
pub struct TableFace {
    pub degens: Degens,
    pub row: u32,
}

/// The faces of a row in order.
pub type FaceList = Seq<TableFace>;

/// A non-degenerate simplex of a table: its name, its dimension and its faces in order.
#[derive(Debug, PartialEq, Eq, PartialOrd, Ord, Drop)]
pub struct Row {
    pub name: Name,
    pub dim: u32,
    pub faces: FaceList,
}

/// A list of rows.
#[derive(Debug, PartialEq, Eq, PartialOrd, Ord, Drop)]
pub struct RowList {
    rows: Seq<Row>,
}

impl Model for RowList {
    ghost use Rattle.std.specs.Prelude.{List};
    ghost use Rattle.term_lang.specs.declared.tables.Row.{Row};

    ghost Value = { List Row };

    ghost view = { λ list. list.rows };

    ghost inverse = { λ rows. record { rows = rows } };
}

impl RowList {
    /// The empty list, which will grow with memory from `alloc`.
    pub fn new(alloc: Global) -> Self
        ensures { result ≡ [] }
    {
        RowList {
            rows: new_seq(alloc),
        }
    }

    /// Puts a row at the end.
    pub fn push(&mut self, row: Row) -> Result<(), AllocError>
        ensures ok { OnOk result (self.new ≡ self.old ++ row ∷ []) }
        ensures err { OnErr result (self.new ≡ self.old) }
    {
        self.rows.push(row)
    }

    /// The row at the place `i`, counted from 0, or None exactly where `i` is not below the length.
    pub fn get(&self, i: usize) -> Option<&Row>
        ensures value { option_copied result ≡ slice_get self.now i }
        ensures within { IsSome result ↔ (i < length self.now) }
    {
        self.rows.get(i)
    }

    /// The number of rows.
    pub fn len(&self) -> usize
        ensures { result ≡ length self.now }
    {
        self.rows.len()
    }

    /// The rows in order.
    pub fn as_slice(&self) -> &[Row]
        ensures { result.now ≡ self.now }
    {
        self.rows.as_slice()
    }
}

// The rows of a table and, made once from them, what tells it from others.
#[derive(Debug, Drop)]
struct Sheet {
    rows: RowList,
    // Numbers that tell the rows.
    code: Seq<u64>,
    // One number that the code determines.
    mark: u64,
}

/// A table: a list of 1 to 256 rows of different names, each of dimension at most 16, with one more
/// face than its dimension where that is positive. The faces are degeneracies of earlier rows, and
/// the law between two faces holds at each row (May, Simplicial Objects, chapter I). Copies of a
/// table share its rows.
#[derive(Debug, Drop)]
pub struct Table {
    sheet: Arc<Sheet>,
}

impl Model for Table {
    ghost use Rattle.std.specs.Prelude.{List};
    ghost use Rattle.term_lang.specs.declared.tables.Row.{Row};
    ghost use Rattle.term_lang.specs.Sheets.{IsSheet};

    ghost Value = { List Row };

    ghost view = { λ table. table.sheet.rows };

    ghost invariant = { λ table. IsSheet table.sheet };
}

/// The table of these rows, which are of the form that a table asks for. Only memory can be wanting.
pub fn table_of(alloc: Global, rows: RowList) -> Result<Table, AllocError>
    requires { IsTable (rows_of rows) }
    ensures { IfOk result (λ table. table ≡ rows) }
{
    let code = code_rows(alloc, &rows)?;
    let mark = mark_code(&code);
    let sheet = Arc::new(alloc, Sheet { rows, code, mark })?;
    Ok(Table { sheet })
}

impl Table {
    /// The rows in order.
    pub fn rows(&self) -> &RowList
        ensures rows { result.now ≡ self.now }
        ensures form { IsTable (rows_of self.now) }
    {
        &self.sheet.get().rows
    }

    // The numbers that tell the rows.
    pub(crate) fn code(&self) -> &[u64]
        ensures code { result.now ≡ code_of self.now }
        ensures form { IsTable (rows_of self.now) }
    {
        self.sheet.get().code.as_slice()
    }

    // One number that the rows determine.
    pub(crate) fn mark(&self) -> u64
        ensures { result ≡ mark_of (code_of self.now) }
    {
        self.sheet.get().mark
    }

    // The same table, by the same rows in memory.
    pub(crate) fn shared(&self) -> Result<Table, AllocError>
        ensures { IfOk result (λ copy. copy ≡ self.now) }
    {
        let sheet = self.sheet.clone()?;
        Ok(Table { sheet })
    }
}
