// A table from rows as they are written.
ghost use Rattle.std.specs.Prelude.{◌≡◌, ◌≢◌, ◌↔◌, ◌<◌, ◌≤◌, List, length, map};
ghost use Rattle.std.specs.Prelude.{Some, None, IfOk, IfErr, OnOk};
ghost use Rattle.spaces.specs.Allowed.{IsTable};
ghost use Rattle.term_lang.specs.declared.tables.Row.{Row};
ghost use Rattle.term_lang.specs.declared.texts.RowText.{RowText};
ghost use Rattle.term_lang.specs.Rows.{rows_of, row_of, face_of};
ghost use Rattle.finite_sets.specs.Meaning.{text_at, face_meant, row_meant, meaning_of};
ghost use Rattle.finite_sets.specs.Faults.{faces_fault, own_fault, fault_of};
ghost use Rattle.finite_sets.specs.Progress.{IsBuilt};

use crate::faces::read_face;
use crate::faults::{TableFault, list_fault};
use crate::laws::law_fault;
use seqs::new_seq;
use std::alloc::Global;
use std::collections::BTreeMap;
use term_lang::{FaceList, Name, Row, RowList, RowTextList, Table, table_of};

fn read_faces(
    alloc: Global,
    texts: &RowTextList,
    r: usize,
    built: &RowList,
    places: &BTreeMap<Name, u32>,
) -> Result<FaceList, TableFault>
    requires built { IsBuilt texts.now r built.now places.now }
    requires row { r < length texts.now }
    requires some { length (text_at texts.now r).faces ≢ 1 }
    requires most { length (text_at texts.now r).faces ≤ 17 }
    ensures none { OnOk result (faces_fault texts.now r ≡ None) }
    ensures ok { IfOk result
        (λ faces. map face_of faces ≡ map (face_meant texts.now) (text_at texts.now r).faces) }
    ensures err { IfErr result
        (λ fault. fault ≢ TableFault.Memory → faces_fault texts.now r ≡ Some fault) }
{
    let mut faces = new_seq(alloc);
    for i in 0..texts.get(r).unwrap().faces.len() {
        let face = read_face(texts, r, i, built, places)?;
        faces.push(face)?;
    }
    Ok(faces)
}

fn read_row(
    alloc: Global,
    texts: &RowTextList,
    r: usize,
    built: &RowList,
    places: &BTreeMap<Name, u32>,
) -> Result<Row, TableFault>
    requires built { IsBuilt texts.now r built.now places.now }
    requires row { r < length texts.now }
    ensures none { OnOk result (own_fault texts.now r ≡ None) }
    ensures ok { IfOk result (λ row. row_of row ≡ row_meant texts.now (text_at texts.now r)) }
    ensures err { IfErr result
        (λ fault. fault ≢ TableFault.Memory → own_fault texts.now r ≡ Some fault) }
{
    let text = texts.get(r).unwrap();
    if places.contains_key(&text.name) {
        return Err(TableFault::DuplicateCell(r as u32));
    }
    let count = text.faces.len();
    if count == 1 || count > 17 {
        return Err(TableFault::BadDimension(r as u32));
    }
    Ok(Row {
        name: text.name,
        dim: count.saturating_sub(1) as u32,
        faces: read_faces(alloc, texts, r, built, places)?,
    })
}

/// The table that the rows mean, where they have no fault, and their first fault else: too many rows or
/// no vertex, and then row by row a name that an earlier row has, a number of faces that is neither 0
/// nor from 2 to 17, face by face a name that no earlier row has or a word of a wrong degree, and the
/// law between two faces. Memory is want of memory (Kenzo documentation, 1999, on finite simplicial sets).
pub fn build_table(alloc: Global, rows: &RowTextList) -> Result<Table, TableFault>
    ensures table { IfOk result (λ table. rows_of table ≡ meaning_of rows.now) }
    ensures none { OnOk result (fault_of rows.now ≡ None) }
    ensures first { IfErr result
        (λ fault. fault ≢ TableFault.Memory → fault_of rows.now ≡ Some fault) }
{
    if let Some(fault) = list_fault(rows) {
        return Err(fault);
    }
    let mut built = RowList::new(alloc);
    let mut places = BTreeMap::new(alloc);
    for r in 0..rows.len() {
        let row = read_row(alloc, rows, r, &built, &places)?;
        let name = row.name;
        built.push(row)?;
        if let Some(fault) = law_fault(&built, r) {
            return Err(fault);
        }
        places.insert(name, r as u32)?;
    }
    Ok(table_of(alloc, built)?)
}

/// Rows mean a table exactly where they have no fault. It does nothing; its clause is the law.
pub fn table_faults()
    ensures { (rows : List RowText) → IsTable (meaning_of rows) ↔ (fault_of rows ≡ None) }
{}

/// Two lists of rows that mean the same are the same. It does nothing; its clause is the law.
pub fn rows_told()
    ensures { (s t : List Row) → rows_of s ≡ rows_of t → s ≡ t }
{}
