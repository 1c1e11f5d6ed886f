// The faces of a row as it is written, and of simplices on the rows so far.
ghost use Rattle.std.specs.Prelude.{◌≡◌, ◌<◌, ◌≤◌, length, is_some, IfOk, IfErr, IfSome};
ghost use Rattle.simp_ops.specs.Bits.{mask_word};
ghost use Rattle.spaces.specs.Tables.{row_face};
ghost use Rattle.term_lang.specs.Rows.{rows_of, face_of};
ghost use Rattle.finite_sets.specs.Meaning.{text_at, face_at, face_meant};
ghost use Rattle.finite_sets.specs.Faults.{is_word, face_fault};
ghost use Rattle.finite_sets.specs.Progress.{IsBuilt, HasSimplices, HasFace};

use crate::faults::TableFault;
use simp_ops::{Degens, FacePast, compose, face_past};
use std::collections::BTreeMap;
use term_lang::{Name, RowList, RowTextList, TableFace};

// The word of these indices, or None where they do not decrease strictly or one is not below the bound.
fn degens_below(bound: u64, word: &[u64]) -> Option<Degens>
    requires { bound ≤ 32 }
    ensures some { is_some result ≡ is_word bound word.now }
    ensures word { IfSome result (λ degens. mask_word degens.mask ≡ word.now) }
{
    let mut mask = 0;
    let mut above = bound;
    for j in word {
        if *j >= above {
            return None;
        }
        mask |= 1 << *j;
        above = *j;
    }
    Some(Degens { mask })
}

/// The face i of the row r, or its fault.
pub fn read_face(
    texts: &RowTextList,
    r: usize,
    i: usize,
    built: &RowList,
    places: &BTreeMap<Name, u32>,
) -> Result<TableFace, TableFault>
    requires built { IsBuilt texts.now r built.now places.now }
    requires row { r < length texts.now }
    requires face { i < length (text_at texts.now r).faces }
    requires some { 2 ≤ length (text_at texts.now r).faces }
    requires most { length (text_at texts.now r).faces ≤ 17 }
    ensures none { IfOk result (λ _. face_fault texts.now r i ≡ None) }
    ensures ok { IfOk result
        (λ face. face_of face ≡ face_meant texts.now (face_at (text_at texts.now r) i)) }
    ensures err { IfErr result (λ fault. face_fault texts.now r i ≡ Some fault) }
{
    let row = texts.get(r).unwrap();
    let text = row.faces.get(i).unwrap();
    let degree = row.faces.len() - 2;
    let Some(place) = places.get(&text.name) else {
        return Err(TableFault::UnknownCell(r as u32, i as u32));
    };
    let Some(degens) = degens_below(degree as u64, text.word.as_slice()) else {
        return Err(TableFault::BadDimension(r as u32));
    };
    let dim = built.get(*place as usize).unwrap().dim as usize;
    if dim > degree || degree - dim != text.word.len() {
        return Err(TableFault::BadDimension(r as u32));
    }
    Ok(TableFace {
        degens,
        row: *place,
    })
}

/// The face d_i of a simplex on the rows.
pub fn face_on(rows: &RowList, i: u32, x: TableFace) -> TableFace
    requires rows { HasSimplices (rows_of rows.now) }
    requires face { HasFace (rows_of rows.now) i (face_of x) }
    ensures { face_of result ≡ row_face (rows_of rows.now) i (face_of x) }
{
    match face_past(i, x.degens) {
        FacePast::Absorbed(degens) => TableFace { degens, row: x.row },
        FacePast::Through(j, degens) => {
            let listed = rows
                .get(x.row as usize)
                .unwrap()
                .faces
                .get(j as usize)
                .unwrap();
            TableFace {
                degens: compose(degens, listed.degens),
                row: listed.row,
            }
        }
    }
}
