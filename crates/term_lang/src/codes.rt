// The code of a table's rows, by which tables are told apart, and its mark.
ghost use Rattle.std.specs.Prelude.{◌≡◌, ◌++◌, map, IfOk, OnOk};
ghost use Rattle.term_lang.specs.Codes.{face_word, head_word, row_words, code_of, mark_of};

use crate::names::Name;
use crate::tables::{FaceList, Row, RowList, TableFace};
use seqs::{Seq, new_seq};
use std::alloc::{AllocError, Global};

const HIGH: u64 = 0x1_0000_0000;

fn word_of(face: &TableFace) -> u64
    ensures { result ≡ face_word face.now }
{
    face.row as u64 * HIGH + face.degens.mask
}

fn head_of(row: &Row) -> u64
    ensures { result ≡ head_word row.now }
{
    row.name.as_bytes().len() as u64 * HIGH + row.dim as u64
}

fn push_name(code: &mut Seq<u64>, name: &Name) -> Result<(), AllocError>
    ensures { OnOk result (code.new ≡ code.old ++ name.now) }
{
    for byte in name.as_bytes() {
        code.push(*byte as u64)?;
    }
    Ok(())
}

fn push_faces(code: &mut Seq<u64>, faces: &FaceList) -> Result<(), AllocError>
    ensures { OnOk result (code.new ≡ code.old ++ map face_word faces.now) }
{
    for face in faces.as_slice() {
        code.push(word_of(face))?;
    }
    Ok(())
}

fn push_row(code: &mut Seq<u64>, row: &Row) -> Result<(), AllocError>
    ensures { OnOk result (code.new ≡ code.old ++ row_words row.now) }
{
    code.push(head_of(row))?;
    push_name(code, &row.name)?;
    push_faces(code, &row.faces)
}

/// The code of these rows.
pub(crate) fn code_rows(alloc: Global, rows: &RowList) -> Result<Seq<u64>, AllocError>
    ensures { IfOk result (λ code. code ≡ code_of rows.now) }
{
    let mut code = new_seq(alloc);
    for row in rows.as_slice() {
        push_row(&mut code, row)?;
    }
    Ok(code)
}

/// The mark of a code.
pub(crate) fn mark_code(code: &Seq<u64>) -> u64
    ensures { result ≡ mark_of code.now }
{
    let mut mark: u64 = 0xCBF2_9CE4_8422_2325;
    for word in code.as_slice() {
        mark = (mark ^ *word).wrapping_mul(1_099_511_628_211);
    }
    mark
}
