use crate::answers::{fails, is, is_shown};
use finite_sets::{
    BaseFault, TableFault, build_table, bundle_base, rows_told, sphere_table, table_faults,
};
use seqs::{Seq, new_seq};
use simp_ops::Degens;
use std::alloc::{AllocError, Global};
use std::process::Abort;
use std::test::Fail;
use term_lang::{
    FaceText, FaceTextList, Name, Row, RowText, RowTextList, Table, TableFace, Term, name_of,
};

fn named(rt: &impl Abort, text: &str) -> Name {
    name_of(text.as_bytes()).expect(rt, "a name of 1 to 16 bytes")
}

fn indices(rt: &impl Abort, alloc: Global, text: &str) -> Result<Seq<u64>, AllocError> {
    let mut word = new_seq(alloc);
    for piece in text.split('-') {
        let index: u64 = piece.parse().expect(rt, "an index");
        word.push(index)?;
    }
    Ok(word)
}

// A face is written `v`, or `1-0:v` with its degeneracies.
fn face(rt: &impl Abort, alloc: Global, text: &str) -> Result<FaceText, AllocError> {
    match text.split_once(':') {
        Some((word, name)) => Ok(FaceText {
            word: indices(rt, alloc, word)?,
            name: named(rt, name),
        }),
        None => Ok(FaceText {
            word: new_seq(alloc),
            name: named(rt, text),
        }),
    }
}

fn faces(rt: &impl Abort, alloc: Global, text: &str) -> Result<FaceTextList, AllocError> {
    let mut list = FaceTextList::new(alloc);
    for piece in text.split_whitespace() {
        list.push(face(rt, alloc, piece)?)?;
    }
    Ok(list)
}

// The row of a name, with faces that are written one after another.
fn push_row(
    rt: &impl Abort,
    alloc: Global,
    rows: &mut RowTextList,
    name: &str,
    text: &str,
) -> Result<(), AllocError> {
    rows.push(RowText {
        name: named(rt, name),
        faces: faces(rt, alloc, text)?,
    })
}

// Rows are written `v;e v v;t e 0:v e`.
fn written(rt: &impl Abort, alloc: Global, text: &str) -> Result<RowTextList, AllocError> {
    let mut rows = RowTextList::new(alloc);
    for row in text.split(';') {
        let (name, faces) = row.split_once(' ').unwrap_or((row, ""));
        push_row(rt, alloc, &mut rows, name, faces)?;
    }
    Ok(rows)
}

fn built(rt: &impl Abort, alloc: Global, text: &str) -> Result<Table, TableFault> {
    let rows = written(rt, alloc, text)?;
    build_table(alloc, &rows)
}

fn has_rows<E: Drop>(table: Result<Table, E>, count: usize) -> bool {
    match table {
        Ok(table) => table.rows().len() == count,
        Err(_) => false,
    }
}

const CASES: [(&str, TableFault); 5] = [
    ("v;v", TableFault::DuplicateCell(1)),
    ("v;e v", TableFault::BadDimension(1)),
    ("v;e v e", TableFault::UnknownCell(1, 1)),
    ("v;t 0:v 1:v 0:v", TableFault::BadDimension(1)),
    ("a;b;e a b;t e e e", TableFault::FaceLaw(3, 0, 2)),
];

#[test]
fn rows_that_are_no_table(rt: HostRuntime) {
    let alloc = rt.alloc();
    let none = RowTextList::new(alloc);
    assert!(rt; fails(build_table(alloc, &none), TableFault::NoVertex));
    for (rows, fault) in CASES {
        assert!(rt; fails(built(&rt, alloc, rows), fault), "{rows}");
    }
}

// Whether a row has this name and dimension, and so many faces.
fn is_row(row: Option<&Row>, name: &str, dim: u32, faces: usize) -> bool {
    match row {
        Some(row) => {
            row.name.as_bytes() == name.as_bytes() && row.dim == dim && row.faces.len() == faces
        }
        None => false,
    }
}

fn has_face(row: Option<&Row>, place: usize, face: TableFace) -> bool {
    match row {
        Some(row) => row.faces.get(place) == Some(&face),
        None => false,
    }
}

#[test]
fn projective_plane(rt: HostRuntime) -> Result<(), Fail> {
    let table = built(&rt, rt.alloc(), "v;e v v;t e 0:v e")?;
    table_faults();
    rows_told();
    assert_eq!(rt; table.rows().len(), 3);
    assert!(rt; is_row(table.rows().get(2), "t", 2, 3));
    let vertex = TableFace {
        degens: Degens { mask: 1 },
        row: 0,
    };
    assert!(rt; has_face(table.rows().get(2), 1, vertex));
    Ok(())
}

fn push_cells(
    rt: &impl Abort,
    alloc: Global,
    rows: &mut RowTextList,
    count: u32,
) -> Result<(), AllocError> {
    let face = "14-13-12-11-10-9-8-7-6-5-4-3-2-1-0:v ";
    let faces = face.repeat(alloc, 17)?;
    for n in 0..count {
        let name = format!(in alloc; "c{n}")?;
        push_row(rt, alloc, rows, name.as_str(), faces.as_str())?;
    }
    Ok(())
}

// The most rows, each with the most faces, and one more.
#[test]
fn largest_table(rt: HostRuntime) -> Result<(), Fail> {
    let alloc = rt.alloc();
    let mut rows = written(&rt, alloc, "v")?;
    push_cells(&rt, alloc, &mut rows, 255)?;
    assert!(rt; has_rows(build_table(alloc, &rows), 256));
    push_row(&rt, alloc, &mut rows, "w", "")?;
    assert!(rt; fails(build_table(alloc, &rows), TableFault::TooManyCells(257)));
    Ok(())
}

#[test]
fn table_of_a_sphere(rt: HostRuntime) -> Result<(), Fail> {
    let sphere = sphere_table(rt.alloc(), 2)?;
    assert_eq!(rt; sphere.rows().len(), 2);
    assert!(rt; is_row(sphere.rows().get(1), "S2", 2, 3));
    assert!(rt; is(bundle_base(rt.alloc(), &Term::Sphere(2)), &sphere));
    Ok(())
}

#[test]
fn bases(rt: HostRuntime) -> Result<(), Fail> {
    let alloc = rt.alloc();
    let term = Term::Table(sphere_table(alloc, 2)?);
    assert!(rt; has_rows(bundle_base(alloc, &term), 2));
    assert!(rt; fails(bundle_base(alloc, &Term::KZ1), BaseFault::BaseNotTable));
    Ok(())
}

const TABLE_FAULTS: [(TableFault, &str); 7] = [
    (TableFault::NoVertex, "NoVertex"),
    (TableFault::BadDimension(1), "BadDimension"),
    (TableFault::UnknownCell(1, 2), "UnknownCell"),
    (TableFault::FaceLaw(1, 2, 3), "FaceLaw"),
    (TableFault::TooManyCells(257), "TooManyCells"),
    (TableFault::DuplicateCell(1), "DuplicateCell"),
    (TableFault::Memory, "Memory"),
];

#[test]
fn faults_are_shown_by_their_names(rt: HostRuntime) {
    for (fault, text) in TABLE_FAULTS {
        assert!(rt; is_shown(rt.alloc(), fault, text), "{text}");
    }
    assert!(rt; is_shown(rt.alloc(), BaseFault::BaseNotTable, "BaseNotTable"));
    assert!(rt; is_shown(rt.alloc(), BaseFault::Memory, "Memory"));
}
