use crate::answers::{crosses, is};
use crate::tables::{bundle, named, point};
use seqs::{Box, new_seq};
use std::alloc::{AllocError, Global};
use std::hash::{DefaultHasher, Hash, Hasher};
use std::test::Fail;
use term_lang::{FaceText, FaceTextList, RowText, RowTextList, Term, copy_table, copy_term, share};

fn is_shared(alloc: Global, term: &Term) -> bool {
    match share(alloc, term) {
        Ok(shared) => {
            crosses(&shared);
            shared.get() == term
        }
        Err(_) => false,
    }
}

#[test]
fn share_of_the_3_sphere_holds_it(rt: HostRuntime) {
    assert!(rt; is_shared(rt.alloc(), &Term::Sphere(3)));
}

fn path(alloc: Global, part: Term) -> Result<Term, AllocError> {
    Ok(Term::Path(Box::new(alloc, part)?))
}

fn suspended_product(alloc: Global, left: Term, right: Term) -> Result<Term, AllocError> {
    let left = Box::new(alloc, left)?;
    let right = Box::new(alloc, right)?;
    Ok(Term::Suspension(Box::new(alloc, Term::Product(left, right))?))
}

#[test]
fn a_copy_of_a_table_equals_it(rt: HostRuntime) -> Result<(), Fail> {
    let table = point(rt.alloc(), named(b"v"))?;
    assert!(rt; is(copy_table(rt.alloc(), &table), &table));
    Ok(())
}

fn term_of_each_shape(alloc: Global) -> Result<Term, AllocError> {
    let base = bundle(alloc, point(alloc, named(b"v"))?, &[])?;
    let path = path(alloc, Term::Sphere(2))?;
    suspended_product(alloc, base, path)
}

#[test]
fn a_copy_of_a_term_equals_it(rt: HostRuntime) -> Result<(), Fail> {
    let term = term_of_each_shape(rt.alloc())?;
    assert!(rt; is(copy_term(rt.alloc(), &term), &term));
    assert!(rt; term != Term::KZ1);
    Ok(())
}

fn hash_of(term: &Term) -> u64 {
    let mut state = DefaultHasher::new();
    term.hash(&mut state);
    state.finish()
}

#[test]
fn terms_made_apart_are_equal_and_hash_alike(rt: HostRuntime) -> Result<(), Fail> {
    let term = term_of_each_shape(rt.alloc())?;
    let again = term_of_each_shape(rt.alloc())?;
    assert!(rt; term == again);
    assert!(rt; hash_of(&term) == hash_of(&again));
    Ok(())
}

#[test]
fn tables_of_other_names_differ_and_so_do_their_hashes(rt: HostRuntime) -> Result<(), Fail> {
    let table = Term::Table(point(rt.alloc(), named(b"v"))?);
    let other = Term::Table(point(rt.alloc(), named(b"w"))?);
    assert!(rt; table != other);
    assert!(rt; hash_of(&table) != hash_of(&other));
    Ok(())
}

fn one_face(alloc: Global) -> Result<FaceTextList, AllocError> {
    let mut faces = FaceTextList::new(alloc);
    faces.push(FaceText {
        word: new_seq(alloc),
        name: named(b"S2"),
    })?;
    Ok(faces)
}

fn one_row(alloc: Global) -> Result<RowTextList, AllocError> {
    let mut rows = RowTextList::new(alloc);
    rows.push(RowText {
        name: named(b"S2"),
        faces: one_face(alloc)?,
    })?;
    Ok(rows)
}

fn has_one_face(row: &RowText, name: &[u8]) -> bool {
    match row.faces.get(0) {
        Some(face) => row.faces.len() == 1 && face.name.as_bytes() == name,
        None => false,
    }
}

#[test]
fn written_rows_are_read_back(rt: HostRuntime) -> Result<(), Fail> {
    let rows = one_row(rt.alloc())?;
    let row = rows.get(0).ok_or("a row was written")?;
    assert!(rt; has_one_face(row, b"S2"));
    Ok(())
}
