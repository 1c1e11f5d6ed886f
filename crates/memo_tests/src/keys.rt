// Keys and cells that the tests share.
ghost use Rattle.std.specs.Prelude.{◌≡◌, IfOk};
ghost use Rattle.memo_book.specs.Worked.{sphere_key};

use fp_field::Prime;
use oracle_iface::{Body, CellValue, Key, Op, Outcome, Place};
use seqs::{Arc, new_seq};
use std::alloc::{AllocError, Global};
use term_lang::Term;

/// The key of the small cells of a degree of the sphere of dimension 2, over F_3.
pub fn key_in(alloc: Global, degree: u32) -> Result<Arc<Key>, AllocError>
    ensures { IfOk result (λ k. k ≡ sphere_key degree) }
{
    let key = Key {
        op: Op::Basis,
        prime: Prime::Three,
        place: Place::Degree(degree),
        term: Arc::new(alloc, Term::Sphere(2))?,
    };
    Arc::new(alloc, key)
}

/// The cell of the key of degree 5, where there is no small cell.
pub fn empty_cell(alloc: Global) -> Result<Arc<CellValue>, AllocError>
    ensures { IfOk result (λ v. v.key ≡ sphere_key 5) }
{
    let key = key_in(alloc, 5)?;
    let outcome = Outcome::Value(Body::Cells(new_seq(alloc)));
    Arc::new(alloc, CellValue { key, outcome })
}
