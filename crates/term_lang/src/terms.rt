// Terms, which name spaces, and their copies.
ghost use Rattle.std.specs.Prelude.{◌≡◌, IfOk};

use crate::tables::Table;
use cells::IntList;
use seqs::{Arc, Box};
use std::alloc::{AllocError, Global};

/// The name of a space. Terms are ordered by kind and then by what they hold, and terms that are
/// equal hold the same.
#[derive(Debug, Drop)]
pub enum Term {
    /// The simplicial set of a table.
    Table(Table),
    /// The sphere of this dimension.
    Sphere(u32),
    /// The product of two spaces.
    Product(Box<Term>, Box<Term>),
    /// The suspension of a space with one vertex.
    Suspension(Box<Term>),
    /// K(Z,1), the nerve of the integers.
    KZ1,
    /// The bundle with fibre K(Z,1) over a table, by one integer for each row, 0 at rows that are not
    /// of dimension 2.
    Bundle(Table, IntList),
    /// The loop group of a space with one vertex.
    Loop(Box<Term>),
    /// The path space of a space with one vertex.
    Path(Box<Term>),
}

/// A copy of a table, which shares its rows, so that the allocator is not asked.
pub fn copy_table(_alloc: Global, table: &Table) -> Result<Table, AllocError>
    ensures { IfOk result (λ copy. copy ≡ table.now) }
{
    table.shared()
}

/// A copy of a term, which shares the rows of its tables.
pub fn copy_term(alloc: Global, t: &Term) -> Result<Term, AllocError>
    ensures { IfOk result (λ copy. copy ≡ t.now) }
{
    match t {
        Term::Table(table) => Ok(Term::Table(copy_table(alloc, table)?)),
        Term::Sphere(n) => Ok(Term::Sphere(*n)),
        Term::Product(a, b) => {
            let left = Box::new(alloc, copy_term(alloc, a.get())?)?;
            let right = Box::new(alloc, copy_term(alloc, b.get())?)?;
            Ok(Term::Product(left, right))
        }
        Term::Suspension(a) => Ok(Term::Suspension(Box::new(alloc, copy_term(alloc, a.get())?)?)),
        Term::KZ1 => Ok(Term::KZ1),
        Term::Bundle(base, values) => {
            let base = copy_table(alloc, base)?;
            Ok(Term::Bundle(base, values.copied(alloc)?))
        }
        Term::Loop(a) => Ok(Term::Loop(Box::new(alloc, copy_term(alloc, a.get())?)?)),
        Term::Path(a) => Ok(Term::Path(Box::new(alloc, copy_term(alloc, a.get())?)?)),
    }
}

/// A shared copy of a term.
pub fn share(alloc: Global, t: &Term) -> Result<Arc<Term>, AllocError>
    ensures { IfOk result (λ shared. shared ≡ t.now) }
{
    Arc::new(alloc, copy_term(alloc, t)?)
}
