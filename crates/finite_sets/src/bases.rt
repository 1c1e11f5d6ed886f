// The base of a bundle, from a term.
ghost use Rattle.std.specs.Prelude.{◌≡◌, ◌↔◌, ◌≤◌, ℕ, IfOk, IsErrOf};
ghost use Rattle.term_lang.specs.declared.terms.Term.TheVariants.{Sphere};
ghost use Rattle.finite_sets.specs.Bases.{IsBaseTable, HasNoTable};

use crate::spheres::sphere_table;
use std::alloc::Global;
use term_lang::{Table, Term, copy_table};
use thiserror::Error;

/// Why a term has no table to be a base.
#[derive(Clone, Copy, Debug, PartialEq, Eq, Error)]
pub enum BaseFault {
    /// It is neither a table nor a sphere.
    #[error("BaseNotTable")]
    BaseNotTable,
    /// Want of memory.
    #[error("Memory")]
    Memory,
}

/// The table of a term that is a table, or a sphere of dimension 1 to 16: an equal table, or the
/// sphere's `sphere_table`. BaseNotTable exactly where the term is neither a table nor a sphere.
pub fn bundle_base(alloc: Global, t: &Term) -> Result<Table, BaseFault>
    requires { (n : ℕ) → t.now ≡ Sphere n → (1 ≤ n) × (n ≤ 16) }
    ensures base { IfOk result (IsBaseTable t.now) }
    ensures neither { IsErrOf result BaseFault.BaseNotTable ↔ HasNoTable t.now }
{
    match t {
        Term::Table(table) => copy_table(alloc, table).map_err(|_| BaseFault::Memory),
        Term::Sphere(n) => sphere_table(alloc, *n).map_err(|_| BaseFault::Memory),
        _ => Err(BaseFault::BaseNotTable),
    }
}
