//! Terms, which name spaces: tables, names, copies, and what the simplices of the code stand for.
#![tactic(auto)]

mod check;
mod codes;
mod equal;
mod faults;
mod hashes;
mod laws;
mod measures;
mod names;
mod order;
mod row_faces;
mod simplicial;
mod tables;
mod terms;
mod texts;

pub use cells::{
    Cell, IntList, Letter, LetterList, Simplex, SmallCell, SmallList, copy_cell, copy_letters,
    copy_simplex, copy_small, degree, dim, small_degree,
};
pub use check::check_term;
pub use faults::TermFault;
pub use laws::{one_term, sphere_normal_forms, table_normal_forms, words_before_simplices};
pub use measures::{depth, low, vertices};
pub use names::{Name, name_of};
pub use row_faces::table_face;
pub use simplicial::Faces;
pub use tables::{FaceList, Row, RowList, Table, TableFace, table_of};
pub use terms::{Term, copy_table, copy_term, share};
pub use texts::{FaceText, FaceTextList, NotCocycle, RowText, RowTextList};
