//! The rule of the cycles of a space in a degree: chains whose classes are a basis of its homology, from its small complex and the
//! map G of its reduction (Rubio and Sergeraert, Constructive Homological Algebra and Applications, on homology with generators).
#![tactic(auto)]

mod asking;
mod carrying;
mod columns;
mod cycles;
mod degrees;
mod keys;
mod marks;
mod rows;
mod rules;
mod spans;
mod sums;
mod typed;
mod vectors;

pub use asking::{Answers, ask_all};
pub use carrying::{Carried, CarriedList, carry, carry_all};
pub use columns::cells_in;
pub use cycles::cycles_by_asking;
pub use degrees::{DegreeAnswers, ask_degree, small_cells};
pub use keys::{keys_of_terms, small_key, small_keys};
pub use rows::{coordinate_row, small_chain};
pub use rules::rule;
pub use spans::{coordinate_rows, cycle_rows, span_basis};
pub use sums::{small_sum_of, sum_of};
pub use typed::{
    quote_laws, quoted_sum_laws, shown_laws, typed_cycles_laws, typed_key_laws, typed_sum_laws,
};
pub use vectors::terms_of_vector;
