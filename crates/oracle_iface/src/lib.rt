//! Keys of the table of results, the values that it holds, and what gives them: the questions about the reduction of a space, as
//! the code asks and answers them (after the object machine of Kenzo; Rubio and Sergeraert, Constructive Homological Algebra and
//! Applications, on effective chain complexes).
#![tactic(auto)]

mod asking;
mod bodies;
mod cell_values;
mod chains;
mod entries;
mod forcer;
mod keys;
mod laws;
mod limits;
mod memo;
mod orders;
mod places;
mod sizes;

pub use asking::Asking;
pub use bodies::{Body, Kind, Outcome, Over, copy_over};
pub use cell_values::CellValue;
pub use chains::ChainList;
pub use entries::{Act, Entry};
pub use forcer::{ByCall, Forcer, RuleSet};
pub use keys::{Key, Op, Place, copy_key};
pub use laws::{
    cell_laws, cycles_laws, key_laws, named_laws, rank_laws, small_cell_laws, small_order_laws,
    term_laws, valid_key_laws,
};
pub use limits::{INTEGER, LETTERS, TERMS, limited, limits_agree, past};
pub use memo::{Claim, Memo, Ticket};
pub use orders::one_key;
pub use places::{degree_places, sphere_places, table_places};
pub use sizes::{Size, integer_of, letters_of, size_of, small_integer_of, small_letters_of};
