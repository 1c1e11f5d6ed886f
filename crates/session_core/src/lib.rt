//! A session: the lines that it is fed, its replies, and the names and field after each (the commands: Kenzo documentation, 1999;
//! what their values are: Rubio and Sergeraert, Constructive Homological Algebra and Applications).
//!
//! What a line comes to is defined in `specs/`, and the code answers exactly that. A function with an empty body is a law about
//! these definitions.
#![tactic(auto)]

mod answered;
mod answerer;
mod asker;
mod betti;
mod boundaries;
mod chains;
mod counts;
mod degrees;
mod dimensions;
mod divisions;
mod express;
mod fibrations;
mod filling;
mod homologies;
mod images;
mod keyed_dimensions;
mod keyed_parts;
mod line_faults;
mod lines;
mod names;
mod order;
mod pairs;
mod parts;
mod parts_of_cycles;
mod posed;
mod ranges;
mod ranks;
mod replies;
mod reply_laws;
mod session;
mod session_names;
mod settings;
mod spots;
mod stops;
mod thrifty;
mod whole;
mod without;

pub use answerer::Answerer;
pub use line_faults::LineFault;
pub use lines::{
    field_laws, lines_are_told, questions_change_nothing, refused_lines_change_nothing,
};
pub use names::name_laws;
pub use order::worked_answers;
pub use reply_laws::{
    betti_replies, boundary_replies, express_replies, homology_is_answered, homology_replies,
};
pub use session::{Session, new_session};
pub use whole::names_stay_whole;
