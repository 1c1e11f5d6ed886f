//! The replies of a session and their texts.
#![tactic(auto)]

mod cell_texts;
mod chain_texts;
mod degens;
mod list_texts;
mod lists;
mod pieces;
mod printed;
mod refusal_texts;
mod refusals;
mod replies;
mod reply_texts;
mod rows;

pub use lists::{NameList, NumberList};
pub use pieces::ByteList;
pub use refusals::Refusal;
pub use replies::Reply;
pub use reply_texts::reply_text;
