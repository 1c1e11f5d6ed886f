//! The script language: its grammar, and the reader of a line.
#![tactic(auto)]

mod bytes;
mod commands;
mod exprs;
mod faults;
mod forms;
mod laws;
mod lines;
mod named;
mod reader;
mod resolving;
mod scan;
mod simplices;
mod words;

pub use commands::Command;
pub use exprs::{Expr, PairText, PairTextList};
pub use faults::{LineRefused, SyntaxFault, SyntaxKind};
pub use laws::{one_command, worked_lines};
pub use lines::read_line;
pub use resolving::{ResolveFault, resolve};
pub use simplices::{BodyText, ChainText, LetterText, SimplexText, TermText, TermTextList};
