//! Tests of the script language and of the texts of replies, from outside: lines and their commands, simplices as they are written in each
//! space, and each reply's text.
#![tactic(auto)]

#[cfg(test)]
mod cell_chains;
#[cfg(test)]
mod line_tests;
#[cfg(test)]
mod line_texts;
#[cfg(test)]
mod place_tests;
#[cfg(test)]
mod reply_tests;
#[cfg(test)]
mod simplex_tests;
#[cfg(test)]
mod simplex_texts;
#[cfg(test)]
mod written_spaces;
