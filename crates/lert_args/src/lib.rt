//! The words of a command line.
//!
//! The one contract is that of `read_line`: it answers the line as defined, with the settings and the places of the names in
//! the words, or the first rule that the line breaks. The top call reads its words with it.
#![tactic(auto)]

mod by_clap;
mod commands;
mod given;
mod line;
mod scan;
mod word;

pub use line::{Line, LineFault, Places, read_line};
