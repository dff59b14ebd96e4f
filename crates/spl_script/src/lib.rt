//! Scripts: the text that a run reads, as a list of lines that say who does what.
//!
//! `specs/Lines.antt` says which lines a list of bytes spells, or which of them is the first faulty line and why; the
//! forms of a line are in `specs/Verb.antt`, those of its fields in `specs/Names.antt`. Reading answers exactly that, in
//! one pass over the bytes. A script is written in one spelling (`specs/Writing.antt`), which reads as that script again,
//! and made of a seed by `specs/Generator.antt`.
#![tactic(auto)]

mod generator;
mod lines;
mod names;
mod part;
mod reader;
mod reason;
mod text;
mod verb;
mod writer;

pub use generator::make;
pub use lines::{Deed, ScriptLine, Scripts};
pub use reader::{INPUT_LIMIT, LINE_LIMIT, read_script};
pub use reason::{LineWhy, ScriptFault};
pub use spl_message::{Call, Key, Message, NoMemory, Value};
pub use writer::write_script;

#[cfg(test)]
mod tests;
