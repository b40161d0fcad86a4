//! The program's command line, as `clap` has it, and what `clap` finds for the words of a call.

mod arguments;
mod commands;
mod matching;
mod program;

pub(crate) use matching::matched;
