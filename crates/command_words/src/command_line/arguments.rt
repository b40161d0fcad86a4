//! What a command takes.
ghost use Rattle.command_words.specs.Program.{IsRule, rule_by};

use clap::{Arg, ArgAction};
use std::alloc::Global;

/// What a command takes under a name.
#[derive(Clone, Copy)]
pub(crate) enum Argument<'a> {
    /// A word, which has to be there.
    Word(&'a str),
    /// An option of one value, and a second use is a fault.
    Option(&'a str),
    /// An option without a value, and a second use is a fault.
    Flag(&'a str),
}

/// An argument as `clap` has it. A value stays text, since clap's own integers take `+5`.
pub(crate) fn arg_of<'a>(alloc: Global, argument: Argument<'a>) -> Arg<'a>
    ensures { IsRule (rule_by argument.entry) result }
{
    match argument {
        Argument::Word(name) => Arg::new(alloc, name).action(ArgAction::Set).required(true),
        Argument::Option(name) => Arg::new(alloc, name).long(name).action(ArgAction::Set),
        Argument::Flag(name) => Arg::new(alloc, name).long(name).action(ArgAction::SetTrue),
    }
}
