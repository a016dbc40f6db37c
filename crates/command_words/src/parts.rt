//! What the verbs are made of, as it is written down, and as the library of command lines knows it.

use crate::words::{Form, Word};
use clap::{Arg, ArgAction, Command};
use std::alloc::{AllocError, Global};

/// A verb.
#[derive(Clone, Copy)]
pub(crate) struct Verb {
    pub(crate) name: &'static str,
    pub(crate) about: &'static str,
    /// What stands at the end of its help.
    pub(crate) help: &'static str,
    pub(crate) words: &'static [Word],
}

impl Form {
    fn is_operand(self) -> bool {
        match self {
            Form::Operand | Form::Operands => true,
            Form::Flag | Form::Valued | Form::OneOf(_, _) => false,
        }
    }

    fn action(self) -> ArgAction {
        match self {
            Form::Operand | Form::Valued | Form::OneOf(_, _) => ArgAction::Set,
            Form::Operands => ArgAction::Append,
            Form::Flag => ArgAction::SetTrue,
        }
    }
}

// The argument, with what cannot be given beside it, and what has to be.
fn beside<'a>(arg: Arg<'a>, bars: &[&'a str], needs: &[&'a str]) -> Result<Arg<'a>, AllocError> {
    arg.conflicts_with_all(bars)?.requires_all(needs)
}

// The argument, but for what its form alone has.
fn begun(alloc: Global, word: Word) -> Result<Arg<'static>, AllocError> {
    let form = word.form();
    let arg = Arg::new(alloc, word.name())
        .value_names(word.shown())
        .help(word.about())
        .required(form.is_operand())
        .action(form.action());
    beside(arg, word.bars(), word.needs())
}

fn arg_of(alloc: Global, word: Word) -> Result<Arg<'static>, AllocError> {
    let arg = begun(alloc, word)?;
    Ok(match word.form() {
        Form::Operand => arg,
        Form::Operands => arg.num_args(1..),
        Form::Flag | Form::Valued => arg.long(word.name()),
        Form::OneOf(values, usual) => arg
            .long(word.name())
            .value_parser(values)
            .hide_possible_values(true)
            .default_value(usual),
    })
}

fn args_of(alloc: Global, words: &[Word]) -> Result<Vec<Arg<'static>>, AllocError> {
    let mut args = Vec::new(alloc);
    for word in words {
        args.push(arg_of(alloc, *word)?)?;
    }
    Ok(args)
}

/// The command of a verb. Err: memory was refused.
pub(crate) fn command_of<'a>(alloc: Global, verb: &Verb) -> Result<Command<'a>, AllocError> {
    let args = args_of(alloc, verb.words)?;
    Command::new(alloc, verb.name)
        .about(verb.about)
        .after_help(verb.help)
        .args(args)
}
