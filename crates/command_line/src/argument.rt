//! Arguments of commands as rows of data, and what clap makes of them.

use clap::{Arg, ArgAction};
use std::alloc::{AllocError, Global};

/// An argument or an option of a command, as help describes it.
#[derive(Clone, Copy)]
pub struct Argument {
    /// The name by which clap finds its value. An option's name is also its word on the command
    /// line, after `--`.
    pub name: &'static str,
    /// The letter of an option that has a short form.
    pub short: Option<char>,
    /// What it is on the command line.
    pub form: Form,
    /// The text in help.
    pub help: &'static str,
    /// The names of the options that it needs.
    pub needs: &'static [&'static str],
    /// The names of the options that it can't be used with.
    pub conflicts: &'static [&'static str],
    /// Whether all commands have it.
    pub is_global: bool,
}

/// What an argument is on the command line.
#[derive(Clone, Copy)]
pub enum Form {
    /// A word that is required.
    Word,
    /// One or more words.
    Words,
    /// A word that is required, and can begin with a hyphen.
    HyphenWord,
    /// A word that may be left out.
    OptionalWord,
    /// Any number of words.
    OptionalWords,
    /// An option with a value, whose name in help this is.
    Value(&'static str),
    /// An option with a value, whose name in help this is, that can be repeated.
    Values(&'static str),
    /// An option with one of several values: the name in help, and the values.
    Choice(&'static str, &'static [&'static str]),
    /// An option without a value.
    Flag,
}

/// A required argument with no name and no help. Each row names what is different.
pub const PLAIN: Argument = Argument {
    name: "",
    short: None,
    form: Form::Word,
    help: "",
    needs: &[],
    conflicts: &[],
    is_global: false,
};

impl Argument {
    /// Returns the argument as clap takes it. Fails if memory is refused.
    fn to_arg<'a>(self, alloc: Global) -> Result<Arg<'a>, AllocError> {
        self.named(alloc)
            .requires_all(self.needs)?
            .conflicts_with_all(self.conflicts)
    }

    /// Returns the argument without the options that it needs or can't be used with.
    fn named<'a>(self, alloc: Global) -> Arg<'a> {
        let arg = self.form.arg(alloc, self.name);
        let arg = match self.short {
            Some(letter) => arg.short(letter),
            None => arg,
        };
        arg.help(self.help).global(self.is_global)
    }
}

impl Form {
    /// Returns an argument of this form with this name.
    fn arg<'a>(self, alloc: Global, name: &'static str) -> Arg<'a> {
        let arg = Arg::new(alloc, name);
        match self {
            Form::Word => arg.required(true),
            Form::Words => arg.required(true).num_args(1..).action(ArgAction::Append),
            Form::HyphenWord => arg.required(true).allow_hyphen_values(true),
            Form::OptionalWord => arg,
            Form::OptionalWords => arg.num_args(0..).action(ArgAction::Append),
            Form::Value(value) => arg.long(name).value_name(value),
            Form::Values(value) => arg.long(name).value_name(value).action(ArgAction::Append),
            Form::Choice(value, values) => arg.long(name).value_name(value).value_parser(values),
            Form::Flag => arg.long(name).action(ArgAction::SetTrue),
        }
    }
}

/// Returns these arguments as clap takes them. Fails if memory is refused.
pub fn args_of<'a>(alloc: Global, arguments: &[Argument]) -> Result<Vec<Arg<'a>>, AllocError> {
    let mut args = Vec::new(alloc);
    for argument in arguments {
        args.push(argument.to_arg(alloc)?)?;
    }
    Ok(args)
}
