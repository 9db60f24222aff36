//! Subcommands and their words as tables, and the commands that are made of them.

use clap::builder::ValueParser;
use clap::{Arg, ArgAction, Command};
use std::alloc::{AllocError, Global};

/// The words for the headers of frames.
pub const HEADERS: &[&str] = &["binary2", "ascii4", "bcd2"];

/// What is said at a word's place, or behind its name: the name of its value in the help, and what that may be.
pub enum Takes {
    /// The value itself, at its place among the words.
    Place(&'static str),
    /// Nothing: the word is given or not.
    Nothing,
    /// A text.
    Text(&'static str),
    /// One of these texts.
    OneOf(&'static str, &'static [&'static str]),
    /// A whole number within these bounds.
    Number(&'static str, u64, u64),
    /// A whole number of 16 bits.
    Short(&'static str),
    /// A text, each time that the word is given.
    Texts(&'static str),
    /// A whole number of 16 bits, each time that the word is given.
    Shorts(&'static str),
}

/// When a word is given, and with which others.
pub enum Rule {
    /// It has to be given.
    Required,
    /// It has to be given where this one isn't.
    Unless(&'static str),
    /// It is given with this one alone, or with one of this group.
    With(&'static str),
    /// It isn't given beside this one.
    Without(&'static str),
    /// It is one of this group.
    In(&'static str),
    /// This is its value where it isn't given.
    Default(&'static str),
    /// The help doesn't show its value where it isn't given.
    HidesDefault,
}

/// A word of a subcommand.
pub struct Word {
    /// Its name: what it is asked for by, and, where it isn't known by its place, what stands behind `--`.
    pub id: &'static str,
    /// What is said there.
    pub takes: Takes,
    /// What it is, in the help.
    pub help: &'static str,
    /// When it is given.
    pub rules: &'static [Rule],
}

/// A subcommand.
pub struct Subcommand {
    /// Its name.
    pub name: &'static str,
    /// What it does, in one line.
    pub about: &'static str,
    /// What stands behind its help, as an example.
    pub after_help: &'static str,
    /// Its words, in the order of the help.
    pub words: &'static [&'static [Word]],
}

/// A word that is given by its name, with what is shown for its value.
fn named<'a>(argument: Arg<'a>, word: &Word, shown: &'static str) -> Arg<'a> {
    argument.long(word.id).value_name(shown)
}

/// A word that takes what it takes.
fn taking<'a>(argument: Arg<'a>, word: &Word) -> Arg<'a> {
    match &word.takes {
        Takes::Place(shown) => argument.value_name(*shown),
        Takes::Nothing => argument.long(word.id).action(ArgAction::SetTrue),
        Takes::Text(shown) => named(argument, word, shown),
        Takes::OneOf(shown, values) => named(argument, word, shown).value_parser(*values),
        Takes::Number(shown, least, most) => named(argument, word, shown).value_parser(
            ValueParser::Unsigned(*least, *most),
        ),
        Takes::Short(shown) => named(argument, word, shown).value_parser(clap::value_parser!(u16)),
        Takes::Texts(shown) => named(argument, word, shown).action(ArgAction::Append),
        Takes::Shorts(shown) => named(argument, word, shown)
            .action(ArgAction::Append)
            .value_parser(clap::value_parser!(u16)),
    }
}

/// A word under one more rule.
fn ruled<'a>(argument: Arg<'a>, rule: &Rule) -> Result<Arg<'a>, AllocError> {
    match rule {
        Rule::Required => Ok(argument.required(true)),
        Rule::Unless(id) => argument.required_unless_present(*id),
        Rule::With(id) => argument.requires_arg(*id),
        Rule::Without(id) => argument.conflicts_with(*id),
        Rule::In(id) => argument.group(*id),
        Rule::Default(value) => Ok(argument.default_value(*value)),
        Rule::HidesDefault => Ok(argument.hide_default_value(true)),
    }
}

/// A word, as `clap` judges it.
fn argument<'a>(alloc: Global, word: &Word) -> Result<Arg<'a>, AllocError> {
    let mut argument = taking(Arg::new(alloc, word.id).help(word.help), word);
    for rule in word.rules {
        argument = ruled(argument, rule)?;
    }
    Ok(argument)
}

/// A command with more words.
fn with_words<'a>(
    alloc: Global,
    mut command: Command<'a>,
    words: &[Word],
) -> Result<Command<'a>, AllocError> {
    for word in words {
        command = command.arg(argument(alloc, word)?)?;
    }
    Ok(command)
}

/// A subcommand, as `clap` judges it.
pub fn command_of<'a>(alloc: Global, of: &Subcommand) -> Result<Command<'a>, AllocError> {
    let mut command = Command::new(alloc, of.name)
        .about(of.about)
        .after_help(of.after_help);
    for words in of.words {
        command = with_words(alloc, command, *words)?;
    }
    Ok(command)
}

/// A command that these subcommands are of, one of which has to be named.
pub fn with_subcommands<'a>(
    alloc: Global,
    mut command: Command<'a>,
    below: &[Subcommand],
) -> Result<Command<'a>, AllocError> {
    for of in below {
        command = command.subcommand(command_of(alloc, of)?)?;
    }
    Ok(
        command
            .subcommand_required(true)
            .arg_required_else_help(true),
    )
}
