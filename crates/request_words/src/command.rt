//! The words as `clap` reads them.

ghost use Rattle.std.specs.Prelude.{◌≡◌, drop, false, map, string_bytes, true, IfErr, IfOk};
ghost use Rattle.std.specs.Option.{option_copied};
ghost use Rattle.clap.specs.Words.{app_of, kind_of, rule_of};
ghost use Rattle.request_words.specs.Command.{command, given_by, option_rule, with_options};
ghost use Rattle.request_words.specs.Form.{given_in, has_form};
ghost use Rattle.request_words.specs.Options.{word_of};

use crate::options::OPTIONS;
use crate::usage::OptionName;
use clap::error::ErrorKind;
use clap::{Arg, ArgMatches, Command, Error};
use std::alloc::{AllocError, Global};

/// Returns the matches of words that have the form, the program's name first. Fails only if memory runs out.
pub(crate) fn matches_of<'a>(alloc: Global, words: &'a [String]) -> Result<ArgMatches<'a>, Error>
    requires { has_form (drop 1 (map string_bytes words.now)) ≡ true }
    ensures read { IfOk result (λ matches. given_by matches ≡ given_in (drop 1 (map string_bytes words.entry.now))) }
    ensures refused { IfErr result (λ error. kind_of error ≡ ErrorKind.OutOfMemory) }
{
    command(alloc)?.try_get_matches_from(words)
}

/// Returns the word that is given for an option, if there is one.
pub(crate) fn given_by<'a>(matches: &ArgMatches<'a>, name: OptionName) -> Option<&'a str>
    ensures { option_copied result ≡ given_by matches.now name }
{
    matches.get_str(name.word())
}

/// Returns the one simple command, without help and version.
fn command<'a>(alloc: Global) -> Result<Command<'a>, AllocError>
    ensures { IfOk result (λ made. app_of made ≡ command) }
{
    let bare = Command::new(alloc, "pdgf")
        .disable_help_flag(true)
        .disable_version_flag(true);
    let command = bare
        .arg(Arg::new(alloc, "mode").required(true))?
        .arg(Arg::new(alloc, word_of(OptionName::Schema)))?;
    with_options(alloc, command, OPTIONS.as_slice())
}

/// Adds options to a command, after those that it has.
fn with_options<'a>(
    alloc: Global,
    command: Command<'a>,
    options: &[OptionName],
) -> Result<Command<'a>, AllocError>
    ensures { IfOk result (λ made. app_of made ≡ with_options (app_of command.entry) (map word_of options.now)) }
{
    match options {
        [] => Ok(command),
        [first, rest @ ..] => {
            with_options(alloc, command.arg(option(alloc, word_of(*first)))?, rest)
        }
    }
}

/// Returns the option of a name, with one text as its value.
fn option<'a>(alloc: Global, word: &'a str) -> Arg<'a>
    ensures rule { rule_of result ≡ option_rule word.entry.now }
    ensures local { result.global ≡ false }
{
    Arg::new(alloc, word).long(word)
}

/// Returns an option's name, for as long as a command needs it.
fn word_of<'a>(name: OptionName) -> &'a str
    ensures { result.now ≡ word_of name }
{
    name.word()
}
