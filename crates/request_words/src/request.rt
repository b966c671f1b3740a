//! The request that words give, and what is wrong with the words.

ghost use Rattle.std.specs.Prelude.{◌≡◌, is_some, map, string_bytes, unwrap_or, IfErr, IfOk, []};
ghost use Rattle.std.specs.Option.{option_and_then, option_copied};
ghost use Rattle.request_words.specs.Command.{given_by};
ghost use Rattle.request_words.specs.Form.{given_in, mode_in};
ghost use Rattle.request_words.specs.Options.{format_given, header_given, mode_named, number_for, number_or_zero, order, request_of, takes};
ghost use Rattle.request_words.specs.Words.{fault_of, first_fault, format_fault, header_fault, option_fault, value_fault};

use crate::command::given_by;
use crate::form::{given_in, mode_in};
use crate::numbers::{number_given, number_in};
use crate::options::{
    Form, OPTIONS, Take, format_named, header_named, input_format_named, mode_named, takes,
};
use crate::usage::{Format, Header, Mode, OptionName, Request, UsageFault};
use clap::ArgMatches;
use schema_model::Text;
use std::alloc::Global;

/// Returns the mode that the words give; None if they name no mode.
pub(crate) fn mode_of(words: &[String]) -> Option<Mode>
    ensures { result ≡ option_and_then mode_named (mode_in (map string_bytes words.now)) }
{
    match mode_in(words) {
        Some(word) => mode_named(word),
        None => None,
    }
}

/// Returns the first fault of what the words give for a mode: of the schema, then of the options in turn, and last of names that are
/// wanted of rows that aren't written as CSV. Returns None if there is no fault.
pub(crate) fn fault_of(mode: Mode, words: &[String]) -> Option<UsageFault>
    ensures { result ≡ fault_of mode (given_in (map string_bytes words.now)) }
{
    let header = header_given(given_in(words, OptionName::Header));
    let format = format_given(given_in(words, OptionName::Format));
    first_fault(mode, words).or(header_fault(header, format))
}

/// Returns what is wrong with a header in a format; None if nothing is.
fn header_fault(header: Header, format: Format) -> Option<UsageFault>
    ensures { result ≡ header_fault header format }
{
    let unwanted = UsageFault::Unwanted(OptionName::Header);
    match (header, format) {
        (Header::Names, Format::Copy | Format::Sql) => Some(unwanted),
        _ => None,
    }
}

/// Returns the first fault of the schema and the options, in turn.
fn first_fault(mode: Mode, words: &[String]) -> Option<UsageFault>
    ensures { result ≡ first_fault mode (given_in (map string_bytes words.now)) order }
{
    fault_at(mode, words, OptionName::Schema).or(first_of(mode, words, OPTIONS.as_slice()))
}

/// Returns the first fault of the options, in turn.
fn first_of(mode: Mode, words: &[String], names: &[OptionName]) -> Option<UsageFault>
    ensures { result ≡ first_fault mode (given_in (map string_bytes words.now)) names.now }
{
    match names {
        [] => None,
        [name, rest @ ..] => fault_at(mode, words, *name).or(first_of(mode, words, rest)),
    }
}

/// Returns what is wrong with what the words give for an option; None if nothing is.
fn fault_at(mode: Mode, words: &[String], name: OptionName) -> Option<UsageFault>
    ensures { result ≡ option_fault (takes mode name) name (given_in (map string_bytes words.now) name) }
{
    option_fault(takes(mode, name), name, given_in(words, name))
}

fn option_fault(take: Take, name: OptionName, value: Option<&str>) -> Option<UsageFault>
    ensures { result ≡ option_fault take name (option_copied value.entry) }
{
    match (take, value) {
        (Take::Unwanted | Take::Optional(_) | Take::Preset(_, _), None) => None,
        (Take::Unwanted, Some(_)) => Some(UsageFault::Unwanted(name)),
        (Take::Needed(_), None) => Some(UsageFault::Missing(name)),
        (Take::Optional(form) | Take::Preset(form, _) | Take::Needed(form), Some(value)) => {
            value_fault(form, name, value)
        }
    }
}

fn value_fault(form: Form, name: OptionName, value: &str) -> Option<UsageFault>
    ensures { result ≡ value_fault form name value.now }
{
    match form {
        Form::Text => None,
        Form::Number | Form::FromOneTo(_) => match number_in(form, value) {
            Some(_) => None,
            None => Some(UsageFault::Number(name)),
        },
        Form::Directory => match value.as_bytes() {
            [] => Some(UsageFault::EmptyDirectory(name)),
            [_, ..] => None,
        },
        Form::FormatName => format_fault(format_named(value)),
        Form::InputFormat => format_fault(input_format_named(value)),
        Form::HeaderName => match header_named(value) {
            Some(_) => None,
            None => Some(UsageFault::Header),
        },
    }
}

/// Returns what is wrong with a format's name, by the format that it names.
fn format_fault(named: Option<Format>) -> Option<UsageFault>
    ensures { result ≡ format_fault (is_some named) }
{
    match named {
        Some(_) => None,
        None => Some(UsageFault::Format),
    }
}

/// Returns the request that matches give for a mode. Fails only if memory runs out.
pub(crate) fn request_of(
    alloc: Global,
    mode: Mode,
    matches: &ArgMatches<'_>,
) -> Result<Request, UsageFault>
    ensures made { IfOk result (λ made. made ≡ request_of mode (given_by matches.now)) }
    ensures refused { IfErr result (λ fault. fault ≡ UsageFault.Memory) }
{
    let schema = text_of(alloc, given_by(matches, OptionName::Schema).unwrap_or(""))?;
    let table = optional_text_of(alloc, given_by(matches, OptionName::Table))?;
    let source = text_of(alloc, given_by(matches, OptionName::In).unwrap_or(""))?;
    let store = text_of(alloc, given_by(matches, OptionName::Store).unwrap_or(""))?;
    let spec = text_of(alloc, given_by(matches, OptionName::Spec).unwrap_or(""))?;
    let out = optional_text_of(alloc, given_by(matches, OptionName::Out))?;
    Ok(Request {
        mode,
        schema,
        unit: number_or_zero(mode, matches, OptionName::Unit),
        from: number_or_zero(mode, matches, OptionName::From),
        to: number_or_zero(mode, matches, OptionName::To),
        table,
        key: number_or_zero(mode, matches, OptionName::Key),
        source,
        out,
        workers: number_or_zero(mode, matches, OptionName::Workers) as u32,
        package: number_for(mode, matches, OptionName::Package),
        node: number_or_zero(mode, matches, OptionName::Node),
        nodes: number_or_zero(mode, matches, OptionName::Nodes),
        size: number_or_zero(mode, matches, OptionName::Size),
        format: format_given(given_by(matches, OptionName::Format)),
        store,
        spec,
        header: header_given(given_by(matches, OptionName::Header)),
    })
}

/// Returns the format that is given; COPY text form if none is.
fn format_given(word: Option<&str>) -> Format
    ensures { result ≡ format_given (option_copied word.entry) }
{
    match word {
        None => Format::Copy,
        Some(word) => format_named(word).unwrap_or(Format::Copy),
    }
}

/// Returns what files in CSV begin with, as it is given; their rows if it isn't.
fn header_given(word: Option<&str>) -> Header
    ensures { result ≡ header_given (option_copied word.entry) }
{
    match word {
        None => Header::None,
        Some(word) => header_named(word).unwrap_or(Header::None),
    }
}

/// Returns the number that an option has in a mode; None if it has none.
fn number_for(mode: Mode, matches: &ArgMatches<'_>, name: OptionName) -> Option<u64>
    ensures { result ≡ number_for mode (given_by matches.now) name }
{
    number_given(takes(mode, name), given_by(matches, name))
}

/// Returns the number that an option has in a mode; 0 if it has none.
fn number_or_zero(mode: Mode, matches: &ArgMatches<'_>, name: OptionName) -> u64
    ensures { result ≡ number_or_zero mode (given_by matches.now) name }
{
    number_for(mode, matches, name).unwrap_or(0)
}

fn optional_text_of(alloc: Global, word: Option<&str>) -> Result<Option<Text>, UsageFault>
    ensures made { IfOk result (λ made. made ≡ option_copied word.entry) }
    ensures refused { IfErr result (λ fault. fault ≡ UsageFault.Memory) }
{
    match word {
        None => Ok(None),
        Some(word) => Ok(Some(text_of(alloc, word)?)),
    }
}

fn text_of(alloc: Global, word: &str) -> Result<Text, UsageFault>
    ensures made { IfOk result (λ made. made ≡ word.now) }
    ensures refused { IfErr result (λ fault. fault ≡ UsageFault.Memory) }
{
    match Text::of(alloc, word) {
        Ok(text) => Ok(text),
        Err(_) => Err(UsageFault::Memory),
    }
}
